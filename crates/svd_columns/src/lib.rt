// Inner: what comes after the sweeps of the SVD. The work matrix has `side` columns of `rows` cells and V
// has `side` columns of `side` cells, both as planes; `order` keeps the order of the columns.
#![tactic(auto)]

ghost use Rattle.std.specs.Prelude.{◌≡◌, ◌+◌, ◌*◌, ◌<◌, ◌≤◌, length};
ghost use Rattle.complex.specs.Cells.{written};
ghost use Rattle.complex.specs.Planes.{plane_at};
ghost use Rattle.complex.specs.Squares.{squares_to};
ghost use Rattle.stable_order.specs.Places.{places_in, Places};
ghost use Rattle.svd_columns.specs.Columns.{plane_from, norms_of, norms_exact, norm_clamp_min, unit_length, direction_of, directions_of, v_cell, v_columns_of, sorted_of};

use complex::Complex;

// The sum of the squares of a column's cells, from the cell `at` on, row after row from +0.0.
fn squares(work: &[f64], c: usize, at: usize, rows: usize) -> f64
    requires { (at + rows ≤ c) × (length work.now ≡ 2 * c) }
    ensures { result ≡ squares_to (plane_from work.now c at) rows }
{
    let mut sum = 0.0;
    for r in 0..rows {
        sum = sum + complex::read_plane(work, c, at + r).norm_sqr();
    }
    sum
}

// The norm of each column of the work matrix.
pub fn norms(work: &[f64], rows: usize, side: usize, s: &mut [f64])
    requires { (side * rows ≤ 4096) × (length work.now ≡ 2 * (side * rows)) × (length s.old ≡ side) }
    ensures { s.new ≡ norms_of work.now rows side }
{
    let c = side * rows;
    for j in 0..side {
        s[j] = root_guesses::root_of(squares(work, c, j * rows, rows));
    }
}

// The norm of each column of the work matrix, and whether every root among them came out even.
pub fn norms_marked(work: &[f64], rows: usize, side: usize, s: &mut [f64]) -> bool
    requires { (side * rows ≤ 4096) × (length work.now ≡ 2 * (side * rows)) × (length s.old ≡ side) }
    ensures { (s.new ≡ norms_of work.now rows side) × (result ≡ norms_exact work.now rows side) }
{
    let c = side * rows;
    let mut exact = true;
    for j in 0..side {
        let one = exact_roots::sqrt_marked(squares(work, c, j * rows, rows));
        s[j] = one.root;
        exact &= one.exact;
    }
    exact
}

// The one place that names the least norm whose column is scaled.
#[tactic(auto, unfolding(crate::specs::Columns::norm_clamp_min))]
fn norm_clamp_min() -> f64
    ensures { result ≡ norm_clamp_min }
{
    1e-30
}

// A cell of a column, times the reciprocal of the column's norm; zero where the norm is too small.
#[tactic(auto, unfolding(crate::specs::Columns::unit_length))]
fn unit_length(z: Complex, norm: f64) -> Complex
    ensures { result ≡ unit_length norm z }
{
    if norm > norm_clamp_min() {
        return z.scale(1.0 / norm);
    }
    Complex::new(0.0, 0.0)
}

// A cell of the factor on the work matrix's side: U, or the conjugate as a cell of V† in the wide case.
#[tactic(auto, unfolding(crate::specs::Columns::direction_of))]
fn direction(z: Complex, norm: f64, wide: bool) -> Complex
    ensures { result ≡ direction_of wide norm z }
{
    let x = unit_length(z, norm);
    if wide { x.conj() } else { x }
}

// A cell of the factor on V's side: of V†, or conjugated once more as a cell of U in the wide case.
#[tactic(auto, unfolding(crate::specs::Columns::v_cell))]
fn turn(z: Complex, wide: bool) -> Complex
    ensures { result ≡ v_cell wide z }
{
    let x = z.conj();
    if wide { x.conj() } else { x }
}

// The column of the work matrix that starts at the cell `at` is written to the first cells of `out`.
fn direction_column(
    work: &[f64],
    c: usize,
    at: usize,
    rows: usize,
    norm: f64,
    wide: bool,
    out: &mut [f64],
)
    requires { (at + rows ≤ c) × (length work.now ≡ 2 * c) × (2 * rows ≤ length out.old) }
    ensures { out.new ≡ written rows (λ r. direction_of wide norm (plane_at work.now c (at + r))) out.old }
{
    for r in 0..rows {
        let z = complex::read_plane(work, c, at + r);
        complex::write_cell(out, r, direction(z, norm, wide));
    }
}

// The column of V that starts at the cell `at` is written to the first cells of `out`.
fn turn_column(v: &[f64], c: usize, at: usize, rows: usize, wide: bool, out: &mut [f64])
    requires { (at + rows ≤ c) × (length v.now ≡ 2 * c) × (2 * rows ≤ length out.old) }
    ensures { out.new ≡ written rows (λ r. v_cell wide (plane_at v.now c (at + r))) out.old }
{
    for r in 0..rows {
        let z = complex::read_plane(v, c, at + r);
        complex::write_cell(out, r, turn(z, wide));
    }
}

// All columns of the work matrix in order, each scaled by its value, which is its norm.
pub fn write_directions(
    work: &[f64],
    values: &[f64],
    order: &[f64],
    rows: usize,
    side: usize,
    wide: bool,
    out: &mut [f64],
)
    requires { (side * rows ≤ 4096) × (side ≤ 4096) × (length work.now ≡ 2 * (side * rows)) × (length values.now ≡ side)
        × (length order.now ≡ side) × Places side order.now × (length out.old ≡ 2 * (side * rows)) }
    ensures { out.new ≡ directions_of work.now values.now (places_in order.now) rows side wide }
{
    let c = side * rows;
    for j in 0..side {
        let o = stable_order::read_place(order, j, side);
        let to = 2 * (j * rows);
        direction_column(work, c, o * rows, rows, values[j], wide, &mut out[to..]);
    }
}

// All columns of V in order.
pub fn write_v(v: &[f64], order: &[f64], side: usize, wide: bool, out: &mut [f64])
    requires { (side * side ≤ 4096) × (side ≤ 4096) × (length v.now ≡ 2 * (side * side))
        × (length order.now ≡ side) × Places side order.now × (length out.old ≡ 2 * (side * side)) }
    ensures { out.new ≡ v_columns_of v.now (places_in order.now) side wide }
{
    let c = side * side;
    for j in 0..side {
        let o = stable_order::read_place(order, j, side);
        let to = 2 * (j * side);
        turn_column(v, c, o * side, side, wide, &mut out[to..]);
    }
}

// The values in order.
pub fn write_values(norms: &[f64], order: &[f64], side: usize, s: &mut [f64])
    requires { (side ≤ 4096) × (length norms.now ≡ side) × (length order.now ≡ side) × Places side order.now × (length s.old ≡ side) }
    ensures { s.new ≡ sorted_of norms.now (places_in order.now) side }
{
    for j in 0..side {
        let o = stable_order::read_place(order, j, side);
        s[j] = norms[o];
    }
}
