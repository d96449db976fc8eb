// Modified Gram-Schmidt, as `factorize_gram_schmidt` of src/backend/mps/svd.rs has it. Inner: callers keep the lengths.
// The basis columns of q and the column v that is worked on are held as planes (crates basis and columns).
#![tactic(auto)]

ghost use Rattle.std.specs.Prelude.{◌≡◌, ◌+◌, ◌*◌, ◌<◌, ◌≤◌, length};
ghost use Rattle.complex.specs.Arithmetic.{complex_of};
ghost use Rattle.complex.specs.Cells.{set_cell};
ghost use Rattle.complex.specs.Zeros.{zero_float};
ghost use Rattle.qr_basis.specs.Matrix.{matrix_of};
ghost use Rattle.qr_column.specs.Columns.{norm_of};
ghost use Rattle.qr_column.specs.Woven.{woven};
ghost use Rattle.qr_passes.specs.GramSchmidt.{held, projected, pass_to, passed, passes, new_basis, factors, PassesWorked, judged};

use complex::Complex;

// Passes that a column gets before it is kept or dropped.
const MAX_PASSES: usize = 3;
// A pass that leaves more than this part of the norm before it has cancelled nothing that counts.
const PASS_RETAIN: f64 = 0.5;
// A column of which no more than this part is left adds no direction to q.
const RANK_FLOOR: f64 = 1e-14;

// v loses its part along the basis column i, and cell at of r gains it; about what v's squared norm loses.
fn project(q: &[f64], i: usize, rows: usize, v: &mut [f64], r: &mut [f64], at: usize) -> f64
    requires { (2 * (i * rows + rows) ≤ length q.now) × (length v.old ≡ 2 * rows) × (2 * at + 1 < length r.old) }
    ensures { held (woven rows v.new) r.new ≡ projected (matrix_of rows q.now) (i * rows) rows at (held (woven rows v.old) r.old) }
{
    let d = qr_column::dot(q, i, v, rows);
    qr_column::subtract(v, q, i, rows, d);
    let total = complex::read_cell(r, at).add(d);
    complex::write_cell(r, at, total);
    d.norm_sqr()
}

// One pass of column j over the first rank basis columns; about what is left of the squared norm, where square is about
// what it was. The basis is near orthonormal, so what is taken off tells what is left.
fn pass(
    q: &[f64],
    rank: usize,
    rows: usize,
    cols: usize,
    j: usize,
    square: f64,
    v: &mut [f64],
    r: &mut [f64],
) -> f64
    requires { (2 * (rank * rows) ≤ length q.now) × (2 * (rank * cols) ≤ length r.old) × (length v.old ≡ 2 * rows) × (j < cols) }
    ensures { held (woven rows v.new) r.new ≡ pass_to (matrix_of rows q.now) rows cols j (held (woven rows v.old) r.old) rank }
{
    let mut left = square;
    for i in 0..rank {
        left = left - project(q, i, rows, v, r, i * cols + j);
    }
    left
}

// Passes until one leaves more than half of the norm, three at most; what is left of the norm.
fn orthogonalize(
    q: &[f64],
    rank: usize,
    rows: usize,
    cols: usize,
    j: usize,
    norm: f64,
    v: &mut [f64],
    r: &mut [f64],
) -> f64
    requires { (2 * (rank * rows) ≤ length q.now) × (2 * (rank * cols) ≤ length r.old) × (length v.old ≡ 2 * rows) × (j < cols) }
    ensures { passed (held (woven rows v.new) r.new) result
        ≡ passes (matrix_of rows q.now) rank rows cols j 3 norm (held (woven rows v.old) r.old) }
{
    let mut previous = norm;
    for k in 0..MAX_PASSES {
        let left = pass(q, rank, rows, cols, j, previous * previous, v, r);
        let residual = qr_column::norm_near(v, rows, left);
        if residual > PASS_RETAIN * previous {
            return residual;
        }
        previous = residual;
    }
    previous
}

// The same, where norm is that of v. Where there is no basis column yet a pass leaves v as it is, and its norm is known.
fn residual_of(
    q: &[f64],
    rank: usize,
    rows: usize,
    cols: usize,
    j: usize,
    norm: f64,
    v: &mut [f64],
    r: &mut [f64],
) -> f64
    requires rows_in_bounds { (2 * (rank * rows) ≤ length q.now) × (2 * (rank * cols) ≤ length r.old) × (length v.old ≡ 2 * rows) × (j < cols) }
    requires norm_value { norm ≡ norm_of (woven rows v.old) rows }
    ensures { passed (held (woven rows v.new) r.new) result
        ≡ passes (matrix_of rows q.now) rank rows cols j 3 norm (held (woven rows v.old) r.old) }
{
    if rank == 0 && norm > PASS_RETAIN * norm {
        return norm;
    }
    orthogonalize(q, rank, rows, cols, j, norm, v, r)
}

// v times 1 / residual becomes the basis column i, and the residual goes to cell at of r.
fn keep(v: &[f64], residual: f64, rows: usize, q: &mut [f64], i: usize, r: &mut [f64], at: usize)
    requires { (length v.now ≡ 2 * rows) × (2 * (i * rows + rows) ≤ length q.old) × (2 * at + 1 < length r.old) }
    ensures basis { matrix_of rows q.new ≡ new_basis (woven rows v.now) residual rows (i * rows) (matrix_of rows q.old) }
    ensures entry { r.new ≡ set_cell r.old at (complex_of residual zero_float) }
{
    let inverse = 1.0 / residual;
    qr_column::store_scaled(v, inverse, rows, q, i);
    let entry = Complex {
        re: residual,
        im: 0.0,
    };
    complex::write_cell(r, at, entry);
}

// A column's norm, and what the passes left of it.
#[derive(Clone, Copy)]
pub struct Norms {
    pub whole: f64,
    pub residual: f64,
}

// v becomes column j of a, less its parts along the basis.
pub fn work_column(
    a: &[f64],
    rows: usize,
    cols: usize,
    j: usize,
    q: &[f64],
    rank: usize,
    r: &mut [f64],
    v: &mut [f64],
) -> Norms
    requires { (2 * (j * rows + rows) ≤ length a.now) × (2 * (rank * rows) ≤ length q.now) × (2 * (rank * cols) ≤ length r.old)
        × (length v.old ≡ 2 * rows) × (j < cols) }
    ensures { PassesWorked a.now rows cols j (matrix_of rows q.now) r.old rank result.whole result.residual (woven rows v.new) r.new }
{
    qr_column::load(a, j * rows, rows, v);
    let whole = qr_column::norm(v, rows);
    let residual = residual_of(q, rank, rows, cols, j, whole, v, r);
    Norms { whole, residual }
}

// Column j, worked, is kept where the rank is below the cap and enough of it is left; the rank after it.
pub fn judge(
    v: &[f64],
    norms: Norms,
    rows: usize,
    cols: usize,
    cap: usize,
    j: usize,
    rank: usize,
    q: &mut [f64],
    r: &mut [f64],
) -> usize
    requires { (length v.now ≡ 2 * rows) × (length q.old ≡ 2 * (cap * rows)) × (length r.old ≡ 2 * (cap * cols)) × (j < cols) × (rank ≤ cap) }
    ensures is { factors (matrix_of rows q.new) r.new result
        ≡ judged rows cols cap j norms.whole (matrix_of rows q.old) rank (passed (held (woven rows v.now) r.old) norms.residual) }
    ensures within { result ≤ cap }
{
    if rank < cap && norms.residual > RANK_FLOOR * norms.whole {
        keep(v, norms.residual, rows, q, rank, r, rank * cols + j);
        return rank + 1;
    }
    rank
}
