// The columns of a matrix one after the other, and the factors that they leave. Inner: callers keep the lengths.
// While it is built q holds its columns as planes (crate basis); at the end they are laid out as cells.
#![tactic(auto)]

ghost use Rattle.std.specs.Prelude.{◌≡◌, ◌*◌, ◌<◌, ◌≤◌, min, max, length};
ghost use Rattle.complex.specs.Zeros.{zeros};
ghost use Rattle.qr_basis.specs.Matrix.{matrix_of};
ghost use Rattle.qr_passes.specs.Room.{QrRoom};
ghost use Rattle.qr_passes.specs.GramSchmidt.{factors, add_column, qr_columns_to, basis_for, qr_factors};

use complex::Complex;

// Column j of a, and the rank after it. q has room for cap columns and r for cap rows.
fn add_column(
    a: &[f64],
    rows: usize,
    cols: usize,
    cap: usize,
    j: usize,
    rank: usize,
    q: &mut [f64],
    r: &mut [f64],
    v: &mut [f64],
) -> usize
    requires qr_room { QrRoom rows cols cap (length a.now) (length q.old) (length r.old) (length v.old) }
    requires j_lt_cols { (j < cols) × (rank ≤ cap) }
    ensures is { factors (matrix_of rows q.new) r.new result
        ≡ add_column a.now rows cols cap j (factors (matrix_of rows q.old) r.old rank) }
    ensures within { result ≤ cap }
{
    let norms = qr_passes::work_column(a, rows, cols, j, q, rank, r, v);
    qr_passes::judge(v, norms, rows, cols, cap, j, rank, q, r)
}

// All columns of a, and their rank.
fn add_columns(
    a: &[f64],
    rows: usize,
    cols: usize,
    cap: usize,
    q: &mut [f64],
    r: &mut [f64],
    v: &mut [f64],
) -> usize
    requires { QrRoom rows cols cap (length a.now) (length q.old) (length r.old) (length v.old) }
    ensures { factors (matrix_of rows q.new) r.new result
        ≡ qr_columns_to a.now rows cols cap (factors (matrix_of rows q.old) r.old 0) cols }
{
    let mut rank = 0;
    for j in 0..cols {
        rank = add_column(a, rows, cols, cap, j, rank, q, r, v);
    }
    rank
}

// A matrix with no direction to keep gets the first basis vector, which leaves q an isometry and r zero.
fn with_basis(q: &mut [f64], rank: usize) -> usize
    requires { 1 < length q.old }
    ensures { (q.new ≡ basis_for rank q.old) × (result ≡ max 1 rank) }
{
    if rank == 0 {
        complex::write_cell(q, 0, Complex::new(1.0, 0.0));
        return 1;
    }
    rank
}

// The columns of a from q and r that are +0.0, and their rank. q is left as planes.
fn build(
    a: &[f64],
    rows: usize,
    cols: usize,
    cap: usize,
    q: &mut [f64],
    r: &mut [f64],
    v: &mut [f64],
) -> usize
    requires { QrRoom rows cols cap (length a.now) (length q.old) (length r.old) (length v.old) }
    ensures { factors (matrix_of rows q.new) r.new result
        ≡ qr_columns_to a.now rows cols cap (factors (zeros (2 * (cap * rows))) (zeros (2 * (cap * cols))) 0) cols }
{
    complex::zero_first(q, q.len());
    complex::zero_first(r, r.len());
    add_columns(a, rows, cols, cap, q, r, v)
}

// The factors of a on slices of the needed lengths, and the rank. What the rank leaves of q and r is +0.0.
pub fn factor(
    a: &[f64],
    rows: usize,
    cols: usize,
    q: &mut [f64],
    r: &mut [f64],
    v: &mut [f64],
) -> usize
    requires qr_room { QrRoom rows cols (min rows cols) (length a.now) (length q.old) (length r.old) (length v.old) }
    requires in_bounds { 1 < length q.old }
    ensures { factors q.new r.new result ≡ qr_factors a.now rows cols }
{
    let cap = rows.min(cols);
    let rank = build(a, rows, cols, cap, q, r, v);
    qr_layout::lay_out(q, rows, cap, v);
    with_basis(q, rank)
}
