// Inner: the columns of the basis q, held as planes, are laid out as cells in their place, each through the column v.
#![tactic(auto)]

ghost use Rattle.std.specs.Prelude.{◌≡◌, ◌+◌, ◌*◌, ◌≤◌, length};
ghost use Rattle.qr_basis.specs.Matrix.{matrix_of};
ghost use Rattle.qr_column.specs.Columns.{column_of};
ghost use Rattle.qr_column.specs.Woven.{woven};
ghost use Rattle.qr_layout.specs.Laying.{placed_into};

// v becomes the column i of q, both as planes.
fn copy_column(q: &[f64], i: usize, rows: usize, v: &mut [f64])
    requires { (2 * (i * rows + rows) ≤ length q.now) × (length v.old ≡ 2 * rows) }
    ensures { woven rows v.new ≡ column_of (matrix_of rows q.now) (i * rows) rows }
{
    for t in 0..rows {
        complex::write_plane(v, rows, t, qr_basis::read_cell(q, i, rows, t));
    }
}

// The cells of q from o on become the rows of v.
fn place_column(v: &[f64], rows: usize, q: &mut [f64], o: usize)
    requires { (2 * (o + rows) ≤ length q.old) × (length v.now ≡ 2 * rows) }
    ensures { q.new ≡ placed_into (woven rows v.now) q.old o rows }
{
    for t in 0..rows {
        complex::write_cell(q, o + t, complex::read_plane(v, rows, t));
    }
}

// The cap columns of q are laid out as cells.
pub fn lay_out(q: &mut [f64], rows: usize, cap: usize, v: &mut [f64])
    requires { (length q.old ≡ 2 * (cap * rows)) × (length v.old ≡ 2 * rows) }
    ensures { q.new ≡ matrix_of rows q.old }
{
    for i in 0..cap {
        copy_column(q, i, rows, v);
        place_column(v, rows, q, i * rows);
    }
}
