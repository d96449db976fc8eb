// Inner: the basis q of QR while it is built. Each of its columns is held as planes, all real parts and then all
// imaginary parts, one column after the other; a contract names the list of cells that this stands for.
#![tactic(auto)]

ghost use Rattle.std.specs.Prelude.{◌≡◌, ◌+◌, ◌*◌, ◌<◌, ◌≤◌, length};
ghost use Rattle.complex.specs.Cells.{cell_at, set_cell};
ghost use Rattle.qr_basis.specs.Matrix.{matrix_of};

use complex::Complex;

// Row t of the column i.
pub fn read_cell(q: &[f64], i: usize, rows: usize, t: usize) -> Complex
    requires { (2 * (i * rows + rows) ≤ length q.now) × (t < rows) }
    ensures { result ≡ cell_at (matrix_of rows q.now) (i * rows + t) }
{
    let at = 2 * (i * rows) + t;
    let next = rows + at;
    Complex {
        re: q[at],
        im: q[next],
    }
}

// Row t of the column i becomes z.
pub fn write_cell(q: &mut [f64], i: usize, rows: usize, t: usize, z: Complex)
    requires { (2 * (i * rows + rows) ≤ length q.old) × (t < rows) }
    ensures { matrix_of rows q.new ≡ set_cell (matrix_of rows q.old) (i * rows + t) z }
{
    let at = 2 * (i * rows) + t;
    let next = rows + at;
    q[at] = z.re;
    q[next] = z.im;
}
