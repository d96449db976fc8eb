// Inner: what the sweeps of the SVD start from, in planes: the matrix, or its conjugate transpose where
// it is wider than tall, and the unit matrix.
#![tactic(auto)]

ghost use Rattle.std.specs.Prelude.{◌≡◌, ◌*◌, ◌<◌, ◌≤◌, length};
ghost use Rattle.complex.specs.Cells.{cell_at};
ghost use Rattle.svd_load.specs.Loading.{planes_of, planes_to, conjugate_transposed, unit_planes};

// The matrix itself, as planes.
pub fn load_tall(a: &[f64], c: usize, work: &mut [f64])
    requires { (length a.now ≡ 2 * c) × (length work.old ≡ 2 * c) }
    ensures { work.new ≡ planes_of c (cell_at a.now) }
{
    for i in 0..c {
        complex::write_plane(work, c, i, complex::read_cell(a, i));
    }
}

// One column of the conjugate transpose: the row `col` of the m by n matrix a.
fn load_row(a: &[f64], m: usize, n: usize, col: usize, work: &mut [f64])
    requires { (col < m) × (m * n ≤ 4096) × (length a.now ≡ 2 * (m * n)) × (length work.old ≡ 2 * (m * n)) }
    ensures { work.new ≡ planes_to (m * n) (conjugate_transposed a.now m n) (col * n) n work.old }
{
    let c = m * n;
    let to = col * n;
    for r in 0..n {
        let z = complex::read_cell(a, r * m + col);
        complex::write_plane(work, c, to + r, z.conj());
    }
}

// The conjugate transpose of the m by n matrix a, as planes.
pub fn load_wide(a: &[f64], m: usize, n: usize, work: &mut [f64])
    requires { (m * n ≤ 4096) × (length a.now ≡ 2 * (m * n)) × (length work.old ≡ 2 * (m * n)) }
    ensures { work.new ≡ planes_of (m * n) (conjugate_transposed a.now m n) }
{
    for col in 0..m {
        load_row(a, m, n, col, work);
    }
}

// The unit matrix of n columns, as planes.
pub fn unit(v: &mut [f64], n: usize)
    requires { length v.old ≡ 2 * (n * n) }
    ensures { v.new ≡ unit_planes n }
{
    complex::zero_first(v, v.len());
    for k in 0..n {
        let at = k * n + k;
        v[at] = 1.0;
    }
}
