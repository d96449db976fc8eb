// Columns of complex cells, as modified Gram-Schmidt works on them. Inner: callers keep the lengths.
// The basis columns of q (crate basis) and the column v that is worked on are held as planes, all real
// parts and then all imaginary parts, so that two rows at a time are multiplied and added.
#![tactic(auto)]

ghost use Rattle.std.specs.Prelude.{◌≡◌, ◌+◌, ◌*◌, ◌<◌, ◌≤◌, length};
ghost use Rattle.complex.specs.Cells.{cell_at};
ghost use Rattle.complex.specs.Squares.{squares_to};
ghost use Rattle.qr_column.specs.Dot.{add_first, joined, dot_term, quads_to, tail_to, dot_of};
ghost use Rattle.qr_column.specs.DotParts.{part_of, parts, sums_of};
ghost use Rattle.qr_column.specs.Woven.{woven};
ghost use Rattle.qr_basis.specs.Matrix.{matrix_of};
ghost use Rattle.qr_column.specs.Columns.{column_of, norm_of, lessened, scaled_into};

use complex::Complex;

// The real parts of the four sums of a dot product, or their imaginary parts.
#[derive(Clone, Copy)]
pub struct Parts {
    pub sum0: f64,
    pub sum1: f64,
    pub sum2: f64,
    pub sum3: f64,
}

// The four sums of a dot product.
#[derive(Clone, Copy)]
pub struct Sums {
    pub sum0: Complex,
    pub sum1: Complex,
    pub sum2: Complex,
    pub sum3: Complex,
}

impl Sums {
    pub fn of_parts(re: Parts, im: Parts) -> Sums
        ensures { result ≡ sums_of re im }
    {
        let x = Complex {
            re: re.sum0,
            im: im.sum0,
        };
        let y = Complex {
            re: re.sum1,
            im: im.sum1,
        };
        let z = Complex {
            re: re.sum2,
            im: im.sum2,
        };
        let w = Complex {
            re: re.sum3,
            im: im.sum3,
        };
        Sums {
            sum0: x,
            sum1: y,
            sum2: z,
            sum3: w,
        }
    }

    // A term of the tail goes to the first sum.
    pub fn add_first(self, last: Complex) -> Sums
        ensures { result ≡ add_first self last }
    {
        let y = self.sum1;
        let z = self.sum2;
        let w = self.sum3;
        Sums {
            sum0: self.sum0.add(last),
            sum1: y,
            sum2: z,
            sum3: w,
        }
    }

    pub fn joined(self) -> Complex
        ensures { result ≡ joined self }
    {
        self.sum0.add(self.sum1).add(self.sum2.add(self.sum3))
    }
}

// Row t of the basis column i, conjugated, times row t of v.
pub fn dot_term(q: &[f64], i: usize, v: &[f64], rows: usize, t: usize) -> Complex
    requires { (2 * (i * rows + rows) ≤ length q.now) × (t < rows) × (length v.now ≡ 2 * rows) }
    ensures { result ≡ dot_term (matrix_of rows q.now) (i * rows) (woven rows v.now) t }
{
    qr_basis::read_cell(q, i, rows, t)
        .conj()
        .mul(complex::read_plane(v, rows, t))
}

// The imaginary part of z where IMAGINARY says so, else the real one.
#[tactic(auto, unfolding(crate::specs::DotParts::part_of))]
fn part<const IMAGINARY: bool>(z: Complex) -> f64
    ensures { result ≡ part_of IMAGINARY z }
{
    if IMAGINARY { z.im } else { z.re }
}

// The real parts of the first n quads of rows, or the imaginary ones. Both have a loop each: in one loop the sums are not kept two to a register.
fn quads<const IMAGINARY: bool>(q: &[f64], i: usize, v: &[f64], rows: usize, n: usize) -> Parts
    requires { (2 * (i * rows + rows) ≤ length q.now) × (4 * n ≤ rows) × (length v.now ≡ 2 * rows) }
    ensures { result ≡ parts IMAGINARY (quads_to (matrix_of rows q.now) (i * rows) (woven rows v.now) n) }
{
    let mut sums = Parts {
        sum0: 0.0,
        sum1: 0.0,
        sum2: 0.0,
        sum3: 0.0,
    };
    for k in 0..n {
        let t = 4 * k;
        sums = Parts {
            sum0: sums.sum0 + part::<IMAGINARY>(dot_term(q, i, v, rows, t)),
            sum1: sums.sum1 + part::<IMAGINARY>(dot_term(q, i, v, rows, t + 1)),
            sum2: sums.sum2 + part::<IMAGINARY>(dot_term(q, i, v, rows, t + 2)),
            sum3: sums.sum3 + part::<IMAGINARY>(dot_term(q, i, v, rows, t + 3)),
        };
    }
    sums
}

// The n rows from row s on, past the last whole quad.
pub fn dot_tail(q: &[f64], i: usize, v: &[f64], rows: usize, s: usize, sums: Sums, n: usize) -> Sums
    requires { (2 * (i * rows + rows) ≤ length q.now) × (s + n ≤ rows) × (length v.now ≡ 2 * rows) }
    ensures { result ≡ tail_to (matrix_of rows q.now) (i * rows) (woven rows v.now) s sums n }
{
    let mut all = sums;
    for k in 0..n {
        all = all.add_first(dot_term(q, i, v, rows, s + k));
    }
    all
}

// The dot product of the basis column i with v.
pub fn dot(q: &[f64], i: usize, v: &[f64], rows: usize) -> Complex
    requires { (2 * (i * rows + rows) ≤ length q.now) × (length v.now ≡ 2 * rows) }
    ensures { result ≡ dot_of (matrix_of rows q.now) (i * rows) (woven rows v.now) rows }
{
    let n = rows / 4;
    let done = 4 * n;
    let re = quads::<false>(q, i, v, rows, n);
    let im = quads::<true>(q, i, v, rows, n);
    let whole = Sums::of_parts(re, im);
    let all = dot_tail(q, i, v, rows, done, whole, rows - done);
    all.joined()
}

// The squared moduli of v's rows, added.
fn square(v: &[f64], rows: usize) -> f64
    requires { length v.now ≡ 2 * rows }
    ensures { result ≡ squares_to (cell_at (woven rows v.now)) rows }
{
    let mut total = 0.0;
    for t in 0..rows {
        total = total + complex::read_plane(v, rows, t).norm_sqr();
    }
    total
}

// The root of the sum of the squared moduli of v's rows.
pub fn norm(v: &[f64], rows: usize) -> f64
    requires { length v.now ≡ 2 * rows }
    ensures { result ≡ norm_of (woven rows v.now) rows }
{
    root_guesses::root_of(square(v, rows))
}

// The same, where the sum is near a guess: what the root needs of the guess is worked out before the sum is known.
pub fn norm_near(v: &[f64], rows: usize, guess: f64) -> f64
    requires { length v.now ≡ 2 * rows }
    ensures { result ≡ norm_of (woven rows v.now) rows }
{
    let over = root_guesses::reciprocal_near(guess);
    let near = guess * over;
    let total = square(v, rows);
    root_guesses::root_near(total, root_guesses::sharpened(total, near, over))
}

// v becomes the column of a that starts at cell o.
pub fn load(a: &[f64], o: usize, rows: usize, v: &mut [f64])
    requires { (2 * (o + rows) ≤ length a.now) × (length v.old ≡ 2 * rows) }
    ensures { woven rows v.new ≡ column_of a.now o rows }
{
    for t in 0..rows {
        complex::write_plane(v, rows, t, complex::read_cell(a, o + t));
    }
}

// v loses d times the basis column i.
pub fn subtract(v: &mut [f64], q: &[f64], i: usize, rows: usize, d: Complex)
    requires { (2 * (i * rows + rows) ≤ length q.now) × (length v.old ≡ 2 * rows) }
    ensures { woven rows v.new ≡ lessened (woven rows v.old) (matrix_of rows q.now) (i * rows) rows d }
{
    for t in 0..rows {
        let x = complex::read_plane(v, rows, t);
        let part = d.mul(qr_basis::read_cell(q, i, rows, t));
        complex::write_plane(v, rows, t, x.sub(part));
    }
}

// The basis column i becomes v times the real number k.
pub fn store_scaled(v: &[f64], k: f64, rows: usize, q: &mut [f64], i: usize)
    requires { (2 * (i * rows + rows) ≤ length q.old) × (length v.now ≡ 2 * rows) }
    ensures { matrix_of rows q.new ≡ scaled_into (woven rows v.now) k (matrix_of rows q.old) (i * rows) rows }
{
    for t in 0..rows {
        qr_basis::write_cell(q, i, rows, t, complex::read_plane(v, rows, t).scale(k));
    }
}
