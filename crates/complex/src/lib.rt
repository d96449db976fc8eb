// Complex numbers by value, and cells of two adjacent f64 in a slice, real part first.
#![tactic(auto)]

ghost use Rattle.std.specs.Prelude.{◌≡◌, ◌+◌, ◌*◌, ◌<◌, ◌≤◌, length};
ghost use Rattle.complex.specs.Arithmetic.{complex_of, product, sum_of, difference, negation, conjugate, scaled, times_real, quotient, norm_sqr};
ghost use Rattle.complex.specs.Cells.{cell_at, set_cell};
ghost use Rattle.complex.specs.Planes.{plane_at, set_plane};
ghost use Rattle.complex.specs.Zeros.{zeroed};

#[derive(Clone, Copy)]
pub struct Complex {
    pub re: f64,
    pub im: f64,
}

impl Complex {
    pub fn new(re: f64, im: f64) -> Complex
        ensures { result ≡ complex_of re im }
    {
        Complex { re, im }
    }

    pub fn mul(self, o: Complex) -> Complex
        ensures { result ≡ product self o }
    {
        Complex {
            re: self.re * o.re - self.im * o.im,
            im: self.re * o.im + self.im * o.re,
        }
    }

    pub fn add(self, o: Complex) -> Complex
        ensures { result ≡ sum_of self o }
    {
        Complex {
            re: self.re + o.re,
            im: self.im + o.im,
        }
    }

    pub fn sub(self, o: Complex) -> Complex
        ensures { result ≡ difference self o }
    {
        Complex {
            re: self.re - o.re,
            im: self.im - o.im,
        }
    }

    pub fn neg(self) -> Complex
        ensures { result ≡ negation self }
    {
        Complex {
            re: -self.re,
            im: -self.im,
        }
    }

    pub fn conj(self) -> Complex
        ensures { result ≡ conjugate self }
    {
        Complex {
            re: self.re,
            im: -self.im,
        }
    }

    // By a real number: each part.
    pub fn scale(self, k: f64) -> Complex
        ensures { result ≡ scaled self k }
    {
        Complex {
            re: self.re * k,
            im: self.im * k,
        }
    }

    // A real number times it, the real number first, as in the eigenvalue sweep.
    pub fn real_times(self, k: f64) -> Complex
        ensures { result ≡ times_real k self }
    {
        Complex {
            re: k * self.re,
            im: k * self.im,
        }
    }

    // self + a * conj(b). Both parts are the same sum of two products, so that the back end takes them at once.
    pub fn add_term(self, a: Complex, b: Complex) -> Complex
        ensures { result ≡ sum_of self (product a (conjugate b)) }
    {
        let back = -a.re;
        Complex {
            re: self.re + (a.re * b.re + a.im * b.im),
            im: self.im + (a.im * b.re + back * b.im),
        }
    }

    // Divided by a real number: each part.
    pub fn div_real(self, k: f64) -> Complex
        ensures { result ≡ quotient self k }
    {
        Complex {
            re: self.re / k,
            im: self.im / k,
        }
    }

    pub fn norm_sqr(self) -> f64
        ensures { result ≡ norm_sqr self }
    {
        self.re * self.re + self.im * self.im
    }
}

// Inner: the cell x of s.
pub fn read_cell(s: &[f64], x: usize) -> Complex
    requires { 2 * x + 1 < length s.now }
    ensures { result ≡ cell_at s.now x }
{
    let at = 2 * x;
    let next = at + 1;
    Complex {
        re: s[at],
        im: s[next],
    }
}

// Inner: the cell x of s becomes z.
pub fn write_cell(s: &mut [f64], x: usize, z: Complex)
    requires { 2 * x + 1 < length s.old }
    ensures { s.new ≡ set_cell s.old x z }
{
    let at = 2 * x;
    let next = at + 1;
    s[at] = z.re;
    s[next] = z.im;
}

// Inner: the cell i of a matrix of c cells whose planes are s.
#[tactic(auto, unfolding(crate::specs::Planes::plane_at))]
pub fn read_plane(s: &[f64], c: usize, i: usize) -> Complex
    requires { (i < c) × (c + i < length s.now) }
    ensures { result ≡ plane_at s.now c i }
{
    let next = c + i;
    Complex {
        re: s[i],
        im: s[next],
    }
}

// Inner: the cell i of a matrix of c cells whose planes are s becomes z.
#[tactic(auto, unfolding(crate::specs::Planes::set_plane))]
pub fn write_plane(s: &mut [f64], c: usize, i: usize, z: Complex)
    requires { (i < c) × (c + i < length s.old) }
    ensures { s.new ≡ set_plane s.old c i z }
{
    let next = c + i;
    s[i] = z.re;
    s[next] = z.im;
}

// Inner: the first m numbers of s become +0.0.
pub fn zero_first(s: &mut [f64], m: usize)
    requires { m ≤ length s.old }
    ensures { s.new ≡ zeroed m s.old }
{
    s[..m].fill(0.0);
}
