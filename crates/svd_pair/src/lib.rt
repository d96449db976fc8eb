// Inner: what the Jacobi sweeps do with one pair of columns of a matrix that is lent as planes: the
// decision by its Gram sums, and the turn.
#![tactic(auto)]

ghost use Rattle.std.specs.Prelude.{◌≡◌, ◌+◌, ◌*◌, ◌<◌, ◌≤◌, length};
ghost use Rattle.complex.specs.Arithmetic.{scaled};
ghost use Rattle.complex.specs.Planes.{set_plane};
ghost use Rattle.complex.specs.Zeros.{zero_float};
ghost use Rattle.svd_pair.specs.Decisions.{decision_of, tangent_of, turn_at};
ghost use Rattle.svd_pair.specs.Turns.{turn_factors, new_p, new_q, turn_row, turn_rows};
ghost use Rattle.svd_pair.specs.Plain.{plain_p, plain_q, making};
ghost use Rattle.svd_pair.specs.ZeroProducts.{RealTurn};

use complex::Complex;
use root_guesses::Guesses;
use svd_gram::GramSums;

const JACOBI_REL_TOL: f64 = 1e-15;

// ---- the decision

// How a pair of columns is turned. A decision is a turn, or none: the pair is left as it is.
#[derive(Clone, Copy)]
pub struct Turn {
    pub cosine: f64,
    pub sine: f64,
    pub phase: Complex,
}

// The tangent of the angle: the one of smaller magnitude.
fn tangent(tau: f64, near: Guesses) -> f64
    ensures { result ≡ tangent_of tau }
{
    let x = 1.0 + tau * tau;
    let root = root_guesses::root_near(x, root_guesses::sharpened(x, near.root, near.root_over));
    // no processor foretells the sign of tau, so it picks two numbers and no way: the first `if` is
    // compiled to a maximum, the second to an index
    let size = if tau < 0.0 { -tau } else { tau };
    let one = if tau >= 0.0 { -1.0 } else { 1.0 };
    one / (size + root)
}

// The turn by the tangent t, for the mixed sum pq of modulus beta.
#[tactic(auto, unfolding(crate::specs::Decisions::turn_at))]
pub fn turn_at(pq: Complex, beta: f64, t: f64, near: Guesses) -> Turn
    ensures { result ≡ turn_at pq beta t }
{
    let x = 1.0 + t * t;
    let cosine = 1.0
        / root_guesses::root_near(x, root_guesses::sharpened(x, near.secant, near.cosine));
    Turn {
        cosine,
        sine: t * cosine,
        phase: pq.div_real(beta),
    }
}

// The decision on a pair with these Gram sums.
#[tactic(auto, unfolding(crate::specs::Decisions::decision_of))]
pub fn decide(g: GramSums) -> Option<Turn>
    ensures { result ≡ decision_of g }
{
    let off = g.pq.norm_sqr();
    if off <= JACOBI_REL_TOL * JACOBI_REL_TOL * g.pp * g.qq {
        return None;
    }
    let near = root_guesses::guess_roots(g.qq - g.pp, off);
    let beta = modulus::modulus_near(g.pq, near.modulus);
    let tau = (g.qq - g.pp) / (2.0 * beta);
    Some(turn_at(g.pq, beta, tangent(tau, near), near))
}

// ---- the turn of two columns

// The factors of a turn: the new p is pp times the old p and pq times the old q, the new q alike.
#[derive(Clone, Copy)]
pub struct Factors {
    pub pp: Complex,
    pub pq: Complex,
    pub qp: Complex,
    pub qq: Complex,
}

impl Factors {
    // The cosine and the sine are complex numbers with imaginary part +0.0: signs of zeros hang on it.
    #[tactic(auto, unfolding(crate::specs::Turns::turn_factors))]
    pub fn new(cosine: f64, sine: f64, phase: Complex) -> Factors
        ensures { result ≡ turn_factors cosine sine phase }
    {
        let c = Complex {
            re: cosine,
            im: 0.0,
        };
        let s = Complex { re: sine, im: 0.0 };
        let back = phase.conj();
        Factors {
            pp: c,
            pq: s.mul(back),
            qp: s.neg(),
            qq: c.mul(back),
        }
    }

    // The cosine is real but for its +0.0, so z, the old p times +0.0, is what is left of the product with it.
    pub fn new_p(self, ap: Complex, z: Complex, aq: Complex) -> Complex
        requires { RealTurn self × (z ≡ scaled ap zero_float) }
        ensures { result ≡ new_p self ap aq }
    {
        let turned = Complex {
            re: self.pp.re * ap.re - z.im,
            im: self.pp.re * ap.im + z.re,
        };
        turned.add(self.pq.mul(aq))
    }

    // The negated sine has -0.0: the same z with the other sign.
    pub fn new_q(self, ap: Complex, z: Complex, aq: Complex) -> Complex
        requires { RealTurn self × (z ≡ scaled ap zero_float) }
        ensures { result ≡ new_q self ap aq }
    {
        let turned = Complex {
            re: self.qp.re * ap.re + z.im,
            im: self.qp.re * ap.im - z.re,
        };
        turned.add(self.qq.mul(aq))
    }

    // Both without the products by zeros.
    #[tactic(auto, unfolding(crate::specs::Plain::plain_p))]
    fn plain_p(self, ap: Complex, aq: Complex) -> Complex
        ensures { result ≡ plain_p self ap aq }
    {
        let turned = ap.real_times(self.pp.re);
        turned.add(self.pq.mul(aq))
    }

    #[tactic(auto, unfolding(crate::specs::Plain::plain_q))]
    fn plain_q(self, ap: Complex, aq: Complex) -> Complex
        ensures { result ≡ plain_q self ap aq }
    {
        let turned = ap.real_times(self.qp.re);
        turned.add(self.qq.mul(aq))
    }

    // Plainly where PLAIN says so.
    #[tactic(auto, using(crate::proofs::Asked::asked, crate::proofs::Asked::unasked), unfolding(crate::specs::Plain::making))]
    fn made_p<const PLAIN: bool>(self, ap: Complex, z: Complex, aq: Complex) -> Complex
        requires { RealTurn self × (z ≡ scaled ap zero_float) }
        ensures { result ≡ (making PLAIN).p self ap aq }
    {
        if PLAIN {
            self.plain_p(ap, aq)
        } else {
            self.new_p(ap, z, aq)
        }
    }

    #[tactic(auto, using(crate::proofs::Asked::asked, crate::proofs::Asked::unasked), unfolding(crate::specs::Plain::making))]
    fn made_q<const PLAIN: bool>(self, ap: Complex, z: Complex, aq: Complex) -> Complex
        requires { RealTurn self × (z ≡ scaled ap zero_float) }
        ensures { result ≡ (making PLAIN).q self ap aq }
    {
        if PLAIN {
            self.plain_q(ap, aq)
        } else {
            self.new_q(ap, z, aq)
        }
    }
}

// The cells i and j of a matrix of c cells are turned, both from their old values.
#[tactic(auto, unfolding(crate::specs::Turns::turn_row))]
fn turn_row<const PLAIN: bool>(xs: &mut [f64], c: usize, i: usize, j: usize, f: Factors)
    requires { (length xs.old ≡ 2 * c) × (i < c) × (j < c) × RealTurn f }
    ensures { xs.new ≡ turn_row (making PLAIN) f c i j xs.old }
{
    let ap = complex::read_plane(xs, c, i);
    let aq = complex::read_plane(xs, c, j);
    let z = ap.scale(0.0);
    complex::write_plane(xs, c, i, f.made_p::<PLAIN>(ap, z, aq));
    complex::write_plane(xs, c, j, f.made_q::<PLAIN>(ap, z, aq));
}

// The cells i and i + 1 of a matrix of c cells become u and w. The parts of one kind stand side by side and are stored together.
fn write_two(xs: &mut [f64], c: usize, i: usize, u: Complex, w: Complex)
    requires { (length xs.old ≡ 2 * c) × (i + 1 < c) }
    ensures { xs.new ≡ set_plane (set_plane xs.old c i u) c (i + 1) w }
{
    let next = i + 1;
    let imaginary = c + i;
    let last = c + i + 1;
    xs[i] = u.re;
    xs[next] = w.re;
    xs[imaginary] = u.im;
    xs[last] = w.im;
}

// Two rows of two columns, the cells i and j and those behind them: all are read before any is written, so that two rows are turned at a time.
fn turn_two<const PLAIN: bool>(xs: &mut [f64], c: usize, i: usize, j: usize, f: Factors)
    requires { (length xs.old ≡ 2 * c) × (i + 1 < j) × (j + 1 < c) × RealTurn f }
    ensures { xs.new ≡ turn_row (making PLAIN) f c (i + 1) (j + 1) (turn_row (making PLAIN) f c i j xs.old) }
{
    let ap = complex::read_plane(xs, c, i);
    let aq = complex::read_plane(xs, c, j);
    let bp = complex::read_plane(xs, c, i + 1);
    let bq = complex::read_plane(xs, c, j + 1);
    let az = ap.scale(0.0);
    let bz = bp.scale(0.0);
    write_two(
        xs,
        c,
        i,
        f.made_p::<PLAIN>(ap, az, aq),
        f.made_p::<PLAIN>(bp, bz, bq),
    );
    write_two(
        xs,
        c,
        j,
        f.made_q::<PLAIN>(ap, az, aq),
        f.made_q::<PLAIN>(bp, bz, bq),
    );
}

// The columns that start at the cells a and b, of m rows, are turned. Whether plainly is a constant, and so no test in the loop.
// A `while`: a `for` over half of the rows is compiled for four rows at once, which takes every call that sweeps some 350 bytes of stack more,
// over the 5 KB that docs/CONVENTIONS.md has, and no less time.
fn turn_all<const PLAIN: bool>(xs: &mut [f64], c: usize, a: usize, b: usize, m: usize, f: Factors)
    requires { (length xs.old ≡ 2 * c) × (a + m ≤ b) × (b + m ≤ c) × RealTurn f }
    ensures { xs.new ≡ turn_rows (making PLAIN) f c a b m xs.old }
{
    let mut r = 0;
    while r + 1 < m {
        turn_two::<PLAIN>(xs, c, a + r, b + r, f);
        r += 2;
    }
    if r < m {
        turn_row::<PLAIN>(xs, c, a + r, b + r, f);
    }
}

// What the turn by this cosine, sine and phase does to two columns of m rows, either way. The numbers are handed on in registers: in memory, as a
// decision, they would be waited for.
pub fn turn_columns(
    xs: &mut [f64],
    c: usize,
    a: usize,
    b: usize,
    m: usize,
    cosine: f64,
    sine: f64,
    phase: Complex,
    plainly: bool,
)
    requires { (length xs.old ≡ 2 * c) × (a + m ≤ b) × (b + m ≤ c) }
    ensures { xs.new ≡ turn_rows (making plainly) (turn_factors cosine sine phase) c a b m xs.old }
{
    let f = Factors::new(cosine, sine, phase);
    if plainly {
        turn_all::<true>(xs, c, a, b, m, f);
    } else {
        turn_all::<false>(xs, c, a, b, m, f);
    }
}
