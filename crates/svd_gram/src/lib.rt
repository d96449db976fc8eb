// Inner: the Gram sums of a pair of columns of a matrix that is lent as planes.
#![tactic(auto)]

ghost use Rattle.std.specs.Prelude.{◌≡◌, ◌+◌, ◌*◌, ◌<◌, ◌≤◌, length};
ghost use Rattle.svd_gram.specs.Gram.{no_sums, one_row, gram_to};
ghost use Rattle.svd_gram.specs.Terms.{Terms, added_to};

use complex::Complex;

#[derive(Clone, Copy)]
pub struct GramSums {
    pub pp: f64,
    pub qq: f64,
    pub pq: Complex,
}

// No row yet: +0.0 everywhere.
#[tactic(auto, unfolding(crate::specs::Gram::no_sums))]
fn no_sums() -> GramSums
    ensures { result ≡ no_sums }
{
    GramSums {
        pp: 0.0,
        qq: 0.0,
        pq: Complex { re: 0.0, im: 0.0 },
    }
}

// One row more, with the cells ap and aq.
#[tactic(auto, unfolding(crate::specs::Gram::one_row))]
fn one_row(g: GramSums, ap: Complex, aq: Complex) -> GramSums
    ensures { result ≡ one_row g ap aq }
{
    GramSums {
        pp: g.pp + ap.norm_sqr(),
        qq: g.qq + aq.norm_sqr(),
        pq: g.pq.add(ap.conj().mul(aq)),
    }
}

// The Gram sums of the columns that start at the cells a and b, of m rows, in a matrix of c cells, row by row.
fn gram_rows(xs: &[f64], c: usize, a: usize, b: usize, m: usize) -> GramSums
    requires { (length xs.now ≡ 2 * c) × (a + m ≤ c) × (b + m ≤ c) }
    ensures { result ≡ gram_to xs.now c a b m }
{
    let mut g = no_sums();
    for r in 0..m {
        g = one_row(
            g,
            complex::read_plane(xs, c, a + r),
            complex::read_plane(xs, c, b + r),
        );
    }
    g
}

// The terms of w rows of both columns. In a loop of their own two rows are multiplied at a time.
fn fill_terms(xs: &[f64], c: usize, a: usize, b: usize, w: usize, terms: &mut [f64])
    requires { (length xs.now ≡ 2 * c) × (a + w ≤ c) × (b + w ≤ c) × (w ≤ 32) × (length terms.old ≡ 128) }
    ensures { Terms xs.now c a b w terms.new }
{
    for j in 0..w {
        let ap = complex::read_plane(xs, c, a + j);
        let aq = complex::read_plane(xs, c, b + j);
        let mixed = ap.conj().mul(aq);
        terms[j] = ap.norm_sqr();
        terms[32 + j] = aq.norm_sqr();
        terms[64 + j] = mixed.re;
        terms[96 + j] = mixed.im;
    }
}

// The sums with the terms of w rows more, in order.
fn add_terms(g: GramSums, terms: &[f64], w: usize) -> GramSums
    requires { (w ≤ 32) × (length terms.now ≡ 128) }
    ensures { result ≡ added_to g terms.now w }
{
    let mut sums = g;
    for j in 0..w {
        let mixed = Complex {
            re: terms[64 + j],
            im: terms[96 + j],
        };
        sums = GramSums {
            pp: sums.pp + terms[j],
            qq: sums.qq + terms[32 + j],
            pq: sums.pq.add(mixed),
        };
    }
    sums
}

// The Gram sums block by block.
fn gram_blocks(xs: &[f64], c: usize, a: usize, b: usize, m: usize) -> GramSums
    requires { (length xs.now ≡ 2 * c) × (a + m ≤ c) × (b + m ≤ c) }
    ensures { result ≡ gram_to xs.now c a b m }
{
    let mut terms = [0.0f64; 128];
    let mut g = no_sums();
    for k in 0..m.div_ceil(32) {
        let r = 32 * k;
        let w = (m - r).min(32);
        fill_terms(xs, c, a + r, b + r, w, &mut terms);
        g = add_terms(g, &terms, w);
    }
    g
}

// The Gram sums of the columns that start at the cells a and b, of m rows, in a matrix of c cells. Blocks pay for their terms'
// array in long columns only.
pub fn gram_of(xs: &[f64], c: usize, a: usize, b: usize, m: usize) -> GramSums
    requires { (length xs.now ≡ 2 * c) × (a + m ≤ c) × (b + m ≤ c) }
    ensures { result ≡ gram_to xs.now c a b m }
{
    if m < 128 {
        return gram_rows(xs, c, a, b, m);
    }
    gram_blocks(xs, c, a, b, m)
}
