// Inner: an entry of A less that of U·S·V†, exactly, in whole numbers of 2^-54. The numbers of U, S and V† are read from us,
// ss and vs, where they stand.
#![tactic(auto)]

ghost use Rattle.std.specs.Prelude.{◌≡◌, ◌+◌, ◌*◌, ◌^◌, ◌<◌, ◌≤◌, length};
ghost use Rattle.countersign_sums.specs.Integers.{Alike};
ghost use Rattle.countersign_products.specs.Products.{Factors, Read, term, terms_of, product_gap, product_fits};

use countersign_cells::cell_at;
use countersign_shifted::{cell_of, scaled_cell};
use countersign_sums::{Gaussian, Whole};

// What value t adds to row i and column j of the product.
fn one_term(
    u: &[f64],
    us: &[u32],
    s: &[f64],
    ss: &[u32],
    vt: &[f64],
    vs: &[u32],
    m: usize,
    n: usize,
    i: usize,
    j: usize,
    t: usize,
) -> Gaussian
    requires read { Read u.now us.now s.now ss.now vt.now vs.now }
    requires i_in_bounds { (2 * (t * m + i) + 1 < length u.now) × (t < length s.now) × (2 * (t * n + j) + 1 < length vt.now) }
    ensures { Alike result (term u.now s.now vt.now m n i j t) (9 * 2 ^ 56) }
{
    let left = scaled_cell(u, us, s, ss, t * m + i, t);
    left.times(cell_of(vt, vs, t * n + j))
}

// The entry of the product at row i and column j.
fn entry(
    u: &[f64],
    us: &[u32],
    s: &[f64],
    ss: &[u32],
    vt: &[f64],
    vs: &[u32],
    m: usize,
    n: usize,
    k: usize,
    i: usize,
    j: usize,
) -> Gaussian
    requires read { Read u.now us.now s.now ss.now vt.now vs.now }
    requires factors { Factors m n k (length u.now) (length s.now) (length vt.now) × (i < m) × (j < n) }
    ensures { Alike result (terms_of u.now s.now vt.now m n i j k) (9 * 2 ^ 60) }
{
    let mut sum = Gaussian {
        re: Whole { over: 0, under: 0 },
        im: Whole { over: 0, under: 0 },
    };
    for t in 0..k {
        sum = sum.plus(one_term(u, us, s, ss, vt, vs, m, n, i, j, t));
    }
    sum
}

// Cell c of A less the product's.
fn gap(
    a: &[f64],
    u: &[f64],
    us: &[u32],
    s: &[f64],
    ss: &[u32],
    vt: &[f64],
    vs: &[u32],
    m: usize,
    n: usize,
    k: usize,
    c: usize,
) -> Gaussian
    requires read { Read u.now us.now s.now ss.now vt.now vs.now }
    requires factors { Factors m n k (length u.now) (length s.now) (length vt.now) × (length a.now ≡ 2 * (m * n)) × (c < m * n) }
    ensures { Alike result (product_gap a.now u.now s.now vt.now m n k c) (10 * 2 ^ 60) }
{
    let sum = entry(u, us, s, ss, vt, vs, m, n, k, c % m, c / m);
    let one = Whole {
        over: 0x10_0000_0000,
        under: 0,
    };
    cell_at(a, c).by(one).minus(sum)
}

// Whether each part of it is within the tolerance.
pub fn fits(
    a: &[f64],
    u: &[f64],
    us: &[u32],
    s: &[f64],
    ss: &[u32],
    vt: &[f64],
    vs: &[u32],
    m: usize,
    n: usize,
    k: usize,
    tolerance: u64,
    c: usize,
) -> bool
    requires read { Read u.now us.now s.now ss.now vt.now vs.now }
    requires factors { Factors m n k (length u.now) (length s.now) (length vt.now) × (length a.now ≡ 2 * (m * n)) × (c < m * n) }
    ensures { result ≡ product_fits a.now u.now s.now vt.now m n k tolerance c }
{
    gap(a, u, us, s, ss, vt, vs, m, n, k, c).within(tolerance)
}
