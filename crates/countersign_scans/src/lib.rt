// Inner: the first failing cell of each test, where one fails.
#![tactic(auto)]

ghost use Rattle.std.specs.Prelude.{◌≡◌, ◌*◌, ◌<◌, ◌≤◌, length};
ghost use Rattle.countersign_shifted.specs.Shifted.{Shifted};
ghost use Rattle.countersign_products.specs.Products.{Factors, Read, product_fits};
ghost use Rattle.countersign_grams.specs.Grams.{gram_fits};
ghost use Rattle.countersign_scans.specs.Scans.{FirstFail, value_fits};

use countersign_cells::value_at;
use countersign_sums::Whole;

// The first cell of A that the product misses.
pub fn first_product(
    a: &[f64],
    u: &[f64],
    us: &[u32],
    s: &[f64],
    ss: &[u32],
    vt: &[f64],
    vs: &[u32],
    m: usize,
    n: usize,
    k: usize,
    tolerance: u64,
) -> Option<usize>
    requires read { Read u.now us.now s.now ss.now vt.now vs.now }
    requires factors { Factors m n k (length u.now) (length s.now) (length vt.now) × (length a.now ≡ 2 * (m * n)) × (m * n ≤ 4096) }
    ensures { FirstFail (product_fits a.now u.now s.now vt.now m n k tolerance) (m * n) result }
{
    for c in 0..m * n {
        if !countersign_products::fits(a, u, us, s, ss, vt, vs, m, n, k, tolerance, c) {
            return Some(c);
        }
    }
    None
}

// The first cell of the Gram matrix of k vectors of `len` cells that misses the identity. A cell below the diagonal
// holds where its mirror image does, which was looked at before.
pub fn first_inner(x: &[f64], xs: &[u32], len: usize, k: usize, tolerance: u64) -> Option<usize>
    requires { Shifted x.now xs.now × (length x.now ≡ 2 * (k * len)) × (k * len ≤ 4096) × (k * k ≤ 256) }
    ensures { FirstFail (gram_fits x.now len k tolerance) (k * k) result }
{
    for c in 0..k * k {
        if c / k <= c % k && !countersign_grams::fits(x, xs, len, k, tolerance, c) {
            return Some(c);
        }
    }
    None
}

// Whether value i is 0 or more, and no more than the one before it.
fn value_fits(s: &[f64], i: usize) -> bool
    requires { i < length s.now }
    ensures { result ≡ value_fits s.now i }
{
    let x = value_at(s, i);
    let nothing = Whole { over: 0, under: 0 };
    nothing.at_most(x) && (i == 0 || x.at_most(value_at(s, i - 1)))
}

// The first value that is below 0 or rises.
pub fn first_value(s: &[f64]) -> Option<usize>
    ensures { FirstFail (value_fits s.now) (length s.now) result }
{
    for i in 0..s.len() {
        if !value_fits(s, i) {
            return Some(i);
        }
    }
    None
}
