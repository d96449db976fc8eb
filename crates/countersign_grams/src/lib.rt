// Inner: an entry of the Gram matrix of k vectors less the identity's, exactly, in whole numbers of 2^-36. The
// vectors stand one after the other, `len` cells each: the columns of U, or the rows of V†. Their numbers are read from
// xs, where those of x stand.
#![tactic(auto)]

ghost use Rattle.std.specs.Prelude.{◌≡◌, ◌+◌, ◌*◌, ◌^◌, ◌<◌, ◌≤◌, length};
ghost use Rattle.countersign_sums.specs.Integers.{Alike};
ghost use Rattle.countersign_shifted.specs.Shifted.{Shifted};
ghost use Rattle.countersign_grams.specs.Grams.{inner, inners_of, identity_at, gram_gap, gram_fits};

use countersign_shifted::cell_of;
use countersign_sums::{Gaussian, Whole};

// What place i adds to the inner product of the vectors p and q: the first conjugated.
fn one_inner(x: &[f64], xs: &[u32], len: usize, p: usize, q: usize, i: usize) -> Gaussian
    requires { Shifted x.now xs.now × (2 * (p * len + i) + 1 < length x.now) × (2 * (q * len + i) + 1 < length x.now) }
    ensures { Alike result (inner x.now len p q i) (9 * 2 ^ 38) }
{
    let first = cell_of(x, xs, p * len + i);
    let second = cell_of(x, xs, q * len + i);
    first.conj().times(second)
}

// The inner product of the vectors p and q.
fn inners(x: &[f64], xs: &[u32], len: usize, k: usize, p: usize, q: usize) -> Gaussian
    requires { Shifted x.now xs.now × (length x.now ≡ 2 * (k * len)) × (k * len ≤ 4096) × (p < k) × (q < k) }
    ensures { Alike result (inners_of x.now len p q len) (9 * 2 ^ 50) }
{
    let mut sum = Gaussian {
        re: Whole { over: 0, under: 0 },
        im: Whole { over: 0, under: 0 },
    };
    for i in 0..len {
        sum = sum.plus(one_inner(x, xs, len, p, q, i));
    }
    sum
}

// The entry of the identity at p and q.
#[tactic(auto, unfolding(crate::specs::Grams::identity_at))]
fn identity(p: usize, q: usize) -> Gaussian
    ensures { result ≡ identity_at p q }
{
    let over = if p == q { 0x10_0000_0000 } else { 0 };
    Gaussian {
        re: Whole { over, under: 0 },
        im: Whole { over: 0, under: 0 },
    }
}

// Cell c of the Gram matrix less the identity's: the vectors c / k and c % k.
fn gap(x: &[f64], xs: &[u32], len: usize, k: usize, c: usize) -> Gaussian
    requires { Shifted x.now xs.now × (length x.now ≡ 2 * (k * len)) × (k * len ≤ 4096) × (c < k * k) }
    ensures { Alike result (gram_gap x.now len k c) (2 ^ 54) }
{
    let sum = inners(x, xs, len, k, c / k, c % k);
    sum.minus(identity(c / k, c % k))
}

// Whether each part of it is within the tolerance, in whole numbers of 2^-54. The gap times 2^18 may not fit, so the
// tolerance is divided.
pub fn fits(x: &[f64], xs: &[u32], len: usize, k: usize, tolerance: u64, c: usize) -> bool
    requires { Shifted x.now xs.now × (length x.now ≡ 2 * (k * len)) × (k * len ≤ 4096) × (c < k * k) }
    ensures { result ≡ gram_fits x.now len k tolerance c }
{
    gap(x, xs, len, k, c).within(tolerance / 0x4_0000)
}
