// Inner: the numbers of a slice as whole numbers from 0 on, read from its floats once: each is 2^18 more than it is in
// whole numbers of 2^-18, so that a product of two needs no sign.
#![tactic(auto)]

ghost use Rattle.std.specs.Prelude.{◌≡◌, ◌+◌, ◌*◌, ◌^◌, ◌<◌, ◌≤◌, length};
ghost use Rattle.tables.specs.Tables.{filled};
ghost use Rattle.countersign_sums.specs.Gaussians.{by_whole};
ghost use Rattle.countersign_sums.specs.Integers.{Alike};
ghost use Rattle.countersign_cells.specs.Cells.{value_at, whole_cell};
ghost use Rattle.countersign_shifted.specs.Shifted.{shifted_at, Shifted};

use countersign_sums::{Gaussian, Whole};

// The number i of s.
fn shifted_at(s: &[f64], i: usize) -> u32
    requires { i < length s.now }
    ensures { result ≡ shifted_at s.now i }
{
    let x = countersign_cells::value_at(s, i);
    (0x4_0000 + x.over - x.under) as u32
}

// All numbers of s, at the front of out; the surplus is not touched.
pub fn shift(s: &[f64], out: &mut [u32])
    requires { length s.now ≤ length out.old }
    ensures { out.new ≡ filled (length s.now) (shifted_at s.now) out.old }
{
    for i in 0..s.len() {
        out[i] = shifted_at(s, i);
    }
}

// The cell c of x, whose numbers stand in xs.
pub fn cell_of(x: &[f64], xs: &[u32], c: usize) -> Gaussian
    requires { Shifted x.now xs.now × (2 * c + 1 < length x.now) }
    ensures { Alike result (whole_cell x.now c) (3 * 2 ^ 19) }
{
    let at = 2 * c;
    let re = u64::from(xs[at]);
    let im = u64::from(xs[at + 1]);
    Gaussian {
        re: Whole {
            over: re,
            under: 0x4_0000,
        },
        im: Whole {
            over: im,
            under: 0x4_0000,
        },
    }
}

// The product of the two numbers that x and y are 2^18 more than, and 2^36 more.
fn product(x: u64, y: u64) -> u64
    requires { (x ≤ 2 ^ 19) × (y ≤ 2 ^ 19) }
    ensures { (result + 2 ^ 18 * (x + y) ≡ x * y + 2 ^ 37) × (result ≤ 2 ^ 37) }
{
    x * y + 0x20_0000_0000 - 0x4_0000 * (x + y)
}

// The cell c of x by the number t of s.
pub fn scaled_cell(x: &[f64], xs: &[u32], s: &[f64], ss: &[u32], c: usize, t: usize) -> Gaussian
    requires { Shifted x.now xs.now × Shifted s.now ss.now × (2 * c + 1 < length x.now) × (t < length s.now) }
    ensures { Alike result (by_whole (whole_cell x.now c) (value_at s.now t)) (3 * 2 ^ 37) }
{
    let at = 2 * c;
    let by = u64::from(ss[t]);
    let re = product(u64::from(xs[at]), by);
    let im = product(u64::from(xs[at + 1]), by);
    Gaussian {
        re: Whole {
            over: re,
            under: 0x10_0000_0000,
        },
        im: Whole {
            over: im,
            under: 0x10_0000_0000,
        },
    }
}
