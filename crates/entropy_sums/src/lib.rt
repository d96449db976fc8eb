// Inner: the weights that are left of Schmidt values, their sum, and each one's band in the sum.
#![tactic(auto)]

ghost use Rattle.std.specs.Prelude.{◌≡◌, ◌+◌, ◌*◌, ◌^◌, ◌≤◌, ◌<◌, length};
ghost use Rattle.entropy_powers.specs.Powers.{PowersSized};
ghost use Rattle.entropy_sums.specs.Sums.{weights_left, weight_sum, set_band, bands_with, sums_with, SumsFit, FillReady, Filled};

use entropy_powers::{Band, Powers};

// How many weights are left, and the sums of each weight times the ends of its band.
#[derive(Clone, Copy)]
pub struct Sums {
    pub count: usize,
    pub low: u64,
    pub high: u64,
}

// The sum of the weights.
pub fn whole_weight(values: &[f64]) -> u64
    requires { length values.now ≤ 64 }
    ensures { result ≡ weight_sum (weights_left values.now) }
{
    let mut sum: u64 = 0;
    for x in values {
        sum += entropy_weights::weight(*x);
    }
    sum
}

// A weight and its band in place k.
#[tactic(auto, unfolding(crate::specs::Sums::set_band))]
fn put(bands: &mut [usize], k: usize, w: u64, b: Band)
    requires { 3 * k + 2 < length bands.old }
    ensures { bands.new ≡ set_band bands.old k w b }
{
    let at = 3 * k;
    bands[at] = w as usize;
    bands[at + 1] = b.low as usize;
    bands[at + 2] = b.high as usize;
}

// One weight more; a zero is dropped.
#[tactic(auto, unfolding(crate::specs::Sums::bands_with, crate::specs::Sums::sums_with))]
fn with_weight(bands: &mut [usize], w: u64, all: Powers, s: Sums) -> Sums
    requires { SumsFit w all s (length bands.old) }
    ensures bands { bands.new ≡ bands_with w all s bands.old }
    ensures sums { result ≡ sums_with w all s }
{
    if w == 0 {
        return s;
    }
    let b = entropy_powers::band_in(w, all);
    put(bands, s.count, w, b);
    Sums {
        count: s.count + 1,
        low: s.low + w * b.low,
        high: s.high + w * b.high,
    }
}

// The bands of the weights left at the front of cells that are all 0, and the sums.
pub fn fill(values: &[f64], all: Powers, bands: &mut [usize]) -> Sums
    requires { FillReady values.now all bands.old }
    ensures { Filled values.now (length bands.old) result bands.new }
{
    let mut s = Sums {
        count: 0,
        low: 0,
        high: 0,
    };
    for x in values {
        s = with_weight(bands, entropy_weights::weight(*x), all, s);
    }
    s
}
