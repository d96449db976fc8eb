// Inner: a quick test that every number is an allowed component.
#![tactic(auto)]

ghost use Rattle.std.specs.Prelude.{◌≡◌, true, ◌+◌, ◌≤◌, length};
ghost use Rattle.scaled.specs.Each.{EachAllowed};
ghost use Rattle.scaled.specs.Eight.{no_sums, with_eight, joined};

// 2^824
const SCALE: f64 = 1.1187071843154282e248;

// Eight sums, none of which waits for another. The back end takes two at once.
#[derive(Clone, Copy)]
pub struct Sums {
    pub sum0: f64,
    pub sum1: f64,
    pub sum2: f64,
    pub sum3: f64,
    pub sum4: f64,
    pub sum5: f64,
    pub sum6: f64,
    pub sum7: f64,
}

impl Sums {
    // +0.0 everywhere.
    fn none() -> Sums
        ensures { result ≡ no_sums }
    {
        Sums {
            sum0: 0.0,
            sum1: 0.0,
            sum2: 0.0,
            sum3: 0.0,
            sum4: 0.0,
            sum5: 0.0,
            sum6: 0.0,
            sum7: 0.0,
        }
    }

    // To each sum one of the eight numbers of s from place i on, times 2^824.
    fn with_eight(self, s: &[f64], i: usize) -> Sums
        requires { i + 8 ≤ length s.now }
        ensures { result ≡ with_eight self s.now i }
    {
        let x0 = s[i];
        let x1 = s[i + 1];
        let x2 = s[i + 2];
        let x3 = s[i + 3];
        let x4 = s[i + 4];
        let x5 = s[i + 5];
        let x6 = s[i + 6];
        let x7 = s[i + 7];
        Sums {
            sum0: self.sum0 + x0 * SCALE,
            sum1: self.sum1 + x1 * SCALE,
            sum2: self.sum2 + x2 * SCALE,
            sum3: self.sum3 + x3 * SCALE,
            sum4: self.sum4 + x4 * SCALE,
            sum5: self.sum5 + x5 * SCALE,
            sum6: self.sum6 + x6 * SCALE,
            sum7: self.sum7 + x7 * SCALE,
        }
    }

    // The sums of even places joined with those of odd ones.
    fn join(self) -> f64
        ensures { result ≡ joined self }
    {
        let even = (self.sum0 + self.sum4) + (self.sum2 + self.sum6);
        let odd = (self.sum1 + self.sum5) + (self.sum3 + self.sum7);
        even + odd
    }
}

// A number below 2^-1022 that is not zero.
fn is_subnormal(x: f64) -> bool {
    x < 2.2250738585072014e-308 && -2.2250738585072014e-308 < x && x != 0.0
}

// Whether one of a few numbers of a long s is subnormal: a product with such a number takes the processor some fifty times as long as any other.
// Nothing is promised.
fn looks_slow(s: &[f64]) -> bool {
    let m = s.len();
    m >= 256
        && (is_subnormal(s[0])
            || is_subnormal(s[1])
            || is_subnormal(s[m / 2])
            || is_subnormal(s[m - 1]))
}

// Whether the numbers of s, each times 2^824, have a finite sum. Where they have, every number is allowed: one above 2^200 becomes an infinity,
// which stays, as a NaN does. Where not, or where s has fewer than eight numbers or looks subnormal, nothing is known. Two sets of eight sums, one
// for each half, so that no addition waits for the one before it. The first begins with the last eight, so that the loop leaves none over. It may
// take some again.
pub fn scaled_sum_finite(s: &[f64]) -> bool
    ensures { result ≡ true → EachAllowed s.now }
{
    if s.len() < 8 || looks_slow(s) {
        return false;
    }
    let last = s.len() - 8;
    let half = last - last / 2;
    let none = Sums::none();
    let mut sums = none.with_eight(s, last);
    let mut others = none;
    for k in 0..half.div_ceil(8) {
        sums = sums.with_eight(s, 8 * k);
        others = others.with_eight(s, half + 8 * k);
    }
    numbers::is_finite(sums.join() + others.join())
}
