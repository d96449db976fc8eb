// Inner: how many powers of two lie between the 4096th powers of two whole numbers, from bounds of both by twelve squarings.
#![tactic(auto)]

ghost use Rattle.std.specs.Prelude.{◌≡◌, ◌+◌, ◌-◌, ◌*◌, ◌^◌, ◌≤◌, ◌<◌};
ghost use Rattle.entropy_powers.specs.Powers.{Narrow, PowersSized, halves_of, squared_of, squarings, powers_of, doublings_of, band_of};

// low * 2^power is at most a number, and high * 2^power at least.
#[derive(Clone, Copy)]
pub struct Bounds {
    pub low: u64,
    pub high: u64,
    pub power: u64,
}

// A number moved up to 32 digits, by how many digits, and the bounds of the 4096th power of these digits.
#[derive(Clone, Copy)]
pub struct Powers {
    pub digits: u64,
    pub up: u64,
    pub low: u64,
    pub high: u64,
    pub power: u64,
}

// Two whole numbers.
#[derive(Clone, Copy)]
pub struct Band {
    pub low: u64,
    pub high: u64,
}

// The bounds of the square: 31 digits again, the low one rounded down and the high one up.
#[tactic(auto, unfolding(crate::specs::Powers::squared_of, crate::specs::Powers::rounded_to))]
fn squared(b: Bounds) -> Bounds
    requires { Narrow 11 b }
    ensures { result ≡ squared_of b }
{
    let low = b.low * b.low;
    let high = b.high * b.high;
    if low < 0x2000_0000_0000_0000 {
        return Bounds {
            low: low / 0x4000_0000,
            high: (high + 0x3fff_ffff) / 0x4000_0000,
            power: 2 * b.power + 30,
        };
    }
    Bounds {
        low: low / 0x8000_0000,
        high: (high + 0x7fff_ffff) / 0x8000_0000,
        power: 2 * b.power + 31,
    }
}

// Twelve squarings of 32 digits.
#[tactic(auto, unfolding(crate::specs::Powers::squarings, crate::specs::Powers::halves_of))]
fn powered(y: u64) -> Bounds
    requires { (2 ^ 31 ≤ y) × (y < 2 ^ 32) }
    ensures { result ≡ squarings 12 (halves_of y) }
{
    let mut b = Bounds {
        low: y / 2,
        high: (y + 1) / 2,
        power: 1,
    };
    for _ in 0..12usize {
        b = squared(b);
    }
    b
}

// The powers of a number of 1 to 32 digits.
#[tactic(auto, unfolding(crate::specs::Powers::powers_of, crate::specs::Powers::full_of))]
pub fn powers_of(x: u64) -> Powers
    requires { (0 < x) × (x < 2 ^ 32) }
    ensures { result ≡ powers_of x }
{
    let up = (x as u32).leading_zeros() as u64;
    let digits = x << up;
    let b = powered(digits);
    Powers {
        digits,
        up,
        low: b.low,
        high: b.high,
        power: b.power,
    }
}

// How often a is doubled until it is at least b: 0, 1, or else 2.
#[tactic(auto, unfolding(crate::specs::Powers::doublings_of))]
fn doublings(b: u64, a: u64) -> u64
    requires { a < 2 ^ 63 }
    ensures { result ≡ doublings_of b a }
{
    if b <= a {
        return 0;
    }
    if b <= 2 * a {
        return 1;
    }
    2
}

// How many powers of two lie between the 4096th powers of a number and of a larger one: at least low, at most high.
#[tactic(auto, unfolding(crate::specs::Powers::band_of, crate::specs::Powers::between_of))]
pub fn band_of(part: Powers, all: Powers) -> Band
    requires { PowersSized part × PowersSized all }
    ensures { result ≡ band_of part all }
{
    if part.digits == all.digits {
        let exact = 4096 * part.up.saturating_sub(all.up);
        return Band {
            low: exact,
            high: exact,
        };
    }
    let between = (all.power + 4096 * part.up).saturating_sub(part.power + 4096 * all.up);
    let under = doublings(part.high, all.low);
    let over = doublings(all.high, part.low);
    Band {
        low: between.saturating_sub(under),
        high: between + over,
    }
}

// The band of a number w in a whole whose powers are known.
pub fn band_in(w: u64, all: Powers) -> Band
    requires { (0 < w) × (w < 2 ^ 32) × PowersSized all }
    ensures { result ≡ band_of (powers_of w) all }
{
    band_of(powers_of(w), all)
}
