// Inner: the weight of a Schmidt value: the floor of its exact square times 2^24, from its bits.
#![tactic(auto)]

ghost use Rattle.std.specs.Prelude.{◌≡◌, ◌*◌, ◌/◌, ◌^◌, ◌<◌};
ghost use Rattle.entropy_weights.specs.Weights.{weight_of};

// The square of 53 digits without its lowest 52: the halves have 27 and 26 digits, so that no product wraps.
fn square_top(m: u64) -> u64
    requires { m < 2 ^ 53 }
    ensures { result ≡ m * m / 2 ^ 52 }
{
    let h = m / 0x400_0000;
    let l = m % 0x400_0000;
    h * h + (h * l + l * l / 0x800_0000) / 0x200_0000
}

// The weight of a float. From 2 on, and where it is not finite, it is 0; below 2^-12 the floor is 0.
pub fn weight(x: f64) -> u64
    ensures { result ≡ weight_of x }
{
    if !numbers::is_finite(x) {
        return 0;
    }
    let b = f64::to_bits(x) % 0x8000_0000_0000_0000;
    let e = b / 0x10_0000_0000_0000;
    if e < 1011 || e > 1023 {
        return 0;
    }
    square_top(0x10_0000_0000_0000 + b % 0x10_0000_0000_0000) >> (2074 - 2 * e)
}
