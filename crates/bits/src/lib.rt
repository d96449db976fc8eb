// Inner: the bits of a float, as the printout and the comparison of two pages need them.
#![tactic(auto)]

ghost use Rattle.std.specs.Prelude.{◌≡◌};
ghost use Rattle.std.specs.Float.{binary64};
ghost use Rattle.std.specs.Float.Ieee.{to_bits};

// The bits of a float; of a NaN those of the one that the logic writes.
#[tactic(auto, using(crate::proofs::Bits::of_nan))]
pub fn bits_of(x: f64) -> u64
    ensures { result ≡ to_bits binary64 x }
{
    if x.is_nan() {
        return 0x7ff8_0000_0000_0000;
    }
    x.to_bits()
}
