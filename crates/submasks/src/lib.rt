// A submask of a mask and the next one. Inner: qubits, cuts and densities stand on it.
#![tactic(auto)]

ghost use Rattle.std.specs.Prelude.{◌≡◌};
ghost use Rattle.submasks.specs.Submasks.{next_submask};

pub use whole_numbers::bit;

// The submask of mask after x in rising order: x minus mask, wrapping, and mask.
pub fn next_submask(x: usize, mask: usize) -> usize
    ensures { result ≡ next_submask x mask }
{
    x.wrapping_sub(mask) & mask
}
