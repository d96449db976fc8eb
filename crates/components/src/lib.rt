// Inner: answer 7 of a call's own states and matrices. The scan takes several numbers at once.
#![tactic(auto)]

ghost use Rattle.std.specs.Prelude.{◌≡◌};
ghost use Rattle.answers.specs.Paper.{paper};
ghost use Rattle.complex.specs.Cells.{components};
ghost use Rattle.components.specs.Every.{every_allowed};

use answers::Refusal;

// Whether every number of s is allowed. A finite scaled sum settles it at two thirds of the cost. The loop has one way out, so
// that the back end takes several numbers at once.
fn every_allowed(s: &[f64]) -> bool
    ensures { result ≡ every_allowed s.now }
{
    if scaled::scaled_sum_finite(s) {
        return true;
    }
    let mut every = true;
    for x in s {
        every &= numbers::component_allowed(*x);
    }
    every
}

// The first cell of s with a component that is not allowed: 7.
fn first_disallowed(s: &[f64]) -> Result<(), Refusal>
    ensures { paper result ≡ components 0 s.now }
{
    for (i, x) in s.iter().enumerate() {
        if !numbers::component_allowed(*x) {
            return Err(Refusal::Component(i / 2));
        }
    }
    Ok(())
}

// The same. The place is looked for only where there is one.
pub fn check_components(s: &[f64]) -> Result<(), Refusal>
    ensures { paper result ≡ components 0 s.now }
{
    if every_allowed(s) {
        return Ok(());
    }
    first_disallowed(s)
}
