// Inner: the counts of the Jacobi sweeps. The sweeps themselves are defined once, over what is done with a pair (specs/Sweeping.antt).
#![tactic(auto)]

ghost use Rattle.std.specs.Prelude.{◌≡◌, ◌<◌};
ghost use Rattle.sweeps.specs.Sweeping.{counted, no_sweeps};

use svd_pair::Turn;

// Sweeps begun, whether the last one turned nothing, and pairs turned in all.
#[derive(Clone, Copy)]
pub struct Sweeps {
    pub begun: usize,
    pub quiet: bool,
    pub turned: usize,
}

// No sweep yet.
pub fn none() -> Sweeps
    ensures { result ≡ no_sweeps }
{
    Sweeps {
        begun: 0,
        quiet: false,
        turned: 0,
    }
}

// The counts after a decision.
#[tactic(auto, unfolding(crate::specs::Sweeping::counted))]
pub fn count(d: Option<Turn>, s: Sweeps) -> Sweeps
    requires { s.turned < 1000000 }
    ensures { result ≡ counted d s }
{
    match d {
        None => s,
        Some(_) => Sweeps {
            begun: s.begun,
            quiet: false,
            turned: s.turned + 1,
        },
    }
}
