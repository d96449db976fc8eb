// Inner: what a factorisation with a count gives, and how the sweeps of one are stated. A refusal has no sweeps.
#![tactic(auto)]

use sweeps::Sweeps;

// How many values were kept, and the sweeps.
#[derive(Clone, Copy)]
pub struct Counted {
    pub count: usize,
    pub sweeps: Sweeps,
}
