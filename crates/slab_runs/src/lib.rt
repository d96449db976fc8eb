// Inner: runs of free cells in a map that says of each cell whether it is held.
#![tactic(auto)]

ghost use Rattle.std.specs.Prelude.{◌≡◌, ◌≤◌};
ghost use Rattle.slab_runs.specs.Runs.{lowest};

// The first cell of the lowest run of k free cells, or that there is none.
pub fn lowest_run(map: &[bool], k: usize) -> Option<usize>
    requires { 1 ≤ k }
    ensures { result ≡ lowest k 0 map.now }
{
    let mut run = 0;
    for (c, held) in map.iter().enumerate() {
        if *held {
            run = 0;
        } else {
            if run + 1 == k {
                return Some(c - run);
            }
            run += 1;
        }
    }
    None
}
