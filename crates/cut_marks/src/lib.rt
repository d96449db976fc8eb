// Inner: how the sweeps of a cut went, as three whole numbers in a lent slice, and such a slice cleared.
#![tactic(auto)]

ghost use Rattle.std.specs.Prelude.{◌≡◌, ◌++◌, ◌+◌, ◌≤◌, length, take, drop, replicate};
ghost use Rattle.cut_marks.specs.Marks.{one_if, cut_marks};

use sweeps::Sweeps;

// 1 where it is so, else 0.
pub fn one_if(yes: bool) -> usize
    ensures { result ≡ one_if yes }
{
    usize::from(yes)
}

// The three marks from a place on: the sweeps begun, 1 where the last was quiet else 0, the turned pairs.
pub fn put_sweeps(at: usize, sweeps: Sweeps, marks: &mut [usize])
    requires { at + 3 ≤ length marks.old }
    ensures { marks.new ≡ take at marks.old ++ (cut_marks sweeps ++ drop (at + 3) marks.old) }
{
    marks[at] = sweeps.begun;
    marks[at + 1] = one_if(sweeps.quiet);
    marks[at + 2] = sweeps.turned;
}

// Every number of s becomes 0.
pub fn clear_counts(s: &mut [usize])
    ensures { s.new ≡ replicate (length s.old) 0 }
{
    s.fill(0);
}
