// Inner: one cut of a chain, the qubits 0..j against the rest, and its marks.
#![tactic(auto)]

ghost use Rattle.std.specs.Prelude.{◌≡◌, ◌++◌, suc, ◌+◌, ◌*◌, ◌≤◌, length, take};
ghost use Rattle.profile_cut.specs.Cut.{marks_each, marks_of, CutRoom, AloneAt};

use answers::Refusal;
use cut_values::CutCounted;

// The marks of cut j, from what the call of that cut returned.
pub fn put_marks(j: usize, res: CutCounted, marks: &mut [usize])
    requires { marks_each * j + marks_each ≤ length marks.old }
    ensures { take (marks_each * suc j) marks.new ≡ take (marks_each * j) marks.old ++ marks_of res }
{
    let at = 4 * j;
    cut_marks::put_sweeps(at, res.sweeps, marks);
    marks[at + 3] = cut_marks::one_if(res.exact);
}

// Cut j as asked for alone: its values at the front of out. The list and the state are known to be accepted, and scratch is left as
// the work leaves it.
pub fn cut_alone(
    state: &[f64],
    n: usize,
    j: usize,
    cap: usize,
    out: &mut [f64],
    scratch: &mut [f64],
) -> Result<CutCounted, Refusal>
    requires { CutRoom state.now n j cap (length out.old) (length scratch.old) }
    ensures { AloneAt state.now n j result out.new }
{
    let names = [0usize, 1, 2, 3, 4, 5, 6, 7, 8, 9, 10, 11];
    let end = j + 1;
    let cut = cut_sides::sides_of(&names[..end], n);
    cut_values::values_made(state, n, cut, out, scratch)
}
