// The cut matrix of a plan.
#![tactic(auto)]

ghost use Rattle.plan_matrix.specs.PlannedCut.{PlannedCut};

use answers::Refusal;
use plans::Plan;

// 1 where no list makes the plan; else the call of its list under cap 13, over the masks and sizes that the plan keeps.
pub fn planned_cut_matrix(state: &[f64], plan: Plan, out: &mut [f64]) -> Result<(), Refusal>
    ensures { PlannedCut state.now plan out.old result out.new }
{
    if !plans::is_made(plan) {
        return Err(Refusal::Size);
    }
    let cut = plans::kept_sides(plan);
    cuts::cut_over(state, plan.n, cut, out)
}
