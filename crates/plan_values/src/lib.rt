// The Schmidt values of a plan.
#![tactic(auto)]

ghost use Rattle.plan_values.specs.PlannedValues.{PlannedValues};

use answers::Refusal;
use cut_values::CutCounted;
use plans::Plan;

// 1 where no list makes the plan; else the call of its list under cap 13, over the masks and sizes that the plan keeps.
pub fn planned_schmidt_values(
    state: &[f64],
    plan: Plan,
    out: &mut [f64],
    scratch: &mut [f64],
) -> Result<CutCounted, Refusal>
    ensures { PlannedValues state.now plan out.old scratch.old result out.new scratch.new }
{
    if !plans::is_made(plan) {
        return Err(Refusal::Size);
    }
    let cut = plans::kept_sides(plan);
    cut_values::values_over(state, plan.n, cut, out, scratch)
}
