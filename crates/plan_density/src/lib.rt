// The unscaled density of a plan's list.
#![tactic(auto)]

ghost use Rattle.std.specs.Prelude.{◌≡◌, true};
ghost use Rattle.submasks.specs.Submasks.{others};
ghost use Rattle.qubits.specs.Spread.{named};
ghost use Rattle.plans.specs.Plans.{list_of, made};
ghost use Rattle.plan_density.specs.PlannedDensity.{PlannedDensity};

use answers::Refusal;
use plans::Plan;

// The mask of the qubits that a plan's list does not name: it is kept.
fn traced_mask(plan: Plan) -> usize
    requires { made plan ≡ true }
    ensures { result ≡ others plan.n (named (list_of plan)) }
{
    let cut = plans::kept_sides(plan);
    if cut.named { cut.column } else { cut.row }
}

// 1 where no list makes the plan or it names more than 6 qubits; else the call of its list under cap 13, over the mask that the plan
// keeps.
pub fn planned_reduced_density(
    state: &[f64],
    plan: Plan,
    out: &mut [f64],
    scratch: &mut [f64],
) -> Result<(), Refusal>
    ensures { PlannedDensity state.now plan out.old scratch.old result out.new scratch.new }
{
    if !plans::is_made(plan) || 6 < plan.k {
        return Err(Refusal::Size);
    }
    let rest = traced_mask(plan);
    densities::density_over(state, plan.n, &plan.named[..plan.k], rest, out, scratch)
}
