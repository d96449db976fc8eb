// Inner: the calls on a plan that is lent as thirty numbers. A refused call leaves them as they were.
#![tactic(auto)]

ghost use Rattle.std.specs.Prelude.{◌≡◌};
ghost use Rattle.answers.specs.Paper.{paper};
ghost use Rattle.plan_changes.specs.Changes.{adding, dropping, switching};
ghost use Rattle.plan_calls.specs.Stored.{numbers_kept, CutPlanStored, ChangeStored};

use answers::Refusal;
use plans::Plan;

pub fn store_cut_plan(
    list: &[usize],
    n: usize,
    cap: usize,
    w: &mut [usize; 30],
) -> Result<(), Refusal>
    ensures { CutPlanStored list.now n cap w.old result w.new }
{
    plan_numbers::store_plan(w, plans::cut_plan(list, n, cap)?);
    Ok(())
}

// The numbers become those of the plan that a change made; of a refused change they stay.
fn keep(w: &mut [usize; 30], made: Result<Plan, Refusal>) -> Result<(), Refusal>
    ensures answer { paper result ≡ paper made }
    ensures numbers { w.new ≡ numbers_kept made w.old }
{
    match made {
        Ok(plan) => {
            plan_numbers::store_plan(w, plan);
            Ok(())
        }
        Err(refusal) => Err(refusal),
    }
}

pub fn add_to_plan(w: &mut [usize; 30], qubit: usize) -> Result<(), Refusal>
    ensures { ChangeStored (adding qubit) w.old result w.new }
{
    let made = plan_changes::plan_add(plan_numbers::read_plan(w), qubit);
    keep(w, made)
}

pub fn drop_from_plan(w: &mut [usize; 30], qubit: usize) -> Result<(), Refusal>
    ensures { ChangeStored (dropping qubit) w.old result w.new }
{
    let made = plan_changes::plan_drop(plan_numbers::read_plan(w), qubit);
    keep(w, made)
}

pub fn switch_plan(w: &mut [usize; 30]) -> Result<(), Refusal>
    ensures { ChangeStored switching w.old result w.new }
{
    let made = plan_changes::plan_switch(plan_numbers::read_plan(w));
    keep(w, made)
}
