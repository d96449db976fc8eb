// A plan changed by one qubit, or turned to the other side: equal to a plan made from the changed list.
#![tactic(auto)]

ghost use Rattle.std.specs.Prelude.{◌≡◌};
ghost use Rattle.plan_changes.specs.Changes.{adding, dropping, switching, Changed};

use answers::Refusal;
use plans::Plan;

// The qubit goes to the list's end: refused by 1, then 2 and 3 at place k, then 5.
#[tactic(auto, using(crate::proofs::ChangeLaws::place_left), unfolding(crate::specs::Changes::change_reply, crate::specs::Changes::changed))]
pub fn plan_add(p: Plan, qubit: usize) -> Result<Plan, Refusal>
    ensures { Changed (adding qubit) p result }
{
    if !plans::is_made(p) {
        return Err(Refusal::Size);
    }
    let mut list = p.named;
    list[p.k] = qubit;
    plans::cut_plan(&list[..p.k + 1], p.n, 13)
}

// The qubit leaves the list, and the gap is closed: refused by 1, then 12, then 4.
#[tactic(auto, using(crate::proofs::ChangeLaws::place_left), unfolding(crate::specs::Changes::change_reply, crate::specs::Changes::changed))]
pub fn plan_drop(p: Plan, qubit: usize) -> Result<Plan, Refusal>
    ensures { Changed (dropping qubit) p result }
{
    if !plans::is_made(p) {
        return Err(Refusal::Size);
    }
    let list = &p.named[..p.k];
    if !qubits::stands_in(list, qubit) {
        return Err(Refusal::NotListed);
    }
    let rest = plan_lists::leave_out(list, qubit);
    plans::cut_plan(&rest.numbers[..rest.count], p.n, 13)
}

// The other side is named, rising: refused by 1 alone.
#[tactic(auto, using(crate::proofs::ChangeLaws::place_left), unfolding(crate::specs::Changes::change_reply, crate::specs::Changes::changed))]
pub fn plan_switch(p: Plan) -> Result<Plan, Refusal>
    ensures { Changed switching p result }
{
    if !plans::is_made(p) {
        return Err(Refusal::Size);
    }
    let list = &p.named[..p.k];
    let others = plan_lists::pad_others(list, p.n);
    plans::cut_plan(&others[..p.n - p.k], p.n, 13)
}
