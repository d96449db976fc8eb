// A cut kept: its masks, sizes, named list and smaller side's list, as one value.
#![tactic(auto)]

ghost use Rattle.std.specs.Prelude.{◌≡◌, true};
ghost use Rattle.cut_sides.specs.Sides.{Parted, sides_of, side_list};
ghost use Rattle.plan_lists.specs.Padded.{padded};
ghost use Rattle.plans.specs.Plans.{plan_of, CutPlan, list_of, made};

use answers::Refusal;
use cut_sides::Sides;

#[derive(Clone, Copy, PartialEq, Eq)]
pub struct Plan {
    // the register, and how many qubits are named
    pub n: usize,
    pub k: usize,
    pub row_mask: usize,
    pub column_mask: usize,
    // how many rows and columns
    pub rows: usize,
    pub columns: usize,
    // the named list in its order and the smaller side's list; unused places hold 0
    pub named: [usize; 12],
    pub smaller: [usize; 12],
}

// Inner: the smaller side's list, padded.
fn smaller_list(list: &[usize], n: usize) -> [usize; 12]
    requires { Parted list.now n }
    ensures { result ≡ padded (side_list list.now n) }
{
    if list.len() <= n - list.len() {
        plan_lists::pad(list)
    } else {
        plan_lists::pad_others(list, n)
    }
}

// Inner: the one place that makes a plan.
fn plan_of(list: &[usize], n: usize) -> Plan
    requires { Parted list.now n }
    ensures { result ≡ plan_of list.now n }
{
    let sides = cut_sides::sides_of(list, n);
    Plan {
        n,
        k: list.len(),
        row_mask: sides.row,
        column_mask: sides.column,
        rows: sides.rows,
        columns: sides.columns,
        named: plan_lists::pad(list),
        smaller: smaller_list(list, n),
    }
}

// A plan of the list: refused as a cut without its state.
pub fn cut_plan(list: &[usize], n: usize, cap: usize) -> Result<Plan, Refusal>
    ensures { CutPlan list.now n cap result }
{
    cut_sides::cut_refusal(list, n, cap)?;
    Ok(plan_of(list, n))
}

// Inner: whether some list makes the plan under cap 13.
pub fn is_made(p: Plan) -> bool
    ensures { result ≡ made p }
{
    if 12 < p.k {
        return false;
    }
    let Ok(again) = cut_plan(&p.named[..p.k], p.n, 13) else {
        return false;
    };
    p == again
}

// Inner: the sides that a plan keeps.
pub fn kept_sides(p: Plan) -> Sides
    requires { made p ≡ true }
    ensures { result ≡ sides_of (list_of p) p.n }
{
    Sides {
        row: p.row_mask,
        column: p.column_mask,
        rows: p.rows,
        columns: p.columns,
        named: p.k <= p.n - p.k,
    }
}
