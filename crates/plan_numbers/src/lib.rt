// Inner: a plan as thirty numbers in a row, as C lays them out.
#![tactic(auto)]

ghost use Rattle.std.specs.Prelude.{◌≡◌};
ghost use Rattle.plan_numbers.specs.Numbers.{numbers_of, plan_at};

use plans::Plan;

// The plan that the numbers are.
pub fn read_plan(w: &[usize; 30]) -> Plan
    ensures { result ≡ plan_at w.now }
{
    let named = [
        w[6], w[7], w[8], w[9], w[10], w[11], w[12], w[13], w[14], w[15], w[16], w[17],
    ];
    let smaller = [
        w[18], w[19], w[20], w[21], w[22], w[23], w[24], w[25], w[26], w[27], w[28], w[29],
    ];
    Plan {
        n: w[0],
        k: w[1],
        row_mask: w[2],
        column_mask: w[3],
        rows: w[4],
        columns: w[5],
        named,
        smaller,
    }
}

// The plan's numbers are stored.
pub fn store_plan(w: &mut [usize; 30], p: Plan)
    ensures { w.new ≡ numbers_of p }
{
    *w = [
        p.n,
        p.k,
        p.row_mask,
        p.column_mask,
        p.rows,
        p.columns,
        p.named[0],
        p.named[1],
        p.named[2],
        p.named[3],
        p.named[4],
        p.named[5],
        p.named[6],
        p.named[7],
        p.named[8],
        p.named[9],
        p.named[10],
        p.named[11],
        p.smaller[0],
        p.smaller[1],
        p.smaller[2],
        p.smaller[3],
        p.smaller[4],
        p.smaller[5],
        p.smaller[6],
        p.smaller[7],
        p.smaller[8],
        p.smaller[9],
        p.smaller[10],
        p.smaller[11],
    ];
}
