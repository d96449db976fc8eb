// Inner: the walk along the chain of sites, one step after another over the lent slices.
#![tactic(auto)]

ghost use Rattle.std.specs.Prelude.{◌*◌, length, take};
ghost use Rattle.chain_step.specs.Step.{columnwise};
ghost use Rattle.chain_link.specs.OneLink.{rows_at, columns_at, cells_at};
ghost use Rattle.chain_walk.specs.Walk.{NextRoom, Next, WalkRoom, WalkEnd};

use answers::Refusal;

// How far a walk came: the last bond, the cells of the sites so far, the cuts that dropped a value above the resolution.
#[derive(Clone, Copy)]
pub struct Walked {
    pub bond: usize,
    pub at: usize,
    pub dropped: usize,
}

// Step j of n: its site goes to sites after those that are there, its rank to bonds, the cell after its site to starts, and its marks to marks.
fn next_step(
    n: usize,
    j: usize,
    before: Walked,
    epsilon: f64,
    limit: usize,
    sites: &mut [f64],
    bonds: &mut [usize],
    starts: &mut [usize],
    marks: &mut [usize],
    u: &mut [f64],
    vt: &mut [f64],
    scratch: &mut [f64],
) -> Result<Walked, Refusal>
    requires { NextRoom n j before.bond before.at before.dropped limit (length sites.old) (length bonds.old) (length starts.old)
        (length marks.old) (length u.old) (length vt.old) (length scratch.old) }
    ensures { Next (columnwise (take (2 * cells_at n j before.bond)
        u.old) (rows_at before.bond) (columns_at n j)) (rows_at before.bond) (columns_at n j) j before.at before.dropped epsilon limit
        sites.old bonds.old starts.old marks.old result
        sites.new bonds.new starts.new marks.new u.new }
{
    let bond = before.bond;
    let at = before.at;
    let link = chain_link::one_link(n, j, bond, at, epsilon, limit, sites, u, vt, scratch)?;
    let end = at + 2 * bond * link.chi;
    cut_marks::put_sweeps(3 * j, link.sweeps, marks);
    bonds[j] = link.chi;
    starts[j] = end;
    Ok(Walked {
        bond: link.chi,
        at: end,
        dropped: before.dropped + usize::from(link.drops),
    })
}

// Every step. What is carried stands at the front of u; the rank of cut j goes to cell j of bonds.
pub fn walk(
    n: usize,
    epsilon: f64,
    limit: usize,
    sites: &mut [f64],
    bonds: &mut [usize],
    starts: &mut [usize],
    marks: &mut [usize],
    u: &mut [f64],
    vt: &mut [f64],
    scratch: &mut [f64],
) -> Result<Walked, Refusal>
    requires { WalkRoom n limit (length sites.old) (length bonds.old) (length starts.old) (length marks.old)
        (length u.old) (length vt.old) (length scratch.old) }
    ensures { WalkEnd u.old n epsilon limit sites.old bonds.old starts.old
        marks.old result
        sites.new bonds.new starts.new marks.new u.new }
{
    let mut walked = Walked {
        bond: 1,
        at: 0,
        dropped: 0,
    };
    for j in 0..n - 1 {
        walked = next_step(
            n, j, walked, epsilon, limit, sites, bonds, starts, marks, u, vt, scratch,
        )?;
    }
    Ok(walked)
}
