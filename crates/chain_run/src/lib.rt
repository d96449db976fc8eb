// Inner: the work of an accepted call, over slices of exactly the needed lengths.
#![tactic(auto)]

ghost use Rattle.std.specs.Prelude.{◌≡◌, length};
ghost use Rattle.chain_fill.specs.Fill.{FillRoom, ChainFilled};

use answers::Refusal;

// The sites, the bonds, the cells where the sites start, and the marks; how many cuts dropped a value above the resolution. 8 where every component is zero, 9 where a step is refused.
pub fn run(
    state: &[f64],
    n: usize,
    epsilon: f64,
    limit: usize,
    sites: &mut [f64],
    bonds: &mut [usize],
    starts: &mut [usize],
    marks: &mut [usize],
    u: &mut [f64],
    vt: &mut [f64],
    scratch: &mut [f64],
) -> Result<usize, Refusal>
    requires { FillRoom n limit (length state.now) (length sites.old) (length bonds.old) (length starts.old)
        (length marks.old) (length u.old) (length vt.old) (length scratch.old) }
    ensures { ChainFilled state.now n epsilon limit result sites.new bonds.new starts.new
        marks.new }
{
    if chain_start::all_zero(state) {
        return Err(Refusal::NoWeight);
    }
    chain_start::lay_state(state, n, u);
    let end = chain_walk::walk(
        n,
        epsilon,
        limit,
        sites,
        &mut bonds[1..],
        &mut starts[1..],
        marks,
        u,
        vt,
        scratch,
    )?;
    chain_fill::put_last(n, end.bond, end.at, u, sites, bonds, starts);
    Ok(end.dropped)
}
