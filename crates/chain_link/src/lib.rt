// Inner: one step of the chain of sites over the lent slices. The carried rows stand at the front of u; the site goes to sites from cell
// `at` on.
#![tactic(auto)]

ghost use Rattle.std.specs.Prelude.{◌≡◌, length};
ghost use Rattle.chain_link.specs.OneLink.{LinkRoom, OneLink};

use answers::Refusal;
use chain_step::Link;

// Step j of n.
#[tactic(auto, using(crate::proofs::LinkSizes::link_sizes))]
pub fn one_link(
    n: usize,
    j: usize,
    bond: usize,
    at: usize,
    epsilon: f64,
    limit: usize,
    sites: &mut [f64],
    u: &mut [f64],
    vt: &mut [f64],
    scratch: &mut [f64],
) -> Result<Link, Refusal>
    requires { LinkRoom n j bond at limit (length sites.old) (length u.old) (length vt.old)
        (length scratch.old) }
    ensures { OneLink n j bond at epsilon limit sites.old u.old result sites.new u.new }
{
    let rows = 2 * bond;
    let columns = submasks::bit(n - 1 - j);
    let cells = rows * columns;
    let k = svd::smaller_size(rows, columns);
    let from = 2 * at;
    let w = 2 * cells;
    let need = 6 * cells + 2 * k;
    chain_step::step(
        rows,
        columns,
        epsilon,
        limit,
        &mut sites[from..],
        &mut u[..w],
        &mut vt[..w],
        &mut scratch[..need],
    )
}
