// Inner: one step of the chain of sites. What is carried has bond rows of 2·columns cells, which are the 2·bond rows, bond·2 + bit, of
// the step's matrix one after another.
#![tactic(auto)]

ghost use Rattle.std.specs.Prelude.{◌≡◌, ◌*◌, ◌≤◌, ◌<◌, min, length, take};
ghost use Rattle.complex.specs.Cells.{cells_of, written};
ghost use Rattle.site_lines.specs.Sources.{site_cell, isometry_cell, scaled_vt_cell};
ghost use Rattle.svd.specs.Svd.{side_of, need_u, need_vt};
ghost use Rattle.chain_step.specs.Step.{columnwise, StepSizes, StepFactors, StepWritten, StepKeeping, StepKept, Stepped};

use answers::Refusal;
use sweeps::Sweeps;

// The rank that a step keeps, whether it drops a value above the resolution, and how its sweeps went.
#[derive(Clone, Copy)]
pub struct Link {
    pub chi: usize,
    pub drops: bool,
    pub sweeps: Sweeps,
}

// The factors of what is carried in u; U comes to its place.
fn factor(
    rows: usize,
    columns: usize,
    u: &mut [f64],
    s: &mut [f64],
    vt: &mut [f64],
    scratch: &mut [f64],
) -> Result<Sweeps, Refusal>
    requires { StepSizes rows columns (length u.old) (length vt.old) (length scratch.old)
        × (length s.old ≡ side_of rows columns) }
    ensures { StepFactors (columnwise u.old rows columns) rows columns result u.new s.new
        vt.new }
{
    let w = 2 * (rows * columns);
    chain_load::load(u, rows, columns, &mut scratch[..w]);
    let k = svd::smaller_size(rows, columns);
    let for_u = 2 * (rows * k);
    let for_vt = 2 * (k * columns);
    svd_loaded::factor_loaded(
        rows,
        columns,
        &mut u[..for_u],
        s,
        &mut vt[..for_vt],
        scratch,
    )
}

// The site out of U at the front of u, and then in its place what is carried on.
#[tactic(auto, using(crate::proofs::StepLaws::rooms))]
fn write_both(
    rows: usize,
    columns: usize,
    chi: usize,
    s: &[f64],
    vt: &[f64],
    site: &mut [f64],
    u: &mut [f64],
)
    requires { StepWritten rows columns chi (length s.now) (length vt.now) (length site.old) (length u.old) }
    ensures { (site.new ≡ written (rows * chi) (site_cell chi (isometry_cell (take (need_u rows columns)
        u.old) rows)) site.old)
        × (take (2 * (columns * chi)) u.new ≡ cells_of (columns * chi) (site_cell columns (scaled_vt_cell s.now
        vt.now columns))) }
{
    let k = svd::smaller_size(rows, columns);
    let for_u = 2 * (rows * k);
    site_lines::fill_isometry(&u[..for_u], rows, rows, chi, site);
    site_lines::fill_scaled_vt(s, vt, columns, columns, chi, u);
}

// The values that are kept, their site, and what is carried on; 9 where a component of that is not allowed.
fn keep(
    rows: usize,
    columns: usize,
    epsilon: f64,
    limit: usize,
    sweeps: Sweeps,
    s: &[f64],
    vt: &[f64],
    site: &mut [f64],
    u: &mut [f64],
) -> Result<Link, Refusal>
    requires { StepKeeping rows columns limit (length s.now) (length vt.now) (length site.old) (length u.old) }
    ensures { StepKept s.now (take (need_u rows columns) u.old)
        vt.now rows columns epsilon limit sweeps site.old result site.new u.new }
{
    let chi = site_ranks::truncated_svd_rank(s, epsilon, limit);
    let drops = site_ranks::discards_resolvable_weight(s, chi);
    write_both(rows, columns, chi, s, vt, site, u);
    let carried = 2 * (columns * chi);
    if components::check_components(&u[..carried]).is_err() {
        return Err(Refusal::NotFinite);
    }
    Ok(Link { chi, drops, sweeps })
}

// One step: the factors of what is carried in u, the site, and in u what is carried on. 9 where a factor is not finite or a component that is
// carried on is not allowed.
pub fn step(
    rows: usize,
    columns: usize,
    epsilon: f64,
    limit: usize,
    site: &mut [f64],
    u: &mut [f64],
    vt: &mut [f64],
    scratch: &mut [f64],
) -> Result<Link, Refusal>
    requires { StepSizes rows columns (length u.old) (length vt.old) (length scratch.old)
        × (2 * (rows * min (side_of rows columns) limit) ≤ length site.old) }
    ensures { Stepped (columnwise u.old rows columns) rows columns epsilon limit site.old result
        site.new u.new }
{
    let k = svd::smaller_size(rows, columns);
    let mut s = [0.0f64; 64];
    let sweeps = factor(rows, columns, u, &mut s[..k], vt, scratch)?;
    let for_vt = 2 * (k * columns);
    keep(
        rows,
        columns,
        epsilon,
        limit,
        sweeps,
        &s[..k],
        &vt[..for_vt],
        site,
        u,
    )
}
