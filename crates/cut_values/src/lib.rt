// The Schmidt values of a cut of a state: the singular values of its cut matrix, and then the finish.
#![tactic(auto)]

ghost use Rattle.std.specs.Prelude.{◌≡◌, [], ◌+◌, ◌*◌, ◌^◌, ◌≤◌, length};
ghost use Rattle.answers.specs.Paper.{paper};
ghost use Rattle.sweeps.specs.Sweeping as sweeping;
ghost use Rattle.svd_pair.specs.Plain.{making};
ghost use Rattle.svd_sweeps.specs.Sweeping.{settled_with};
ghost use Rattle.svd.specs.Svd.{work_of};
ghost use Rattle.cut_sides.specs.Sides.{Sided};
ghost use Rattle.cut_values.specs.Schmidt.{cut_values_lengths, cut_values_rest, norms_after, singular_of, sweeps_of, columns_exact_of, CutValuesSized, sides_matrix, CutValuesSettled, CutValuesFinished, CutValuesMade, CutValuesWorked, Schmidt, SchmidtOver};

use answers::Refusal;
use cut_sides::Sides;
use finish::Finished;
use sweeps::Sweeps;

// From this many rows on the plain sweeps gain more than the test of what they leave costs.
const FEWEST: usize = 8;

// How many values were kept, the sweeps, and whether every root of a column's norm and the root of the final scale came out even.
#[derive(Clone, Copy)]
pub struct CutCounted {
    pub count: usize,
    pub sweeps: Sweeps,
    pub exact: bool,
}

// Inner. How the sweeps went, and whether every root of a column's norm came out even.
#[derive(Clone, Copy)]
pub struct SweptNorms {
    pub sweeps: Sweeps,
    pub exact: bool,
}

// The first slice of a wrong length, or too short: 6.
#[tactic(auto, unfolding(crate::specs::Schmidt::cut_values_lengths))]
fn check_lengths(
    n: usize,
    rows: usize,
    state: usize,
    out: usize,
    scratch: usize,
) -> Result<(), Refusal>
    requires { (n ≤ 12) × (rows ≤ 64) }
    ensures { paper result ≡ cut_values_lengths n rows state out scratch }
{
    let cells = submasks::bit(n);
    if state != 2 * cells {
        return Err(Refusal::Length(0));
    }
    if out < rows {
        return Err(Refusal::Length(2));
    }
    if scratch < 8 * cells + 2 * rows {
        return Err(Refusal::Length(3));
    }
    Ok(())
}

// What a cut can be refused by once its sides are known: 6 and 7.
#[tactic(auto, unfolding(crate::specs::Schmidt::cut_values_rest))]
fn check(state: &[f64], n: usize, rows: usize, out: usize, scratch: usize) -> Result<(), Refusal>
    requires { (n ≤ 12) × (rows ≤ 64) }
    ensures { paper result ≡ cut_values_rest state.now n rows out scratch }
{
    check_lengths(n, rows, state.len(), out, scratch)?;
    components::check_components(state)
}

// The cut's work matrix after the sweeps, which need no V; plain: without the products by zeros.
fn settle_work(state: &[f64], n: usize, cut: Sides, work: &mut [f64], plain: bool) -> Sweeps
    requires { CutValuesSized n cut state.now × (length work.old ≡ 2 * 2 ^ n) }
    ensures { sweeping.state work.new [] result
        ≡ settled_with (making plain) cut.columns cut.rows (work_of (sides_matrix state.now n cut) cut.rows cut.columns) [] }
{
    cut_planes::gather_work(state, n, cut, work);
    svd_sweeps::settle_alone(work, cut.columns, cut.rows, plain)
}

// The same, tried plainly first: where every number that is left is finite, the columns have the norms and the sweeps the counts of the
// exact sweeps (`plain-alike-alone`, `norms-alike`); else these are done on the matrix gathered anew.
fn settle_tried(state: &[f64], n: usize, cut: Sides, work: &mut [f64]) -> Sweeps
    requires { CutValuesSized n cut state.now × (length work.old ≡ 2 * 2 ^ n) }
    ensures { CutValuesSettled state.now n cut work.new result }
{
    if cut.rows < FEWEST {
        return settle_work(state, n, cut, work, false);
    }
    let sweeps = settle_work(state, n, cut, work, true);
    if values::all_finite(work) {
        return sweeps;
    }
    settle_work(state, n, cut, work, false)
}

// The norms of the work matrix's columns after the sweeps.
fn sweep(state: &[f64], n: usize, cut: Sides, work: &mut [f64], norms: &mut [f64]) -> SweptNorms
    requires { CutValuesSized n cut state.now × (length work.old ≡ 2 * 2 ^ n) × (length norms.old ≡ cut.rows) }
    ensures { (norms.new ≡ norms_after state.now n cut) × (result.sweeps ≡ sweeps_of state.now n cut)
        × (result.exact ≡ columns_exact_of state.now n cut) }
{
    let sweeps = settle_tried(state, n, cut, work);
    let exact = svd_columns::norms_marked(work, cut.columns, cut.rows, norms);
    SweptNorms { sweeps, exact }
}

// Inner. The singular values of the cut matrix, falling. Scratch holds the work matrix, and after it the order.
pub fn singular_values(
    state: &[f64],
    n: usize,
    cut: Sides,
    values: &mut [f64],
    scratch: &mut [f64],
) -> SweptNorms
    requires { CutValuesSized n cut state.now × (length values.old ≡ cut.rows) × (2 * 2 ^ n ≤ length scratch.old) }
    ensures { (values.new ≡ singular_of state.now n cut) × (result.sweeps ≡ sweeps_of state.now n cut)
        × (result.exact ≡ columns_exact_of state.now n cut) }
{
    let rows = cut.rows;
    let all = 2 * submasks::bit(n);
    let mut norms = [0.0f64; 64];
    let swept = sweep(state, n, cut, &mut scratch[..all], &mut norms[..rows]);
    svd_thin::sort(&norms[..rows], rows, values, &mut scratch[..rows]);
    swept
}

// 9 where a singular value is not finite, before any floor is taken; else the finish decides.
fn finish_finite(values: &[f64], out: &mut [f64]) -> Result<Finished, Refusal>
    requires { length values.now ≤ length out.old }
    ensures { CutValuesFinished values.now out.old result out.new }
{
    if values::all_finite(values) {
        return finish::finish_marked(values, out);
    }
    complex::zero_first(out, values.len());
    Err(Refusal::NotFinite)
}

// Inner: the work of an accepted call, which leaves scratch as it comes: 0, 8 or 9.
pub fn values_made(
    state: &[f64],
    n: usize,
    cut: Sides,
    out: &mut [f64],
    scratch: &mut [f64],
) -> Result<CutCounted, Refusal>
    requires { CutValuesSized n cut state.now × (cut.rows ≤ length out.old) × (2 * 2 ^ n ≤ length scratch.old) }
    ensures { CutValuesMade state.now n cut out.old result out.new }
{
    let rows = cut.rows;
    let mut values = [0.0f64; 64];
    let swept = singular_values(state, n, cut, &mut values[..rows], scratch);
    let kept = finish_finite(&values[..rows], out)?;
    Ok(CutCounted {
        count: kept.count,
        sweeps: swept.sweeps,
        exact: swept.exact & kept.exact,
    })
}

// The same over scratch of exactly the needed length, which is zeroed.
fn work(
    state: &[f64],
    n: usize,
    cut: Sides,
    out: &mut [f64],
    scratch: &mut [f64],
) -> Result<CutCounted, Refusal>
    requires { CutValuesSized n cut state.now × (cut.rows ≤ length out.old) × (length scratch.old ≡ 8 * 2 ^ n + 2 * cut.rows) }
    ensures { CutValuesWorked state.now n cut out.old result out.new scratch.new }
{
    let made = values_made(state, n, cut, out, scratch);
    complex::zero_first(scratch, scratch.len());
    made
}

// Inner: the values over the sides of an accepted cut, from a list or kept in a plan: 6 and 7, then 0, 8 or 9 by the work on the needed
// part of scratch.
pub fn values_over(
    state: &[f64],
    n: usize,
    cut: Sides,
    out: &mut [f64],
    scratch: &mut [f64],
) -> Result<CutCounted, Refusal>
    requires { Sided n cut }
    ensures { SchmidtOver state.now n cut out.old scratch.old result out.new scratch.new }
{
    check(state, n, cut.rows, out.len(), scratch.len())?;
    let need = 8 * submasks::bit(n) + 2 * cut.rows;
    work(state, n, cut, out, &mut scratch[..need])
}

// The Schmidt values of the cut at the front of out, how many they are, how the sweeps went, and the mark of the roots.
pub fn dense_schmidt_values(
    state: &[f64],
    n: usize,
    list: &[usize],
    cap: usize,
    out: &mut [f64],
    scratch: &mut [f64],
) -> Result<CutCounted, Refusal>
    ensures { Schmidt state.now n list.now cap out.old scratch.old result
        out.new scratch.new }
{
    cut_sides::cut_refusal(list, n, cap)?;
    let cut = cut_sides::sides_of(list, n);
    values_over(state, n, cut, out, scratch)
}
