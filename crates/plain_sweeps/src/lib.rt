// Inner: the sweeps of the SVD, tried without the products by zeros first. Where every number that they leave is finite and no zero, they
// are the sweeps of 01 (`plain-is-exact`); else these are done from a copy.
#![tactic(auto)]

ghost use Rattle.std.specs.Prelude.{◌≡◌, ◌*◌, length, take};
ghost use Rattle.svd_load.specs.Loading.{unit_planes};
ghost use Rattle.sweeps.specs.Sweeping.{state};
ghost use Rattle.svd_pair.specs.Plain.{making};
ghost use Rattle.svd_sweeps.specs.Sweeping.{SvdRoom, settled_with};
ghost use Rattle.plain_sweeps.specs.Trial.{PlainRoom, Swept, Tried};

use sweeps::Sweeps;

// From this many columns on a trial gains more than its copy and its tests cost.
const FEWEST: usize = 8;

// V starts as the unit matrix; the sweeps turn both.
fn from_unit(work: &mut [f64], v: &mut [f64], rows: usize, side: usize, plain: bool) -> Sweeps
    requires { SvdRoom rows side (length work.old) (length v.old) }
    ensures { state work.new v.new result ≡ settled_with (making plain) rows side work.old (unit_planes side) }
{
    svd_load::unit(v, side);
    svd_sweeps::settle(work, v, rows, side, plain)
}

// The sweeps of the work matrix at the front of scratch, as 01 has them.
fn exactly(scratch: &mut [f64], v: &mut [f64], rows: usize, side: usize) -> Sweeps
    requires { PlainRoom rows side (length scratch.old) (length v.old) }
    ensures { Swept rows side (take (2 * (side * rows)) scratch.old) result scratch.new v.new }
{
    let w = 2 * (side * rows);
    from_unit(&mut scratch[..w], v, rows, side, false)
}

// The plain sweeps of the work matrix at the front of scratch, which is kept behind it: how they went, where they are 01's.
fn attempt(scratch: &mut [f64], v: &mut [f64], rows: usize, side: usize) -> Option<Sweeps>
    requires { PlainRoom rows side (length scratch.old) (length v.old) }
    ensures { Tried rows side (take (2 * (side * rows)) scratch.old) result scratch.new v.new }
{
    let w = 2 * (side * rows);
    clean_numbers::copy_behind(scratch, w);
    let sweeps = from_unit(&mut scratch[..w], v, rows, side, true);
    if clean_numbers::all_clean(&scratch[..w]) && clean_numbers::all_clean(v) {
        return Some(sweeps);
    }
    None
}

// Whether a trial is worth its while: many columns, and no zero to begin with. Nothing is promised.
fn promising(work: &[f64], side: usize) -> bool {
    side >= FEWEST && clean_numbers::all_clean(work)
}

// The sweeps of the work matrix at the front of scratch, with V from the unit matrix on.
pub fn sweep(scratch: &mut [f64], v: &mut [f64], rows: usize, side: usize) -> Sweeps
    requires { PlainRoom rows side (length scratch.old) (length v.old) }
    ensures { Swept rows side (take (2 * (side * rows)) scratch.old) result scratch.new v.new }
{
    let w = 2 * (side * rows);
    if !promising(&scratch[..w], side) {
        return exactly(scratch, v, rows, side);
    }
    if let Some(sweeps) = attempt(scratch, v, rows, side) {
        return sweeps;
    }
    clean_numbers::copy_back(scratch, w);
    exactly(scratch, v, rows, side)
}
