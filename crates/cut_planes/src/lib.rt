// Inner: the work matrix of the sweeps of a cut, gathered from the state as planes: the cut matrix, or its conjugate
// transpose where it is wider than tall.
#![tactic(auto)]

ghost use Rattle.std.specs.Prelude.{◌≡◌, ◌*◌, ◌^◌, length};
ghost use Rattle.complex.specs.Cells.{cells_of};
ghost use Rattle.cuts.specs.Cut.{cell_of, CutReady, ColumnReady};
ghost use Rattle.svd_load.specs.Loading.{planes_of, planes_to};
ghost use Rattle.svd.specs.Svd.{work_of};
ghost use Rattle.cut_planes.specs.CutPlanes.{shown, work_cell, column_cell};

use complex::Complex;
use cut_sides::Sides;

// A cell, or its conjugate.
#[tactic(auto, unfolding(crate::specs::CutPlanes::shown))]
fn show(z: Complex, conjugated: bool) -> Complex
    ensures { result ≡ shown conjugated z }
{
    if conjugated { z.conj() } else { z }
}

// One column, from the cell `at` on: `bits` is its submask, and its cells go over the submasks of `inner`.
fn fill_column(
    state: &[f64],
    n: usize,
    inner: usize,
    count: usize,
    bits: usize,
    at: usize,
    conjugated: bool,
    work: &mut [f64],
)
    requires { ColumnReady n inner count bits at state.now work.old }
    ensures { work.new ≡ planes_to (2 ^ n) (column_cell n inner bits at conjugated state.now) at count work.old }
{
    let cells = submasks::bit(n);
    let mut inner_bits = 0;
    for j in 0..count {
        let z = complex::read_cell(state, inner_bits | bits);
        complex::write_plane(work, cells, at + j, show(z, conjugated));
        inner_bits = submasks::next_submask(inner_bits, inner);
    }
}

// The state's cells, column after column, over the submasks of `outer`.
fn fill_planes(
    state: &[f64],
    n: usize,
    inner: usize,
    outer: usize,
    count: usize,
    columns: usize,
    conjugated: bool,
    work: &mut [f64],
)
    requires { CutReady n inner outer count columns state.now work.old × (length work.old ≡ 2 * 2 ^ n) }
    ensures { work.new ≡ planes_of (2 ^ n) (work_cell n inner outer count conjugated state.now) }
{
    let mut bits = 0;
    for c in 0..columns {
        fill_column(state, n, inner, count, bits, c * count, conjugated, work);
        bits = submasks::next_submask(bits, outer);
    }
}

// The work matrix of a cut whose sides are given: a wide one's columns are the rows' submasks.
pub fn gather_work(state: &[f64], n: usize, cut: Sides, work: &mut [f64])
    requires { CutReady n cut.row cut.column cut.rows cut.columns state.now work.old × (length work.old ≡ 2 * 2 ^ n) }
    ensures { work.new ≡ work_of (cells_of (2 ^ n) (cell_of n cut.row cut.column cut.rows state.now)) cut.rows cut.columns }
{
    if cut.rows < cut.columns {
        fill_planes(
            state,
            n,
            cut.column,
            cut.row,
            cut.columns,
            cut.rows,
            true,
            work,
        );
    } else {
        fill_planes(
            state,
            n,
            cut.row,
            cut.column,
            cut.rows,
            cut.columns,
            false,
            work,
        );
    }
}
