// The cut matrix of a state.
#![tactic(auto)]

ghost use Rattle.std.specs.Prelude.{◌≡◌, ℕ, ◌*◌, ◌^◌, ◌≤◌};
ghost use Rattle.std.specs.Int.Bits.{bit_or};
ghost use Rattle.answers.specs.Paper.{paper};
ghost use Rattle.submasks.specs.Submasks.{submask_at};
ghost use Rattle.complex.specs.Cells.{cell_at, written};
ghost use Rattle.cut_sides.specs.Sides.{Sided};
ghost use Rattle.cuts.specs.Cut.{cell_of, cut_lengths, set_cells, CutMatrix, CutOver, CutReady, ColumnReady};

use answers::Refusal;
use cut_sides::Sides;

// Answer 6 of a cut: the numbers of the state and of the matrix.
fn cut_lengths(n: usize, state: usize, out: usize) -> Result<(), Refusal>
    requires { n ≤ 12 }
    ensures { paper result ≡ cut_lengths n state out }
{
    let need = 2 * submasks::bit(n);
    if state != need {
        return Err(Refusal::Length(0));
    }
    if out < need {
        return Err(Refusal::Length(2));
    }
    Ok(())
}

// One column, from the cell `at` on: `bits` is its submask.
fn fill_column(
    state: &[f64],
    n: usize,
    row: usize,
    rows: usize,
    bits: usize,
    at: usize,
    out: &mut [f64],
)
    requires { ColumnReady n row rows bits at state.now out.old }
    ensures { out.new ≡ set_cells at (λ (j : ℕ). cell_at state.now (bit_or (submask_at n row j) bits)) rows out.old }
{
    let mut row_bits: usize = 0;
    for j in 0..rows {
        let z = complex::read_cell(state, row_bits | bits);
        complex::write_cell(out, at + j, z);
        row_bits = submasks::next_submask(row_bits, row);
    }
}

// The state's cells, column after column.
fn fill_cut(
    state: &[f64],
    n: usize,
    row: usize,
    column: usize,
    rows: usize,
    columns: usize,
    out: &mut [f64],
)
    requires { CutReady n row column rows columns state.now out.old }
    ensures { out.new ≡ written (2 ^ n) (cell_of n row column rows state.now) out.old }
{
    let mut at: usize = 0;
    let mut bits: usize = 0;
    for _ in 0..columns {
        fill_column(state, n, row, rows, bits, at, out);
        bits = submasks::next_submask(bits, column);
        at += rows;
    }
}

// Inner: the matrix over the sides of an accepted cut, from a list or kept in a plan: refused by 6 and 7.
pub fn cut_over(state: &[f64], n: usize, cut: Sides, out: &mut [f64]) -> Result<(), Refusal>
    requires { Sided n cut }
    ensures { CutOver state.now n cut out.old result out.new }
{
    cut_lengths(n, state.len(), out.len())?;
    components::check_components(state)?;
    fill_cut(state, n, cut.row, cut.column, cut.rows, cut.columns, out);
    Ok(())
}

// The cut matrix of a state: refused by 1 to 7, else it stands at the front of out.
pub fn cut_matrix(
    state: &[f64],
    n: usize,
    list: &[usize],
    cap: usize,
    out: &mut [f64],
) -> Result<(), Refusal>
    ensures { CutMatrix state.now n list.now cap out.old result out.new }
{
    cut_sides::cut_refusal(list, n, cap)?;
    let cut = cut_sides::sides_of(list, n);
    cut_over(state, n, cut, out)
}
