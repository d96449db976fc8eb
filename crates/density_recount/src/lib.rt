// Page two from page one: the density summed from a lent cut matrix alone.
#![tactic(auto)]

ghost use Rattle.std.specs.Prelude.{◌≡◌, Bool, ◌*◌, ◌^◌, ◌≤◌, ◌<◌, length};
ghost use Rattle.answers.specs.Paper.{paper};
ghost use Rattle.submasks.specs.Submasks.{submask_number};
ghost use Rattle.qubits.specs.Lists.{Listed};
ghost use Rattle.qubits.specs.Spread.{named};
ghost use Rattle.density_recount.specs.Recount.{recount_sizes, recount_lengths, recount_answer, recounted, DensityFromCut, layout_of, RecountAccepted, Numbers};

use answers::Refusal;

// Inner. Answer 1: the register, then a cut's n+1 and a density's 2k against the cap.
pub fn recount_size(n: usize, k: usize, cap: usize) -> Result<(), Refusal>
    ensures { paper result ≡ recount_sizes n k cap }
{
    if n < 1 || 12 < n || cap < n + 1 || 6 < k || cap < 2 * k {
        return Err(Refusal::Size);
    }
    Ok(())
}

// Answer 6: the matrix, slice 0, is exact; out, slice 2, may be longer.
fn recount_lengths(size: usize, dim: usize, matrix: usize, out: usize) -> Result<(), Refusal>
    requires { (size ≤ 4096) × (dim ≤ 64) }
    ensures { paper result ≡ recount_lengths size dim matrix out }
{
    if matrix != 2 * size {
        return Err(Refusal::Length(0));
    }
    if out < 2 * (dim * dim) {
        return Err(Refusal::Length(2));
    }
    Ok(())
}

// The number of the submask x & mask among the submasks of the mask, rising: the bits of x that the mask has, packed.
fn number_in(x: usize, mask: usize, n: usize) -> usize
    requires { n ≤ 12 }
    ensures { result ≡ submask_number n mask x }
{
    let mut number: usize = 0;
    for q in (0..n).rev() {
        if (mask >> q) & 1 == 1 {
            number = number * 2 + ((x >> q) & 1);
        }
    }
    number
}

// Where the traced index lies in a cell's number, and by what a setting's number is scaled.
#[derive(Clone, Copy)]
pub struct Layout {
    pub mask: usize,
    pub scale: usize,
}

// Inner. The layout of a matrix of `size` cells, whose rows are the named qubits' or the others'.
pub fn layout_of(named: bool, rows: usize, size: usize) -> Layout
    requires { (1 ≤ rows) × (rows ≤ size) }
    ensures { result ≡ layout_of named rows size }
{
    if named {
        Layout {
            mask: size - rows,
            scale: 1,
        }
    } else {
        Layout {
            mask: rows - 1,
            scale: rows,
        }
    }
}

// Inner. The table of the settings' numbers, scaled, of the t below dim.
pub fn fill_numbers(
    list: &[usize],
    n: usize,
    mask: usize,
    scale: usize,
    dim: usize,
    table: &mut [usize],
)
    requires listed { Listed n list.now }
    requires mask_value { (mask ≡ named list.now) × (scale ≤ 4096) × (dim ≤ length table.old) }
    ensures { Numbers list.now n scale dim table.old table.new dim }
{
    for t in 0..dim {
        table[t] = number_in(qubits::row_offset(list, n, t), mask, n) * scale;
    }
}

// Inner. The density at the front of out: the cut matrix is read as a state whose bits are the matrix's rows and columns.
pub fn sum_from_cut(matrix: &[f64], n: usize, list: &[usize], out: &mut [f64])
    requires { RecountAccepted matrix.now n list.now (length out.old) }
    ensures { out.new ≡ recounted n list.now matrix.now out.old }
{
    let k = list.len();
    let s = cut_sides::sides_of(list, n);
    let z = layout_of(s.named, s.rows, submasks::bit(n));
    let dim = submasks::bit(k);
    let groups = submasks::bit(n - k);
    let mask = qubits::mask_of(list, n);
    let mut table = [0usize; 64];
    fill_numbers(list, n, mask, z.scale, dim, &mut table);
    density_entries::fill_lower(matrix, n, z.mask, groups, &table, dim, out);
    density_entries::mirror(out, dim);
}

// Answers 1 to 7 where out has so many numbers.
fn recount_answer(
    matrix: &[f64],
    n: usize,
    list: &[usize],
    cap: usize,
    out: usize,
) -> Result<(), Refusal>
    ensures { paper result ≡ recount_answer matrix.now n list.now cap out }
{
    let k = list.len();
    recount_size(n, k, cap)?;
    qubits::validate_subsystem(list, n)?;
    recount_lengths(submasks::bit(n), submasks::bit(k), matrix.len(), out)?;
    components::check_components(matrix)
}

// The unscaled density of the listed qubits, summed from their cut matrix alone: refused as the cut and the density are, by 1 to 7.
pub fn density_from_cut(
    matrix: &[f64],
    n: usize,
    list: &[usize],
    cap: usize,
    out: &mut [f64],
) -> Result<(), Refusal>
    ensures { DensityFromCut matrix.now n list.now cap out.old result out.new }
{
    recount_answer(matrix, n, list, cap, out.len())?;
    sum_from_cut(matrix, n, list, out);
    Ok(())
}
