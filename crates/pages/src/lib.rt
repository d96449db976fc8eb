// The two pages of one state, worked out and held against each other.
#![tactic(auto)]

ghost use Rattle.std.specs.Prelude.{◌≡◌, ◌+◌, ◌*◌, ◌/◌, ◌<◌, ◌≤◌};
ghost use Rattle.density_entries.specs.Filled.{table_entry, EntriesReady};
ghost use Rattle.pages.specs.Agree.{same_floats, Says, pages_answer, pages_same, Held};
ghost use Rattle.pages.specs.Blocks.{same_cell, same_block, block_at, same_row, same_rows};

use answers::Refusal;
use complex::Complex;
use density_entries::Block;

// Inner: whether two lists have the same length and the same bits throughout.
pub fn same_floats(a: &[f64], b: &[f64]) -> bool
    ensures { result ≡ same_floats a.now b.now }
{
    if a.len() != b.len() {
        return false;
    }
    for (i, x) in a.iter().enumerate() {
        if bits::bits_of(*x) != bits::bits_of(b[i]) {
            return false;
        }
    }
    true
}

// Whether two cells have the same bits in both parts.
#[tactic(auto, unfolding(crate::specs::Blocks::same_cell))]
fn same_cell(z: Complex, w: Complex) -> bool
    ensures { result ≡ same_cell z w }
{
    bits::bits_of(z.re) == bits::bits_of(w.re) && bits::bits_of(z.im) == bits::bits_of(w.im)
}

// Whether two blocks have the same bits in all four entries.
#[tactic(auto, unfolding(crate::specs::Blocks::same_block))]
fn same_block(a: Block, b: Block) -> bool
    ensures { result ≡ same_block a b }
{
    (same_cell(a.first, b.first) && same_cell(a.second, b.second))
        && (same_cell(a.third, b.third) && same_cell(a.fourth, b.fourth))
}

// The block of the rows 2t and 2t + 1 and the columns 2u and 2u + 1, by a table of offsets.
fn block_at(
    state: &[f64],
    n: usize,
    mask: usize,
    groups: usize,
    offsets: &[usize],
    dim: usize,
    t: usize,
    u: usize,
) -> Block
    requires { EntriesReady n state.now mask offsets.now dim × (dim ≤ 64) × (2 * t + 1 < dim) × (2 * u + 1 < dim) }
    ensures { result ≡ block_at (table_entry n state.now mask groups offsets.now) t u }
{
    let r = 2 * t;
    let below = r + 1;
    let c = 2 * u;
    let next = c + 1;
    density_entries::block_sums(
        state,
        n,
        mask,
        groups,
        offsets[r],
        offsets[below],
        offsets[c],
        offsets[next],
    )
}

// The rows 2t and 2t + 1 up to the diagonal, from the state and from its cut matrix.
fn same_row(
    state: &[f64],
    matrix: &[f64],
    n: usize,
    rest: usize,
    mask: usize,
    groups: usize,
    offsets: &[usize],
    table: &[usize],
    dim: usize,
    t: usize,
) -> bool
    requires entries_ready { EntriesReady n state.now rest offsets.now dim × EntriesReady n matrix.now mask table.now dim }
    requires dim_bound { (dim ≤ 64) × (2 * t + 1 < dim) }
    ensures { result ≡ same_row (table_entry n state.now rest groups offsets.now)
        (table_entry n matrix.now mask groups table.now) t (t + 1) }
{
    let mut yes = true;
    for u in 0..t + 1 {
        let a = block_at(state, n, rest, groups, offsets, dim, t, u);
        let b = block_at(matrix, n, mask, groups, table, dim, t, u);
        yes = yes && same_block(a, b);
    }
    yes
}

// The lower half.
fn same_rows(
    state: &[f64],
    matrix: &[f64],
    n: usize,
    rest: usize,
    mask: usize,
    groups: usize,
    offsets: &[usize],
    table: &[usize],
    dim: usize,
) -> bool
    requires entries_ready { EntriesReady n state.now rest offsets.now dim × EntriesReady n matrix.now mask table.now dim }
    requires dim_bound { dim ≤ 64 }
    ensures { result ≡ same_rows (table_entry n state.now rest groups offsets.now)
        (table_entry n matrix.now mask groups table.now) (dim / 2) }
{
    let mut yes = true;
    for t in 0..dim / 2 {
        yes = yes && same_row(state, matrix, n, rest, mask, groups, offsets, table, dim, t);
    }
    yes
}

// The density of the state and the one summed from its cut matrix alone, held against each other a block at a time, so that neither is
// laid out.
fn same_densities(state: &[f64], matrix: &[f64], n: usize, list: &[usize]) -> bool
    requires { Held state.now matrix.now n list.now }
    ensures { result ≡ pages_same state.now n list.now }
{
    let k = list.len();
    let dim = submasks::bit(k);
    let groups = submasks::bit(n - k);
    let size = submasks::bit(n);
    let named = qubits::mask_of(list, n);
    let s = cut_sides::sides_of(list, n);
    let z = density_recount::layout_of(s.named, s.rows, size);
    let mut offsets = [0usize; 64];
    qubit_offsets::fill_offsets(list, n, dim, &mut offsets);
    let mut table = [0usize; 64];
    density_recount::fill_numbers(list, n, named, z.scale, dim, &mut table);
    let rest = size - 1 - named;
    same_rows(
        state, matrix, n, rest, z.mask, groups, &offsets, &table, dim,
    )
}

// Whether the two pages of a state agree: its density, and the density summed from its cut matrix alone. Refused as the cut and the density
// are, with the sizes of both first; always yes where it is not.
pub fn pages_agree(state: &[f64], n: usize, list: &[usize], cap: usize) -> Result<bool, Refusal>
    ensures { Says (pages_answer state.now n list.now cap) (pages_same state.now n list.now) result }
{
    density_recount::recount_size(n, list.len(), cap)?;
    let mut matrix = [0.0; 8192];
    cuts::cut_matrix(state, n, list, cap, &mut matrix)?;
    Ok(same_densities(state, &matrix[..state.len()], n, list))
}
