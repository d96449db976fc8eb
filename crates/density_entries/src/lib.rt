// The entries of a density. Inner: densities and agreement stand on it.
#![tactic(auto)]

ghost use Rattle.std.specs.Prelude.{◌≡◌, ◌+◌, ◌*◌, ◌/◌, ◌<◌, ◌≤◌, length};
ghost use Rattle.density_entries.specs.Squares.{mirrored, Square};
ghost use Rattle.density_entries.specs.Blocks.{block_step, block_sums, Reach};
ghost use Rattle.density_entries.specs.Pairs.{set_pair};
ghost use Rattle.density_entries.specs.Filled.{table_entry, EntriesReady, PairSteps, LowerSteps};
ghost use Rattle.density_entries.specs.Mirrored.{ColumnSteps};

use complex::Complex;

// Four entries, two rows by two columns, row after row.
#[derive(Clone, Copy)]
pub struct Block {
    pub first: Complex,
    pub second: Complex,
    pub third: Complex,
    pub fourth: Complex,
}

impl Block {
    #[tactic(auto, unfolding(crate::specs::Blocks::block_step))]
    fn step(self, a0: Complex, a1: Complex, b0: Complex, b1: Complex) -> Block
        ensures { result ≡ block_step self a0 a1 b0 b1 }
    {
        Block {
            first: self.first.add_term(a0, b0),
            second: self.second.add_term(a0, b1),
            third: self.third.add_term(a1, b0),
            fourth: self.fourth.add_term(a1, b1),
        }
    }
}

// Four entries' sums over the submasks of mask, rising.
pub fn block_sums(
    state: &[f64],
    n: usize,
    mask: usize,
    groups: usize,
    a0: usize,
    a1: usize,
    b0: usize,
    b1: usize,
) -> Block
    requires { Reach n state.now mask a0 a1 b0 b1 }
    ensures { result ≡ block_sums n state.now mask groups a0 a1 b0 b1 }
{
    let zero = Complex::new(0.0, 0.0);
    let mut block = Block {
        first: zero,
        second: zero,
        third: zero,
        fourth: zero,
    };
    let mut base: usize = 0;
    for _ in 0..groups {
        let x0 = complex::read_cell(state, a0 | base);
        let x1 = complex::read_cell(state, a1 | base);
        let y0 = complex::read_cell(state, b0 | base);
        let y1 = complex::read_cell(state, b1 | base);
        block = block.step(x0, x1, y0, y1);
        base = submasks::next_submask(base, mask);
    }
    block
}

// The entries of row r and the columns c and c + 1.
pub fn write_pair(out: &mut [f64], dim: usize, r: usize, c: usize, x: Complex, y: Complex)
    requires { Square dim out.old × (r < dim) × (c + 1 < dim) }
    ensures { out.new ≡ set_pair out.old dim r c x y }
{
    let at = r * dim + c;
    complex::write_cell(out, at, x);
    complex::write_cell(out, at + 1, y);
}

// The rows 2t and 2t + 1 up to the diagonal, a block at a time. What a block has above it is left to the mirror.
fn fill_row_pair(
    state: &[f64],
    n: usize,
    mask: usize,
    groups: usize,
    offsets: &[usize],
    dim: usize,
    t: usize,
    out: &mut [f64],
)
    requires entries_ready { EntriesReady n state.now mask offsets.now dim }
    requires square { Square dim out.old × (2 * t + 1 < dim) }
    ensures { PairSteps dim t (table_entry n state.now mask groups offsets.now) out.old out.new (t + 1) }
{
    let r = 2 * t;
    let below = r + 1;
    let a0 = offsets[r];
    let a1 = offsets[below];
    for u in 0..t + 1 {
        let c = 2 * u;
        let next = c + 1;
        let block = block_sums(state, n, mask, groups, a0, a1, offsets[c], offsets[next]);
        write_pair(out, dim, r, c, block.first, block.second);
        write_pair(out, dim, below, c, block.third, block.fourth);
    }
}

// The lower half, two rows at a time.
pub fn fill_lower(
    state: &[f64],
    n: usize,
    mask: usize,
    groups: usize,
    offsets: &[usize],
    dim: usize,
    out: &mut [f64],
)
    requires entries_ready { EntriesReady n state.now mask offsets.now dim }
    requires square { Square dim out.old }
    ensures { LowerSteps dim (table_entry n state.now mask groups offsets.now) out.old out.new (dim / 2) }
{
    for t in 0..dim / 2 {
        fill_row_pair(state, n, mask, groups, offsets, dim, t, out);
    }
}

// The column t above the diagonal becomes the conjugate of the row t before it.
fn mirror_column(rho: &mut [f64], dim: usize, t: usize)
    requires { Square dim rho.old × (t < dim) }
    ensures { ColumnSteps dim t rho.old rho.new t }
{
    for u in 0..t {
        let z = complex::read_cell(rho, t * dim + u);
        complex::write_cell(rho, u * dim + t, z.conj());
    }
}

// The upper half becomes the conjugate of the lower, inner: nothing is refused.
pub fn mirror(rho: &mut [f64], dim: usize)
    requires { Square dim rho.old }
    ensures { rho.new ≡ mirrored rho.old dim }
{
    for t in 0..dim {
        mirror_column(rho, dim, t);
    }
}
