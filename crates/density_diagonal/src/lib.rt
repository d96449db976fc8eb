// The lower half of a density with the diagonal blocks summed without imaginary parts, which are +0.0 there. Inner: densities
// stands on it.
#![tactic(auto)]

ghost use Rattle.std.specs.Prelude.{◌≡◌, true, ◌+◌, ◌*◌, ◌/◌, ◌<◌, ◌≤◌};
ghost use Rattle.components.specs.Every.{every_allowed};
ghost use Rattle.density_entries.specs.Squares.{Square};
ghost use Rattle.density_entries.specs.Blocks.{Reach};
ghost use Rattle.density_entries.specs.Filled.{table_entry, EntriesReady, LowerSteps};
ghost use Rattle.density_diagonal.specs.Corners.{corner_step, CornerSums};
ghost use Rattle.density_diagonal.specs.LeftRows.{across_set, LeftSteps};
ghost use Rattle.density_diagonal.specs.CornerRows.{corner_filled};

use complex::Complex;
use density_entries::Block;

// A diagonal block: the real parts of its two entries on the diagonal, and the entry below them.
#[derive(Clone, Copy)]
pub struct Corner {
    pub first: f64,
    pub between: Complex,
    pub last: f64,
}

impl Corner {
    #[tactic(auto, unfolding(crate::specs::Corners::corner_step))]
    fn step(self, a0: Complex, a1: Complex) -> Corner
        ensures { result ≡ corner_step self a0 a1 }
    {
        Corner {
            first: self.first + a0.norm_sqr(),
            between: self.between.add_term(a1, a0),
            last: self.last + a1.norm_sqr(),
        }
    }
}

// A diagonal block's sums over the submasks of mask, rising.
fn corner_sums(state: &[f64], n: usize, mask: usize, groups: usize, a0: usize, a1: usize) -> Corner
    requires { Reach n state.now mask a0 a1 a0 a1 × (every_allowed state.now ≡ true) }
    ensures { CornerSums n state.now mask groups a0 a1 result }
{
    let zero = Complex::new(0.0, 0.0);
    let mut corner = Corner {
        first: 0.0,
        between: zero,
        last: 0.0,
    };
    let mut base: usize = 0;
    for _ in 0..groups {
        let x0 = complex::read_cell(state, a0 | base);
        let x1 = complex::read_cell(state, a1 | base);
        corner = corner.step(x0, x1);
        base = submasks::next_submask(base, mask);
    }
    corner
}

// The diagonal block of the rows 2t and 2t + 1; its entry above the diagonal is left to the mirror. Until then both real parts
// stand there side by side, so that the back end sums these two in one register and the parts of the entry below in another.
fn fill_corner(
    state: &[f64],
    n: usize,
    mask: usize,
    groups: usize,
    offsets: &[usize],
    dim: usize,
    t: usize,
    out: &mut [f64],
)
    requires entries_ready { EntriesReady n state.now mask offsets.now dim × (every_allowed state.now ≡ true) }
    requires square { Square dim out.old × (2 * t + 1 < dim) }
    ensures { out.new ≡ corner_filled (table_entry n state.now mask groups offsets.now) dim t out.old }
{
    let r = 2 * t;
    let below = r + 1;
    let a0 = offsets[r];
    let a1 = offsets[below];
    let corner = corner_sums(state, n, mask, groups, a0, a1);
    complex::write_cell(out, r * dim + r, Complex::new(corner.first, 0.0));
    let last = Complex::new(corner.last, 0.0);
    density_entries::write_pair(out, dim, below, r, corner.between, last);
    let both = Complex::new(corner.first, corner.last);
    complex::write_cell(out, r * dim + below, both);
}

// The sums of a block of the rows r and r + 1 and the columns c and c + 1, left of the diagonal, in the four cells across it, where the
// mirror writes last: paired so that the back end sums two in one register, whose factors it finds in two rows and two columns each.
fn write_across(out: &mut [f64], dim: usize, r: usize, c: usize, block: Block)
    requires { Square dim out.old × (c + 1 < dim) × (r + 1 < dim) }
    ensures { out.new ≡ across_set out.old dim r c block }
{
    let Block {
        first: p,
        second: q,
        third: s,
        fourth: z,
    } = block;
    let x = Complex::new(p.re, z.re);
    let y = Complex::new(p.im, z.im);
    density_entries::write_pair(out, dim, c, r, x, y);
    let v = Complex::new(q.re, s.re);
    let w = Complex::new(q.im, s.im);
    density_entries::write_pair(out, dim, c + 1, r, v, w);
}

// The rows 2t and 2t + 1 left of the diagonal block, a block at a time.
fn fill_left(
    state: &[f64],
    n: usize,
    mask: usize,
    groups: usize,
    offsets: &[usize],
    dim: usize,
    t: usize,
    out: &mut [f64],
)
    requires entries_ready { EntriesReady n state.now mask offsets.now dim }
    requires square { Square dim out.old × (2 * t + 1 < dim) }
    ensures { LeftSteps dim t (table_entry n state.now mask groups offsets.now) out.old out.new t }
{
    let r = 2 * t;
    let below = r + 1;
    let a0 = offsets[r];
    let a1 = offsets[below];
    for u in 0..t {
        let c = 2 * u;
        let next = c + 1;
        let block = density_entries::block_sums(
            state,
            n,
            mask,
            groups,
            a0,
            a1,
            offsets[c],
            offsets[next],
        );
        density_entries::write_pair(out, dim, r, c, block.first, block.second);
        density_entries::write_pair(out, dim, below, c, block.third, block.fourth);
        write_across(out, dim, r, c, block);
    }
}

// The lower half in blocks, two rows after two.
fn fill_blocks(
    state: &[f64],
    n: usize,
    mask: usize,
    groups: usize,
    offsets: &[usize],
    dim: usize,
    out: &mut [f64],
)
    requires entries_ready { EntriesReady n state.now mask offsets.now dim × (every_allowed state.now ≡ true) }
    requires square { Square dim out.old }
    ensures { LowerSteps dim (table_entry n state.now mask groups offsets.now) out.old out.new (dim / 2) }
{
    for t in 0..dim / 2 {
        fill_left(state, n, mask, groups, offsets, dim, t, out);
        fill_corner(state, n, mask, groups, offsets, dim, t, out);
    }
}

// The lower half: in blocks where it or the register is small, so that filling planes would cost more than it gains, and
// otherwise two rows at a time.
pub fn fill_lower(
    state: &[f64],
    n: usize,
    mask: usize,
    groups: usize,
    offsets: &[usize],
    dim: usize,
    out: &mut [f64],
)
    requires entries_ready { EntriesReady n state.now mask offsets.now dim × (every_allowed state.now ≡ true) }
    requires square { Square dim out.old × (groups * dim ≤ 4096) }
    ensures { LowerSteps dim (table_entry n state.now mask groups offsets.now) out.old out.new (dim / 2) }
{
    if n < 10 || dim < 16 {
        fill_blocks(state, n, mask, groups, offsets, dim, out);
    } else {
        density_rows::fill_lower(state, n, mask, groups, offsets, dim, out);
    }
}
