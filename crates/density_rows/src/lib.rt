// The lower half of a density, two rows at a time over amplitudes in planes. Inner: diagonals stands on it.
#![tactic(auto)]

ghost use Rattle.std.specs.Prelude.{◌≡◌, ◌+◌, ◌*◌, ◌/◌, ◌%◌, ◌<◌, ◌≤◌, length, get_or};
ghost use Rattle.complex.specs.Planes.{plane_at};
ghost use Rattle.density_entries.specs.Squares.{Square};
ghost use Rattle.density_entries.specs.Filled.{table_entry, EntriesReady, PairSteps, LowerSteps};
ghost use Rattle.density_rows.specs.Gathered.{amplitude_of, reach, OneSteps, Gathered};
ghost use Rattle.density_rows.specs.TwoRows.{TermSteps};
ghost use Rattle.density_rows.specs.RowSums.{plane_entry, ZeroSums, PairSums, RowSumSteps};

// The amplitudes of the traced index whose base is base: row t's becomes the cell at + t of the planes.
fn gather_one(
    state: &[f64],
    n: usize,
    offsets: &[usize],
    dim: usize,
    base: usize,
    at: usize,
    planes: &mut [f64],
)
    requires dim_in_bounds { (dim ≤ length offsets.now) × ((t : _) → t < dim → reach n state.now (get_or offsets.now t 0) base) }
    requires dim_bound { (at + dim ≤ 4096) × (length planes.old ≡ 8192) }
    ensures { OneSteps state.now offsets.now base at planes.old planes.new dim }
{
    for t in 0..dim {
        let z = complex::read_cell(state, offsets[t] | base);
        complex::write_plane(planes, 4096, at + t, z);
    }
}

// Every amplitude: that of row t and traced index e becomes the cell e * dim + t of the planes.
fn gather(
    state: &[f64],
    n: usize,
    mask: usize,
    groups: usize,
    offsets: &[usize],
    dim: usize,
    planes: &mut [f64],
)
    requires entries_ready { EntriesReady n state.now mask offsets.now dim }
    requires dim_bound { (groups * dim ≤ 4096) × (length planes.old ≡ 8192) }
    ensures { Gathered (amplitude_of n state.now mask offsets.now) dim planes.new groups }
{
    let mut base: usize = 0;
    for e in 0..groups {
        gather_one(state, n, offsets, dim, base, e * dim, planes);
        base = submasks::next_submask(base, mask);
    }
}

// One more term to the first m sums of the rows r and r + 1, the first row's from cell 0 of sums on, the next one's from 64.
fn add_terms(planes: &[f64], at: usize, r: usize, m: usize, sums: &mut [f64])
    requires planes_len { (length planes.now ≡ 8192) × (length sums.old ≡ 256) }
    requires m_bound { (at + m ≤ 4096) × (r + 1 < m) × (m ≤ 64) }
    ensures { TermSteps planes.now at r sums.old sums.new m }
{
    let here = at + r;
    let a0 = complex::read_plane(planes, 4096, here);
    let a1 = complex::read_plane(planes, 4096, here + 1);
    for u in 0..m {
        let b = complex::read_plane(planes, 4096, at + u);
        let below = 64 + u;
        let p = complex::read_plane(sums, 128, u);
        let q = complex::read_plane(sums, 128, below);
        complex::write_plane(sums, 128, u, p.add_term(a0, b));
        complex::write_plane(sums, 128, below, q.add_term(a1, b));
    }
}

// The sums of the rows r and r + 1 left of column m, over every traced index.
fn pair_sums(planes: &[f64], groups: usize, dim: usize, r: usize, m: usize, sums: &mut [f64])
    requires planes_len { (length planes.now ≡ 8192) × (groups * dim ≤ 4096) × ZeroSums sums.old }
    requires r_bound { (r + 1 < m) × (m ≤ dim) × (m ≤ 64) }
    ensures { PairSums planes.now dim r m sums.new groups }
{
    for e in 0..groups {
        add_terms(planes, e * dim, r, m, sums);
    }
}

// The first m entries of row r become the sums that stand from cell w on.
fn write_row(sums: &[f64], w: usize, dim: usize, r: usize, m: usize, out: &mut [f64])
    requires sums_len { (length sums.now ≡ 256) × (w ≤ 64) × (m ≤ dim) }
    requires square { Square dim out.old × (r < dim) }
    ensures { RowSumSteps sums.now w dim r out.old out.new m }
{
    for u in 0..m {
        let z = complex::read_plane(sums, 128, w + u);
        complex::write_cell(out, r * dim + u, z);
    }
}

// The rows 2t and 2t + 1 up to the diagonal; the one entry above it is left to the mirror.
fn fill_pair(planes: &[f64], groups: usize, dim: usize, t: usize, out: &mut [f64])
    requires planes_len { (length planes.now ≡ 8192) × (groups * dim ≤ 4096) }
    requires square { Square dim out.old × (2 * t + 1 < dim) }
    ensures { PairSteps dim t (plane_entry planes.now dim groups) out.old out.new (t + 1) }
{
    let r = 2 * t;
    let below = r + 1;
    let m = r + 2;
    let mut sums = [0.0f64; 256];
    pair_sums(planes, groups, dim, r, m, &mut sums);
    write_row(&sums, 0, dim, r, m, out);
    write_row(&sums, 64, dim, below, m, out);
}

// The lower half from the planes, two rows at a time.
fn fill_rows(planes: &[f64], groups: usize, dim: usize, out: &mut [f64])
    requires planes_len { (length planes.now ≡ 8192) × (groups * dim ≤ 4096) }
    requires square { Square dim out.old × (dim % 2 ≡ 0) }
    ensures { LowerSteps dim (plane_entry planes.now dim groups) out.old out.new (dim / 2) }
{
    for t in 0..dim / 2 {
        fill_pair(planes, groups, dim, t, out);
    }
}

// The lower half, two rows at a time.
pub fn fill_lower(
    state: &[f64],
    n: usize,
    mask: usize,
    groups: usize,
    offsets: &[usize],
    dim: usize,
    out: &mut [f64],
)
    requires entries_ready { EntriesReady n state.now mask offsets.now dim }
    requires square { Square dim out.old × (groups * dim ≤ 4096) }
    ensures { LowerSteps dim (table_entry n state.now mask groups offsets.now) out.old out.new (dim / 2) }
{
    let mut planes = [0.0f64; 8192];
    gather(state, n, mask, groups, offsets, dim, &mut planes);
    fill_rows(&planes, groups, dim, out);
}
