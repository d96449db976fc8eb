// The chain of sites of a state, taken apart from the left: one site a qubit, each an isometry but the last, which holds the weight.
#![tactic(auto)]

ghost use Rattle.std.specs.Prelude.{◌≡◌, length, replicate};
ghost use Rattle.complex.specs.Zeros.{zeroed};
ghost use Rattle.chain_fill.specs.Fill.{FillRoom};
ghost use Rattle.chain_checks.specs.Checks.{need_plane};
ghost use Rattle.chains.specs.Chains.{ChainWorked, ChainOfSites};

use answers::Refusal;

// Every number of the results becomes zero: 8 and 9.
fn clear_chain(sites: &mut [f64], bonds: &mut [usize], starts: &mut [usize], marks: &mut [usize])
    ensures { (sites.new ≡ zeroed (length sites.old) sites.old)
        × (bonds.new ≡ replicate (length bonds.old) 0) × (starts.new ≡ replicate (length starts.old) 0)
        × (marks.new ≡ replicate (length marks.old) 0) }
{
    complex::zero_first(sites, sites.len());
    cut_marks::clear_counts(bonds);
    cut_marks::clear_counts(starts);
    cut_marks::clear_counts(marks);
}

// Every number of the working slices becomes +0.0.
fn clear_scratch(matrix: &mut [f64], u: &mut [f64], vt: &mut [f64], scratch: &mut [f64])
    ensures { (matrix.new ≡ zeroed (length matrix.old) matrix.old) × (u.new ≡ zeroed
        (length u.old) u.old)
        × (vt.new ≡ zeroed (length vt.old) vt.old) × (scratch.new ≡ zeroed (length
        scratch.old) scratch.old) }
{
    complex::zero_first(matrix, matrix.len());
    complex::zero_first(u, u.len());
    complex::zero_first(vt, vt.len());
    complex::zero_first(scratch, scratch.len());
}

// The work of an accepted call, over slices of exactly the needed lengths. No step uses `matrix`: it only becomes +0.0.
fn work(
    state: &[f64],
    n: usize,
    epsilon: f64,
    limit: usize,
    sites: &mut [f64],
    bonds: &mut [usize],
    starts: &mut [usize],
    marks: &mut [usize],
    matrix: &mut [f64],
    u: &mut [f64],
    vt: &mut [f64],
    scratch: &mut [f64],
) -> Result<usize, Refusal>
    requires { FillRoom n limit (length state.now) (length sites.old) (length bonds.old) (length starts.old)
        (length marks.old) (length u.old) (length vt.old) (length scratch.old) × (length matrix.old ≡ need_plane n) }
    ensures { ChainWorked state.now n epsilon limit result sites.new bonds.new starts.new
        marks.new
        matrix.new u.new vt.new scratch.new }
{
    let made = chain_run::run(
        state, n, epsilon, limit, sites, bonds, starts, marks, u, vt, scratch,
    );
    clear_scratch(matrix, u, vt, scratch);
    if made.is_err() {
        clear_chain(sites, bonds, starts, marks);
        return made;
    }
    made
}

// The sites of the state of n qubits, with threshold epsilon and bond limit; each bond, the cell where each site starts, the marks
// of each cut's SVD, and how many cuts dropped a value above the resolution.
#[tactic(auto, using(chain_checks::proofs::CheckLaws::plane_few, chain_checks::proofs::CheckLaws::side_few, chain_room::proofs::RoomLaws::room_few))]
pub fn chain_of_sites(
    state: &[f64],
    n: usize,
    epsilon: f64,
    limit: usize,
    sites: &mut [f64],
    bonds: &mut [usize],
    starts: &mut [usize],
    marks: &mut [usize],
    matrix: &mut [f64],
    u: &mut [f64],
    vt: &mut [f64],
    scratch: &mut [f64],
) -> Result<usize, Refusal>
    ensures { ChainOfSites state.now n epsilon limit sites.old bonds.old
        starts.old marks.old
        matrix.old u.old vt.old scratch.old result
        sites.new bonds.new starts.new marks.new matrix.new u.new
        vt.new scratch.new }
{
    chain_checks::check(
        state,
        n,
        limit,
        sites.len(),
        bonds.len(),
        starts.len(),
        marks.len(),
        matrix.len(),
        u.len(),
        vt.len(),
        scratch.len(),
    )?;
    let cells = submasks::bit(n);
    let side = submasks::bit(n / 2);
    let room = chain_room::room_of(n, limit);
    let for_sites = 2 * room;
    let count = n + 1;
    let for_marks = 3 * (n - 1);
    let plane = 2 * cells;
    let need = 6 * cells + 2 * side;
    work(
        state,
        n,
        epsilon,
        limit,
        &mut sites[..for_sites],
        &mut bonds[..count],
        &mut starts[..count],
        &mut marks[..for_marks],
        &mut matrix[..plane],
        &mut u[..plane],
        &mut vt[..plane],
        &mut scratch[..need],
    )
}
