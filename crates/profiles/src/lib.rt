// All cuts of a chain on one page: qubits 0..j against the rest, for j from 0 to n - 2.
#![tactic(auto)]

ghost use Rattle.std.specs.Prelude.{◌≡◌, length, replicate};
ghost use Rattle.complex.specs.Zeros.{zeros};
ghost use Rattle.profiles.specs.Profile.{WorkRoom, ProfileWorked, CutProfile};

use answers::Refusal;

// Every number of the page becomes zero: 8 and 9.
fn clear_page(
    header: &mut [usize],
    values: &mut [f64],
    largest: &mut [f64],
    ranks: &mut [usize],
    marks: &mut [usize],
)
    ensures { (header.new ≡ replicate (length header.old) 0) × (values.new ≡ zeros (length values.old))
        × (largest.new ≡ zeros (length largest.old)) × (ranks.new ≡ replicate (length ranks.old) 0)
        × (marks.new ≡ replicate (length marks.old) 0) }
{
    cut_marks::clear_counts(header);
    complex::zero_first(values, values.len());
    complex::zero_first(largest, largest.len());
    cut_marks::clear_counts(ranks);
    cut_marks::clear_counts(marks);
}

// The work of an accepted call, over slices of exactly the needed lengths.
fn work(
    state: &[f64],
    n: usize,
    cap: usize,
    header: &mut [usize],
    values: &mut [f64],
    largest: &mut [f64],
    ranks: &mut [usize],
    marks: &mut [usize],
    scratch: &mut [f64],
) -> Result<(), Refusal>
    requires { WorkRoom state.now n cap (length header.old) (length values.old) (length largest.old) (length ranks.old) (length marks.old) (length scratch.old) }
    ensures { ProfileWorked state.now n result header.new values.new largest.new ranks.new marks.new scratch.new }
{
    let made = profile_walk::walk(
        state, n, cap, header, values, largest, ranks, marks, scratch,
    );
    complex::zero_first(scratch, scratch.len());
    let at = match made {
        Ok(at) => at,
        Err(refusal) => {
            clear_page(header, values, largest, ranks, marks);
            return Err(refusal);
        }
    };
    let left = values.len() - at;
    complex::zero_first(&mut values[at..], left);
    Ok(())
}

// The page of the n - 1 cuts of the state: each cut's count and offset, the kept values one cut after another, and of each cut
// the largest value, the rank and the marks.
#[tactic(auto, using(profile_checks::proofs::CheckLaws::plane_few, profile_checks::proofs::CheckLaws::half_few))]
pub fn cut_profile(
    state: &[f64],
    n: usize,
    cap: usize,
    header: &mut [usize],
    values: &mut [f64],
    largest: &mut [f64],
    ranks: &mut [usize],
    marks: &mut [usize],
    scratch: &mut [f64],
) -> Result<(), Refusal>
    ensures { CutProfile state.now n cap header.old values.old largest.old ranks.old marks.old scratch.old result
        header.new values.new largest.new ranks.new marks.new scratch.new }
{
    profile_checks::check(
        state,
        n,
        cap,
        header.len(),
        values.len(),
        largest.len(),
        ranks.len(),
        marks.len(),
        scratch.len(),
    )?;
    let cells = submasks::bit(n);
    let side = submasks::bit(n / 2);
    let room = profile_checks::values_room(n);
    let cuts = n - 1;
    let for_header = 2 * cuts;
    let for_marks = 4 * cuts;
    let need = 8 * cells + 2 * side;
    work(
        state,
        n,
        cap,
        &mut header[..for_header],
        &mut values[..room],
        &mut largest[..cuts],
        &mut ranks[..cuts],
        &mut marks[..for_marks],
        &mut scratch[..need],
    )
}
