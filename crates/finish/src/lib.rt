// The finish of Schmidt values: sorted downward, cut at the floor, scaled so that the squares sum to 1.
#![tactic(auto)]

ghost use Rattle.std.specs.Prelude.{◌≡◌, ◌++◌, ◌≤◌, Some, None, length, take, drop, if◌then◌else◌};
ghost use Rattle.answers.specs.Paper.{paper};
ghost use Rattle.values.specs.Lists.{all_finite};
ghost use Rattle.finish.specs.Finish.{floor_of, normalised, scale_exact, finish_refusal};
ghost use Rattle.finish.specs.Outcome.{Outcome, SortedOutcome, MarkedOutcome, FinishedOutcome};

use answers::Refusal;

// A value at or below this part of the largest is noise.
const VALUE_FLOOR: f64 = 1e-14;

// Inner. How many values were kept, and whether the root of the scale came out even.
#[derive(Clone, Copy)]
pub struct Finished {
    pub count: usize,
    pub exact: bool,
}

// Inner. The first value times the floor's part; 0.0 stands for the first of none.
pub fn floor_of(s: &[f64]) -> f64
    ensures { result ≡ floor_of s.now }
{
    if s.len() == 0 {
        return 0.0 * VALUE_FLOOR;
    }
    s[0] * VALUE_FLOOR
}

// The first count values, each times 1/√(the sum of their squares), and whether that root came out even; `None` where not all are finite then.
fn scale_kept(s: &mut [f64], count: usize) -> Option<bool>
    requires { count ≤ length s.old }
    ensures now { s.new ≡ normalised (take count s.old) ++ drop count s.old }
    ensures marked { result ≡ if all_finite (normalised (take count s.old)) then Some (scale_exact (take count s.old)) else None }
{
    let total = values::sum_of_squares(&s[..count]);
    let marked = exact_roots::sqrt_marked(total);
    let scale = 1.0 / marked.root;
    values::scale_values(&mut s[..count], scale);
    if values::all_finite(&s[..count]) {
        return Some(marked.exact);
    }
    None
}

// The finish of values that are sorted downward, in their place.
fn finish_sorted(s: &mut [f64]) -> Result<Finished, Refusal>
    ensures { SortedOutcome s.old result s.new }
{
    let n = s.len();
    let count = values::kept_count(s, floor_of(s));
    if count == 0 {
        complex::zero_first(s, n);
        return Err(Refusal::NoWeight);
    }
    let Some(exact) = scale_kept(s, count) else {
        complex::zero_first(s, n);
        return Err(Refusal::NotFinite);
    };
    complex::zero_first(&mut s[count..], n - count);
    Ok(Finished { count, exact })
}

// Inner. The finish of values that need no check, with the mark of its root: 0, 8 or 9.
pub fn finish_marked(values: &[f64], out: &mut [f64]) -> Result<Finished, Refusal>
    requires { length values.now ≤ length out.old }
    ensures { MarkedOutcome values.now out.old result out.new }
{
    let n = values.len();
    values::sort_down(values, &mut out[..n]);
    finish_sorted(&mut out[..n])
}

// Inner. The same without the mark: how many values were kept.
pub fn finish_values(values: &[f64], out: &mut [f64]) -> Result<usize, Refusal>
    requires { length values.now ≤ length out.old }
    ensures { FinishedOutcome values.now out.old result out.new }
{
    let finished = finish_marked(values, out)?;
    Ok(finished.count)
}

// Answers 1, 6 and 7.
#[tactic(auto, unfolding(crate::specs::Finish::finish_refusal))]
fn finish_refusal(values: &[f64], room: usize) -> Result<(), Refusal>
    ensures { paper result ≡ finish_refusal values.now room }
{
    if values.len() > 64 {
        return Err(Refusal::Size);
    }
    if room < values.len() {
        return Err(Refusal::Length(1));
    }
    values::check_values(values)
}

// Schmidt values from 0 to 64 values, read only: sorted downward, cut at the floor, scaled; and how many were kept.
pub fn finish_schmidt_values(values: &[f64], out: &mut [f64]) -> Result<usize, Refusal>
    ensures { Outcome values.now out.old result out.new }
{
    finish_refusal(values, out.len())?;
    finish_values(values, out)
}
