// Lists of values: which are allowed, their downward order, what a floor keeps, sums and scaling. Inner: the calls of 01 that work on lists of values use these.
#![tactic(auto)]

ghost use Rattle.std.specs.Prelude.{◌≡◌, ◌<◌, ◌≤◌, length};
ghost use Rattle.answers.specs.Paper.{paper};
ghost use Rattle.values.specs.Lists.{values_allowed, all_finite, squares_from, scaled_by, kept_above, minus_zero};
ghost use Rattle.values.specs.Sort.{seat_of, sort_to};

use answers::Refusal;

// The first value that is not allowed: 7. A value is one cell.
pub fn check_values(s: &[f64]) -> Result<(), Refusal>
    ensures { paper result ≡ values_allowed 0 s.now }
{
    match s.iter().position(|x| !numbers::component_allowed(*x)) {
        Some(at) => Err(Refusal::Component(at)),
        None => Ok(()),
    }
}

// Inner. Whether every number of s is finite. A finite scaled sum settles it at two thirds of the cost. The loop has one way out, so that the back end takes several numbers at once.
pub fn all_finite(s: &[f64]) -> bool
    ensures { result ≡ all_finite s.now }
{
    if scaled::scaled_sum_finite(s) {
        return true;
    }
    let mut every = true;
    for x in s {
        let one = numbers::is_finite(*x);
        every = every & one;
    }
    every
}

// Inner. The first place of s whose value is below x in the total order, or the length of s.
pub fn seat(s: &[f64], x: f64) -> usize
    ensures { result ≡ seat_of x s.now }
{
    s.iter()
        .position(|y| numbers::total_less(*y, x))
        .unwrap_or(s.len())
}

// Inner. The values, downward in the total order.
pub fn sort_down(values: &[f64], sorted: &mut [f64])
    requires { length sorted.old ≡ length values.now }
    ensures { sorted.new ≡ sort_to values.now (length values.now) }
{
    for k in 0..values.len() {
        let e = k + 1;
        let x = values[k];
        let at = seat(&sorted[..k], x);
        stable_order::insert_at(&mut sorted[..e], at, x);
    }
}

// Inner. How many values stand before the first that is at or below the floor.
pub fn kept_count(s: &[f64], floor: f64) -> usize
    ensures { result ≡ length (kept_above floor s.now) }
{
    s.iter().position(|x| *x <= floor).unwrap_or(s.len())
}

// Inner. The squares, summed in order from -0.0 as the Rust's sum is.
pub fn sum_of_squares(s: &[f64]) -> f64
    ensures { result ≡ squares_from minus_zero s.now }
{
    let mut total = -0.0;
    for x in s {
        total = total + *x * *x;
    }
    total
}

// Inner. Each value times k.
pub fn scale_values(s: &mut [f64], k: f64)
    ensures { s.new ≡ scaled_by k s.old }
{
    for x in s.iter_mut() {
        *x = *x * k;
    }
}
