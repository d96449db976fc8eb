// Inner: Schmidt values from the eigenvalues of a density: the roots of those above the floor, finished.
#![tactic(auto)]

ghost use Rattle.std.specs.Prelude.{◌≡◌, ◌≤◌, length, take};
ghost use Rattle.complex.specs.Zeros.{zero_float};
ghost use Rattle.weights.specs.Weights.{largest_from, roots_above};
ghost use Rattle.weights.specs.WeightOutcome.{WeightOutcome};

use answers::Refusal;

// A weight at or below this part of the largest is noise.
const VALUE_FLOOR: f64 = 1e-14;

// The largest weight, at least +0.0; a NaN is passed over.
fn largest_weight(s: &[f64]) -> f64
    ensures { result ≡ largest_from zero_float s.now }
{
    let mut largest = 0.0;
    for x in s {
        largest = numbers::larger_of(largest, *x);
    }
    largest
}

// The roots of the weights above the floor, in their order, to the front of roots; how many.
fn roots_above(s: &[f64], floor: f64, roots: &mut [f64]) -> usize
    requires { length s.now ≤ length roots.old }
    ensures { (result ≡ length (roots_above floor s.now)) × (take result roots.new ≡ roots_above floor s.now) }
{
    let mut count = 0;
    for w in s {
        if *w > floor {
            roots[count] = numbers::sqrt(*w);
            count += 1;
        }
    }
    count
}

// The n eigenvalues at the front of out become the Schmidt values, and how many were kept; spare is used and left as it falls.
pub fn finish_weights(n: usize, out: &mut [f64], spare: &mut [f64]) -> Result<usize, Refusal>
    requires { (n ≤ length out.old) × (n ≤ length spare.old) }
    ensures { WeightOutcome n out.old result out.new }
{
    let floor = largest_weight(&out[..n]) * VALUE_FLOOR;
    let count = roots_above(&out[..n], floor, spare);
    complex::zero_first(out, n);
    finish::finish_values(&spare[..count], out)
}
