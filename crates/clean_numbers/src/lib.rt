// Inner: whether every number of a list is finite and no zero, and the front of a list copied behind itself and back.
#![tactic(auto)]

ghost use Rattle.std.specs.Prelude.{◌≡◌, true, ◌*◌, ◌≤◌, length, take, drop};
ghost use Rattle.clean_numbers.specs.Clean.{clean, EachClean};
ghost use Rattle.clean_numbers.specs.Copies.{CopiedBehind};

// Finite and no zero. One comparison settles every number whose square does not round to a zero: an infinity less itself is a NaN.
fn is_clean(x: f64) -> bool
    ensures { result ≡ clean x }
{
    x - x < x * x || x != 0.0 && numbers::is_finite(x)
}

// Whether every number is finite and no zero.
pub fn all_clean(s: &[f64]) -> bool
    ensures { result ≡ true → EachClean s.now }
{
    s.iter().all(|x| is_clean(*x))
}

// The first m numbers are copied to the m behind them.
pub fn copy_behind(s: &mut [f64], m: usize)
    requires { 2 * m ≤ length s.old }
    ensures { CopiedBehind m s.old s.new }
{
    let (front, back) = s.split_at_mut(m);
    copies::copy_over(&mut back[..m], front);
}

// The m numbers behind the first m are copied over those.
pub fn copy_back(s: &mut [f64], m: usize)
    requires { 2 * m ≤ length s.old }
    ensures { take m s.new ≡ take m (drop m s.old) }
{
    let (front, back) = s.split_at_mut(m);
    copies::copy_over(front, &back[..m]);
}
