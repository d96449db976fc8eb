// Inner: what the chain of sites asks of its state, and the rows of its first step.
#![tactic(auto)]

ghost use Rattle.std.specs.Prelude.{◌≡◌, List, ◌+◌, ◌*◌, ◌^◌, ◌≤◌, Float, length};
ghost use Rattle.answers.specs.Paper.{paper};
ghost use Rattle.numbers.specs.Numbers.{allowed_for};
ghost use Rattle.complex.specs.Cells.{written};
ghost use Rattle.chain_start.specs.Start.{components_for, state_zero, reversed, cell_reversed, carried_first, TurnedTo, BlockRoom};

use answers::Refusal;

// Finite, and of magnitude at most 2^190.
fn state_allowed(x: f64) -> bool
    ensures { result ≡ allowed_for 190 x }
{
    x <= 1569275433846670190958947355801916604025588861116008628224.0
        && -1569275433846670190958947355801916604025588861116008628224.0 <= x
}

// The first cell of s with a component that is not: 7.
pub fn check_state(s: &[f64]) -> Result<(), Refusal>
    ensures { paper result ≡ components_for 190 0 s.now }
{
    for (i, x) in s.iter().enumerate() {
        if !state_allowed(*x) {
            return Err(Refusal::Component(i / 2));
        }
    }
    Ok(())
}

// Whether every number of s is 0.0 or -0.0.
pub fn all_zero(s: &[f64]) -> bool
    ensures { result ≡ state_zero s.now }
{
    let mut k = 0;
    while k < s.len() {
        let x = s[k];
        if x == 0.0 {
            k += 1;
        } else {
            return false;
        }
    }
    true
}

// The n bits of x in the other order.
fn other_way(n: usize, x: usize) -> usize
    requires { n ≤ 12 }
    ensures { result ≡ reversed n x }
{
    let mut r = 0;
    let mut v = x;
    for i in 0..n {
        r = 2 * r + v % 2;
        v /= 2;
    }
    r
}

// The low bits of a number in the other order, as they stand above the high ones.
fn turn_round(low: usize, high: usize, backs: &mut [usize])
    requires { (low ≤ 6) × (high ≤ 6) × (length backs.old ≡ 64) }
    ensures { (length backs.new ≡ 64) × TurnedTo low high (2 ^ low) backs.new }
{
    let count = submasks::bit(low);
    let step = submasks::bit(high);
    for x in 0..count {
        backs[x] = other_way(low, x) * step;
    }
}

// The cells whose high bits are y.
fn lay_block(state: &[f64], low: usize, high: usize, y: usize, backs: &[usize], u: &mut [f64])
    requires { BlockRoom low high y (length state.now) backs.now (length u.old) }
    ensures { (old : List Float) → length old ≡ 2 * 2 ^ (low + high) → u.old ≡ written (y * 2 ^ low) (cell_reversed state.now (low + high)) old
        → u.new ≡ written (y * 2 ^ low + 2 ^ low) (cell_reversed state.now (low + high)) old }
{
    let count = submasks::bit(low);
    let base = y * count;
    let from = other_way(high, y);
    for x in 0..count {
        let z = complex::read_cell(state, backs[x] + from);
        complex::write_cell(u, base + x, z);
    }
}

// The state with qubit 0 as the highest bit. The low bits are turned round once for all.
pub fn lay_state(state: &[f64], n: usize, u: &mut [f64])
    requires { (n ≤ 12) × (length state.now ≡ 2 * 2 ^ n) × (length u.old ≡ 2 * 2 ^ n) }
    ensures { u.new ≡ carried_first state.now n }
{
    let low = n / 2;
    let high = n - low;
    let mut backs = [0usize; 64];
    turn_round(low, high, &mut backs);
    let blocks = submasks::bit(high);
    for y in 0..blocks {
        lay_block(state, low, high, y, &backs, u);
    }
}
