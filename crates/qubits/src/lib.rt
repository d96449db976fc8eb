// Lists of qubits: which are refused, their masks, and where the bits of an index land.
#![tactic(auto)]

ghost use Rattle.std.specs.Prelude.{◌≡◌, ◌+◌, ◌-◌, ◌^◌, ◌<◌, ◌≤◌, length};
ghost use Rattle.answers.specs.Paper.{paper};
ghost use Rattle.qubits.specs.Lists.{stands, qubit_set, subsystem, Listed};
ghost use Rattle.qubits.specs.Spread.{row_offset, traced_base, insert_zero_bit, named};

use answers::Refusal;

// Inner: whether q stands in the list.
pub fn stands_in(list: &[usize], q: usize) -> bool
    ensures { result ≡ stands q list.now }
{
    for x in list {
        if *x == q {
            return true;
        }
    }
    false
}

// A list of qubits of a register of n: refused by 1, then 2 and 3 in list order, then 4.
pub fn validate_qubit_set(list: &[usize], n: usize) -> Result<(), Refusal>
    ensures { paper result ≡ qubit_set n list.now }
{
    if n < 1 || 12 < n {
        return Err(Refusal::Size);
    }
    for (i, q) in list.iter().enumerate() {
        if n <= *q {
            return Err(Refusal::OutOfRange(i));
        }
        if stands_in(&list[..i], *q) {
            return Err(Refusal::Twice(i));
        }
    }
    if list.is_empty() {
        return Err(Refusal::Empty);
    }
    Ok(())
}

// The same for a cut, which also leaves a qubit out: 5.
pub fn validate_subsystem(list: &[usize], n: usize) -> Result<(), Refusal>
    ensures { paper result ≡ subsystem n list.now }
{
    validate_qubit_set(list, n)?;
    if list.len() == n {
        return Err(Refusal::Whole);
    }
    Ok(())
}

// Inner: the mask of the listed qubits.
pub fn mask_of(list: &[usize], n: usize) -> usize
    requires { Listed n list.now }
    ensures { (result ≡ named list.now) × (result < 2 ^ n) }
{
    let mut mask: usize = 0;
    for q in list {
        mask |= submasks::bit(*q);
    }
    mask
}

// Inner: bit i of t, on the i-th listed qubit.
pub fn row_offset(list: &[usize], n: usize, t: usize) -> usize
    requires { Listed n list.now }
    ensures { result ≡ row_offset list.now t }
{
    let mut offset: usize = 0;
    for (i, q) in list.iter().enumerate() {
        offset |= ((t >> i) & 1) << *q;
    }
    offset
}

// Inner: makes room for a zero at bit q. Divide x by 2^q: the remainder is what stands below bit q and stays there, the quotient is
// what stands from bit q on and moves up one. So the result is quotient times 2^(q+1), twice the power, plus the remainder.
// Example: x = 11 (binary 1011), q = 2. 11 = 2 * 4 + 3, so the result is 2 * 8 + 3 = 19 (binary 10011: 10, the new 0, 11).
// Its callers use the laws of `insert_zero_bit` alone.
pub fn insert_zero_bit(x: usize, q: usize) -> usize
    requires { (x < 2 ^ 32) × (q < 32) }
    ensures { result ≡ insert_zero_bit x q }
{
    let power = submasks::bit(q);
    let quotient = x / power;
    let remainder = x % power;
    quotient * (2 * power) + remainder
}

// Inner: the bits of e spread over the qubits that the list does not name: a zero bit inserted at each that it names, rising.
pub fn traced_base_of(e: usize, list: &[usize], n: usize) -> usize
    requires listed { Listed n list.now }
    requires e_bound { e < 2 ^ (n - length list.now) }
    ensures { result ≡ traced_base n list.now e }
{
    let mut base = e;
    for q in 0..n {
        if stands_in(list, q) {
            base = insert_zero_bit(base, q);
        }
    }
    base
}
