// The two sides of a cut: its refusals, masks and sizes, and the smaller side's list.
#![tactic(auto)]

ghost use Rattle.std.specs.Prelude.{◌≡◌, ◌-◌, ◌≤◌, length};
ghost use Rattle.answers.specs.Paper.{paper};
ghost use Rattle.qubits.specs.Lists.{Listed};
ghost use Rattle.qubits.specs.Spread.{other_qubits};
ghost use Rattle.qubit_offsets.specs.Calls.{fronted};
ghost use Rattle.cut_sides.specs.Sides.{cut_sizes, cut_refusal, Parted, sides_of, side_answer, SmallerSide, side_part};

use answers::Refusal;

// Answer 1 of a cut: the register, then n+1 against the cap, which is at most 13.
fn cut_size(n: usize, cap: usize) -> Result<(), Refusal>
    ensures { paper result ≡ cut_sizes n cap }
{
    if n < 1 || 12 < n || cap < n + 1 {
        return Err(Refusal::Size);
    }
    Ok(())
}

// Inner: answers 1 to 5 of a cut.
pub fn cut_refusal(list: &[usize], n: usize, cap: usize) -> Result<(), Refusal>
    ensures { paper result ≡ cut_refusal list.now n cap }
{
    cut_size(n, cap)?;
    qubits::validate_subsystem(list, n)
}

// Inner: the sides of an accepted cut, by value, so that a plan can keep them.
#[derive(Clone, Copy)]
pub struct Sides {
    // the masks of the rows' and of the columns' qubits
    pub row: usize,
    pub column: usize,
    // how many rows and columns
    pub rows: usize,
    pub columns: usize,
    // whether the named qubits are the rows
    pub named: bool,
}

// Inner: the one place that works the sides of a cut out.
pub fn sides_of(list: &[usize], n: usize) -> Sides
    requires { Parted list.now n }
    ensures { result ≡ sides_of list.now n }
{
    let k = list.len();
    let rest = n - k;
    let mask = qubits::mask_of(list, n);
    let others = submasks::bit(n) - 1 - mask;
    if k <= rest {
        return Sides {
            row: mask,
            column: others,
            rows: submasks::bit(k),
            columns: submasks::bit(rest),
            named: true,
        };
    }
    Sides {
        row: others,
        column: mask,
        rows: submasks::bit(rest),
        columns: submasks::bit(k),
        named: false,
    }
}

// Answers 1 to 6 of the smaller side: room is how many numbers the slice of the others has.
fn side_refusal(list: &[usize], n: usize, cap: usize, room: usize) -> Result<(), Refusal>
    ensures { paper result ≡ side_answer list.now n cap room }
{
    cut_refusal(list, n, cap)?;
    let k = list.len();
    let rest = n - k;
    if rest < k && room < rest {
        return Err(Refusal::Length(1));
    }
    Ok(())
}

// Inner: the qubits that the list does not name, rising, at the front of out.
pub fn write_others(list: &[usize], n: usize, out: &mut [usize])
    requires { (n ≤ 12) × (length (other_qubits n list.now) ≤ length out.old) }
    ensures { out.new ≡ fronted (other_qubits n list.now) out.old }
{
    let mut j: usize = 0;
    for q in 0..n {
        if !qubits::stands_in(list, q) {
            out[j] = q;
            j += 1;
        }
    }
}

// The smaller side: refused as a cut; where the others are smaller they are written, rising, at the front of the lent slice.
pub fn smaller_side(
    list: &[usize],
    n: usize,
    cap: usize,
    others: &mut [usize],
) -> Result<(), Refusal>
    ensures { SmallerSide list.now n cap others.old result others.new }
{
    side_refusal(list, n, cap, others.len())?;
    let k = list.len();
    if n - k < k {
        write_others(list, n, others);
    }
    Ok(())
}

// The smaller side's list, as a part of the caller's list or of the slice in which `smaller_side` wrote the others; on a refusal an
// empty part of the caller's list.
pub fn side_part<'a>(list: &'a [usize], n: usize, cap: usize, others: &'a [usize]) -> &'a [usize]
    ensures { result.now ≡ side_part list.now n cap others.now }
{
    let Ok(()) = side_refusal(list, n, cap, others.len()) else {
        return &list[..0];
    };
    let rest = n - list.len();
    if rest < list.len() {
        &others[..rest]
    } else {
        list
    }
}
