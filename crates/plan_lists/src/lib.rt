// Inner: the lists of a plan, in twelve places each, with zeros behind the last number.
#![tactic(auto)]

ghost use Rattle.std.specs.Prelude.{◌≡◌, ◌≤◌, length};
ghost use Rattle.qubits.specs.Spread.{other_qubits};
ghost use Rattle.cut_sides.specs.Sides.{Parted};
ghost use Rattle.plan_lists.specs.Padded.{padded, without};

// The list, padded.
pub fn pad(list: &[usize]) -> [usize; 12]
    requires { length list.now ≤ 12 }
    ensures { result ≡ padded list.now }
{
    let mut out: [usize; 12] = [0; 12];
    out[..list.len()].copy_from_slice(list);
    out
}

// The qubits of the register that the list does not name, rising, padded.
pub fn pad_others(list: &[usize], n: usize) -> [usize; 12]
    requires { Parted list.now n }
    ensures { result ≡ padded (other_qubits n list.now) }
{
    let mut others: [usize; 12] = [0; 12];
    cut_sides::write_others(list, n, &mut others);
    others
}

// A padded list, and how many of its places are used.
#[derive(Clone, Copy)]
pub struct Front {
    pub numbers: [usize; 12],
    pub count: usize,
}

// The list without q: the gap is closed.
pub fn leave_out(list: &[usize], q: usize) -> Front
    requires { length list.now ≤ 12 }
    ensures { (result.numbers ≡ padded (without q list.now)) × (result.count ≡ length (without q list.now)) }
{
    let mut numbers: [usize; 12] = [0; 12];
    let mut count: usize = 0;
    for x in list {
        if *x != q {
            numbers[count] = *x;
            count += 1;
        }
    }
    Front { numbers, count }
}
