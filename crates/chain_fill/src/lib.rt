// Inner: the ends of a chain of sites: its last site, and both ends of its bonds and starts.
#![tactic(auto)]

ghost use Rattle.std.specs.Prelude.{◌≡◌, ◌-◌, ◌≤◌, ◌++◌, length, take};
ghost use Rattle.complex.specs.Zeros.{zeros};
ghost use Rattle.chain_fill.specs.Fill.{LastRoom, Last};

// The first count numbers of s, and +0.0 to the end.
fn fill_tail(s: &[f64], count: usize, out: &mut [f64])
    requires { (count ≤ length s.now) × (count ≤ length out.old) }
    ensures { out.new ≡ take count s.now ++ zeros (length out.old - count) }
{
    let (front, rest) = out.split_at_mut(count);
    copies::copy_over(front, &s[..count]);
    complex::zero_first(rest, rest.len());
}

// The last site, +0.0 past it, and both ends of bonds and starts.
pub fn put_last(
    n: usize,
    bond: usize,
    at: usize,
    u: &[f64],
    sites: &mut [f64],
    bonds: &mut [usize],
    starts: &mut [usize],
)
    requires { LastRoom n bond at (length u.now) (length sites.old) (length bonds.old) (length starts.old) }
    ensures { Last n bond at u.now sites.old bonds.old starts.old
        sites.new bonds.new starts.new }
{
    let from = 2 * at;
    let count = 4 * bond;
    fill_tail(u, count, &mut sites[from..]);
    bonds[0] = 1;
    bonds[n] = 1;
    starts[0] = 0;
    starts[n] = at + 2 * bond;
}
