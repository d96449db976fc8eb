// Inner: the sums of the entropy's band alone, as the printout shows them.
#![tactic(auto)]

ghost use Rattle.std.specs.Prelude.{◌≡◌, ◌≤◌, length};
ghost use Rattle.entropy_totals.specs.Totals.{totals_of};

// The sums of w*lo and of w*hi, and 4096 times the sum of the weights; all 0 where no weight is left.
#[derive(Clone, Copy)]
pub struct Totals {
    pub low: u64,
    pub high: u64,
    pub whole: u64,
}

pub fn totals_of(values: &[f64]) -> Totals
    requires { length values.now ≤ 64 }
    ensures { result ≡ totals_of values.now }
{
    let all = entropy_sums::whole_weight(values);
    if all == 0 {
        return Totals {
            low: 0,
            high: 0,
            whole: 0,
        };
    }
    let powers = entropy_powers::powers_of(all);
    let mut bands = [0usize; 192];
    let s = entropy_sums::fill(values, powers, &mut bands);
    Totals {
        low: s.low,
        high: s.high,
        whole: 4096 * all,
    }
}
