// The total of the squares of a cut's kept singular values, before the scale: the number whose root scales page one. Inner: the cut
// was not refused by 1 to 5.
#![tactic(auto)]

ghost use Rattle.std.specs.Prelude.{◌≡◌, ◌≤◌, length};
ghost use Rattle.cut_values.specs.Schmidt.{singular_values};
ghost use Rattle.cut_totals.specs.Totals.{total_sorted, kept_total, Totalled};

// Of values that are sorted downward: those that the floor keeps.
fn total_sorted(s: &[f64]) -> f64
    ensures { result ≡ total_sorted s.now }
{
    let count = values::kept_count(s, finish::floor_of(s));
    values::sum_of_squares(&s[..count])
}

// Of values that need no check.
fn total_of(values: &[f64]) -> f64
    requires { length values.now ≤ 64 }
    ensures { result ≡ kept_total values.now }
{
    let n = values.len();
    let mut sorted = [0.0f64; 64];
    values::sort_down(values, &mut sorted[..n]);
    total_sorted(&sorted[..n])
}

// Of the singular values of a cut.
pub fn kept_total(state: &[f64], n: usize, list: &[usize]) -> f64
    requires { Totalled state.now n list.now }
    ensures { result ≡ kept_total (singular_values state.now n list.now) }
{
    let cut = cut_sides::sides_of(list, n);
    let rows = cut.rows;
    let mut values = [0.0f64; 64];
    let mut scratch = [0.0f64; 1024];
    cut_values::singular_values(state, n, cut, &mut values[..rows], &mut scratch);
    total_of(&values[..rows])
}
