// Inner: the refusals of a call that countersigns, 1, 6, 7 and 11, in this order.
#![tactic(auto)]

ghost use Rattle.std.specs.Prelude.{◌≡◌, ◌*◌, ◌<◌, ◌≤◌, length};
ghost use Rattle.answers.specs.Paper.{paper};
ghost use Rattle.countersign_checks.specs.Checks.{countersign_sizes, countersign_lengths, countersign_components, off_grid, countersign_grid, countersign_tests};

use answers::Refusal;

// Sizes that are taken, and the smaller size at most 16: else 1.
#[tactic(auto, unfolding(crate::specs::Checks::countersign_sizes))]
fn check_sizes(m: usize, n: usize) -> Result<(), Refusal>
    ensures { paper result ≡ countersign_sizes m n }
{
    matrix_sizes::check_sizes(m, n)?;
    if matrix_sizes::smaller_size(m, n) > 16 {
        return Err(Refusal::Size);
    }
    Ok(())
}

// All four lengths are exact: else 6 at the first that is not.
#[tactic(auto, unfolding(crate::specs::Checks::countersign_lengths))]
fn check_lengths(m: usize, n: usize, a: usize, u: usize, s: usize, vt: usize) -> Result<(), Refusal>
    requires { m * n ≤ 4096 }
    ensures { paper result ≡ countersign_lengths m n a u s vt }
{
    let k = matrix_sizes::smaller_size(m, n);
    answers::exact_length(0, a, 2 * (m * n))?;
    answers::exact_length(1, u, 2 * (m * k))?;
    answers::exact_length(2, s, k)?;
    answers::exact_length(3, vt, 2 * (k * n))
}

// The first component of all four that is not allowed: 7. A value of S is one cell.
#[tactic(auto, unfolding(crate::specs::Checks::countersign_components))]
fn check_components(a: &[f64], u: &[f64], s: &[f64], vt: &[f64]) -> Result<(), Refusal>
    ensures { paper result ≡ countersign_components a.now u.now s.now vt.now }
{
    components::check_components(a)?;
    components::check_components(u)?;
    values::check_values(s)?;
    components::check_components(vt)
}

// The first number of s off the grid: 11. A cell is `per` numbers.
fn off_grid(s: &[f64], per: usize) -> Result<(), Refusal>
    requires { 0 < per }
    ensures { paper result ≡ off_grid per 0 s.now }
{
    for (i, x) in s.iter().enumerate() {
        if countersign_grid::grid_of(*x).is_none() {
            return Err(Refusal::OffGrid(i / per));
        }
    }
    Ok(())
}

// The first number of all four off the grid: 11.
#[tactic(auto, unfolding(crate::specs::Checks::countersign_grid))]
fn check_grid(a: &[f64], u: &[f64], s: &[f64], vt: &[f64]) -> Result<(), Refusal>
    ensures { paper result ≡ countersign_grid a.now u.now s.now vt.now }
{
    off_grid(a, 2)?;
    off_grid(u, 2)?;
    off_grid(s, 1)?;
    off_grid(vt, 2)
}

// Every refusal.
#[tactic(auto, unfolding(crate::specs::Checks::countersign_tests))]
pub fn check(a: &[f64], m: usize, n: usize, u: &[f64], s: &[f64], vt: &[f64]) -> Result<(), Refusal>
    ensures { paper result ≡ countersign_tests a.now m n u.now s.now vt.now }
{
    check_sizes(m, n)?;
    check_lengths(m, n, a.len(), u.len(), s.len(), vt.len())?;
    check_components(a, u, s, vt)?;
    check_grid(a, u, s, vt)
}
