// The thin SVD of an m by n matrix by one-sided Jacobi turns: A = U diag(s) V†, U column-major, V† row-major,
// the values falling.
#![tactic(auto)]

ghost use Rattle.std.specs.Prelude.{◌≡◌, ◌*◌, ◌≤◌, length};
ghost use Rattle.answers.specs.Paper.{paper};
ghost use Rattle.svd.specs.Svd.{svd_lengths, svd_tests, finite_factors, SvdExact, SvdFactored, SvdFinished, SvdWorked, Svd};

use answers::Refusal;
pub use matrix_sizes::smaller_size;
use sweeps::Sweeps;

// The first slice of a wrong length, or too short: 6.
#[tactic(auto, unfolding(crate::specs::Svd::svd_lengths))]
fn check_lengths(
    m: usize,
    n: usize,
    a: usize,
    u: usize,
    s: usize,
    vt: usize,
    scratch: usize,
) -> Result<(), Refusal>
    requires { m * n ≤ 4096 }
    ensures { paper result ≡ svd_lengths m n a u s vt scratch }
{
    let k = smaller_size(m, n);
    answers::exact_length(0, a, 2 * (m * n))?;
    answers::enough_room(1, u, 2 * (m * k))?;
    answers::enough_room(2, s, k)?;
    answers::enough_room(3, vt, 2 * (k * n))?;
    answers::enough_room(4, scratch, 6 * (m * n) + 2 * k)
}

// Every refusal that comes before the work.
#[tactic(auto, unfolding(crate::specs::Svd::svd_tests))]
fn check(
    a: &[f64],
    m: usize,
    n: usize,
    u: usize,
    s: usize,
    vt: usize,
    scratch: usize,
) -> Result<(), Refusal>
    ensures { paper result ≡ svd_tests a.now m n u s vt scratch }
{
    matrix_sizes::check_sizes(m, n)?;
    check_lengths(m, n, a.len(), u, s, vt, scratch)?;
    components::check_components(a)
}

// The factors, over slices of exactly the needed lengths. Where the matrix is wider than tall the work is
// done on its conjugate transpose, and U and V† change places. Returned is how the sweeps went.
fn factor(
    a: &[f64],
    m: usize,
    n: usize,
    u: &mut [f64],
    s: &mut [f64],
    vt: &mut [f64],
    scratch: &mut [f64],
) -> Sweeps
    requires { SvdExact m n (length a.now) (length u.old) (length s.old) (length vt.old) (length scratch.old) }
    ensures { SvdFactored a.now m n result u.new s.new vt.new }
{
    if m < n {
        let w = 2 * (m * n);
        svd_load::load_wide(a, m, n, &mut scratch[..w]);
        return svd_thin::factor(n, m, true, vt, s, u, scratch);
    }
    let c = n * m;
    let w = 2 * c;
    svd_load::load_tall(a, c, &mut scratch[..w]);
    svd_thin::factor(m, n, false, u, s, vt, scratch)
}

// Whether every number of the three is finite.
#[tactic(auto, unfolding(crate::specs::Svd::finite_factors))]
fn finite_factors(u: &[f64], s: &[f64], vt: &[f64]) -> bool
    ensures { result ≡ finite_factors u.now s.now vt.now }
{
    values::all_finite(u) && values::all_finite(s) && values::all_finite(vt)
}

// Inner. 9 where a number of a factor is not finite, and then all three are +0.0.
pub fn finish(u: &mut [f64], s: &mut [f64], vt: &mut [f64]) -> Result<(), Refusal>
    ensures { SvdFinished u.old s.old vt.old result u.new s.new vt.new }
{
    if finite_factors(u, s, vt) {
        return Ok(());
    }
    complex::zero_first(u, u.len());
    complex::zero_first(s, s.len());
    complex::zero_first(vt, vt.len());
    Err(Refusal::NotFinite)
}

// The work of an accepted call, over slices of exactly the needed lengths.
fn work(
    a: &[f64],
    m: usize,
    n: usize,
    u: &mut [f64],
    s: &mut [f64],
    vt: &mut [f64],
    scratch: &mut [f64],
) -> Result<Sweeps, Refusal>
    requires { SvdExact m n (length a.now) (length u.old) (length s.old) (length vt.old) (length scratch.old) }
    ensures { SvdWorked a.now m n result u.new s.new vt.new scratch.new }
{
    let sweeps = factor(a, m, n, u, s, vt, scratch);
    complex::zero_first(scratch, scratch.len());
    finish(u, s, vt)?;
    Ok(sweeps)
}

// U, the values and V† of the m by n matrix a, and how many sweeps were begun and whether the last one was quiet.
pub fn svd_jacobi(
    a: &[f64],
    m: usize,
    n: usize,
    u: &mut [f64],
    s: &mut [f64],
    vt: &mut [f64],
    scratch: &mut [f64],
) -> Result<Sweeps, Refusal>
    ensures { Svd a.now m n u.old s.old vt.old scratch.old result
        u.new s.new vt.new scratch.new }
{
    check(a, m, n, u.len(), s.len(), vt.len(), scratch.len())?;
    let k = smaller_size(m, n);
    let for_u = 2 * (m * k);
    let for_vt = 2 * (k * n);
    let for_scratch = 6 * (m * n) + 2 * k;
    work(
        a,
        m,
        n,
        &mut u[..for_u],
        &mut s[..k],
        &mut vt[..for_vt],
        &mut scratch[..for_scratch],
    )
}
