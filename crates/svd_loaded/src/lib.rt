// Inner: the thin SVD of an m by n matrix whose work matrix stands at the front of scratch already: the matrix as planes, or its conjugate
// transpose where it is wider than tall. Scratch is left as the work leaves it.
#![tactic(auto)]

ghost use Rattle.std.specs.Prelude.{◌≡◌, List, ◌*◌, Float, length, take};
ghost use Rattle.svd.specs.Svd.{work_of, SvdExact, SvdFactored};
ghost use Rattle.svd_loaded.specs.Loaded.{SvdLoaded};

use answers::Refusal;
use sweeps::Sweeps;

// The factors. Where the matrix is wider than tall the work is done on its conjugate transpose, and U and V† change places.
fn thin(
    m: usize,
    n: usize,
    u: &mut [f64],
    s: &mut [f64],
    vt: &mut [f64],
    scratch: &mut [f64],
) -> Sweeps
    requires { SvdExact m n (2 * (m * n)) (length u.old) (length s.old) (length vt.old) (length scratch.old) }
    ensures { (a : List Float) → take (2 * (m * n)) scratch.old ≡ work_of a m n
        → SvdFactored a m n result u.new s.new vt.new }
{
    if m < n {
        return svd_thin::factor(n, m, true, vt, s, u, scratch);
    }
    svd_thin::factor(m, n, false, u, s, vt, scratch)
}

// The factors, and 9 where a number of one is not finite, and then all three are +0.0.
pub fn factor_loaded(
    m: usize,
    n: usize,
    u: &mut [f64],
    s: &mut [f64],
    vt: &mut [f64],
    scratch: &mut [f64],
) -> Result<Sweeps, Refusal>
    requires { SvdExact m n (2 * (m * n)) (length u.old) (length s.old) (length vt.old) (length scratch.old) }
    ensures { (a : List Float) → take (2 * (m * n)) scratch.old ≡ work_of a m n
        → SvdLoaded a m n result u.new s.new vt.new }
{
    let sweeps = thin(m, n, u, s, vt, scratch);
    svd::finish(u, s, vt)?;
    Ok(sweeps)
}
