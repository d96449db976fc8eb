// Inner: the cyclic Jacobi sweeps of the eigenvalues, over a square matrix of n rows that is lent as cells, row-major. The
// definitions speak of its planes.
#![tactic(auto)]

ghost use Rattle.std.specs.Prelude.{◌≡◌, ◌+◌, ◌-◌, ◌*◌, ◌<◌, ◌≤◌, length};
ghost use Rattle.sweeps.specs.Sweeping.{pair_step, pairs_to, sweep_of};
ghost use Rattle.eigen_pair.specs.CellPlanes.{as_planes};
ghost use Rattle.eigen_sweeps.specs.Sweeping.{SquareRoom, eigen_state, largest_to, eigen_pairing, eigen_pairings, eigen_settled};

use sweeps::Sweeps;

const MAX_EIGEN_SWEEPS: usize = 60;

// The largest diagonal entry, at least +0.0; a NaN is passed over.
fn largest_diagonal(xs: &[f64], n: usize) -> f64
    requires { SquareRoom n (length xs.now) }
    ensures { result ≡ largest_to (as_planes (n * n) xs.now) n n }
{
    let mut largest = 0.0;
    for i in 0..n {
        let at = 2 * (i * n + i);
        largest = numbers::larger_of(largest, xs[at]);
    }
    largest
}

// The pair p, q, where the sweep began with this largest diagonal entry.
fn pair(xs: &mut [f64], n: usize, largest: f64, p: usize, q: usize, s: Sweeps) -> Sweeps
    requires { SquareRoom n (length xs.old) × (p < n) × (q < n) × (s.turned < 1000000) }
    ensures { eigen_state (as_planes (n * n) xs.new) result ≡ pair_step (eigen_pairing n largest) p q (eigen_state (as_planes (n * n) xs.old) s) }
{
    let at_p = 2 * (p * n + p);
    let at_q = 2 * (q * n + q);
    let apq = complex::read_cell(xs, p * n + q);
    let d = eigen_pair::decide(apq, xs[at_p], xs[at_q], largest);
    eigen_pair::apply(xs, n, p, q, d);
    sweeps::count(d, s)
}

// The pairs of p with each later q.
fn row(xs: &mut [f64], n: usize, largest: f64, p: usize, s: Sweeps) -> Sweeps
    requires { SquareRoom n (length xs.old) × (p < n) × (s.turned + n < 1000000) }
    ensures { eigen_state (as_planes (n * n) xs.new) result ≡ pairs_to (eigen_pairing n largest) p (n - (p + 1)) (eigen_state (as_planes (n * n) xs.old) s) }
{
    let mut t = s;
    for q in (p + 1)..n {
        t = pair(xs, n, largest, p, q, t);
    }
    t
}

// One sweep: all pairs p < q, rising.
fn sweep(xs: &mut [f64], n: usize, s: Sweeps) -> Sweeps
    requires { SquareRoom n (length xs.old) × (s.begun < 1000) × (s.turned < 900000) }
    ensures { eigen_state (as_planes (n * n) xs.new) result ≡ sweep_of (eigen_pairings n) n (eigen_state (as_planes (n * n) xs.old) s) }
{
    let largest = largest_diagonal(xs, n);
    let mut t = Sweeps {
        begun: s.begun + 1,
        quiet: true,
        turned: s.turned,
    };
    for p in 0..n {
        t = row(xs, n, largest, p, t);
    }
    t
}

// Up to 60 sweeps, and none after a quiet one.
pub fn settle(xs: &mut [f64], n: usize) -> Sweeps
    requires { SquareRoom n (length xs.old) }
    ensures { eigen_state (as_planes (n * n) xs.new) result ≡ eigen_settled n (as_planes (n * n) xs.old) }
{
    let mut s = Sweeps {
        begun: 0,
        quiet: false,
        turned: 0,
    };
    for k in 0..MAX_EIGEN_SWEEPS {
        s = sweep(xs, n, s);
        if s.quiet {
            break;
        }
    }
    s
}
