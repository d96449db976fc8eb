// Inner: a pair of the eigenvalue sweep, in a square matrix of n rows, row-major: the cell of row p and column q is p * n + q.
// Cosine and sine are real here. The definitions speak of planes; the matrix is lent as cells, since a column's cells are as far
// apart as its rows are long and the two parts of each are then read at once.
#![tactic(auto)]

ghost use Rattle.std.specs.Prelude.{◌≡◌, ◌+◌, ◌*◌, ◌<◌, ◌≤◌, length};
ghost use Rattle.eigen_pair.specs.Decide.{eigen_tangent, left_alone, eigen_decision};
ghost use Rattle.eigen_pair.specs.CellPlanes.{as_planes};
ghost use Rattle.eigen_pair.specs.Turn.{eigen_new_p, eigen_new_q, turn_two, turn_line, turned, eigen_applied};

use complex::Complex;
use root_guesses::Guesses;
use svd_pair::Turn;

const EIGEN_PAIR_TOL: f64 = 1e-15;

// ---- the decision

// The tangent of the angle: the root of smaller magnitude. The sign of a zero theta counts.
fn tangent(theta: f64, near: Guesses) -> f64
    ensures { result ≡ eigen_tangent theta }
{
    let x = 1.0 + theta * theta;
    let root = root_guesses::root_near(x, root_guesses::sharpened(x, near.root, near.root_over));
    numbers::sign(theta) / (numbers::magnitude(theta) + root)
}

// Whether the pair's own tolerance leaves it, or that of the largest diagonal entry, which is asked first: it needs no root.
#[tactic(auto, unfolding(crate::specs::Decide::left_alone))]
fn left_alone(modulus: f64, app: f64, aqq: f64, largest: f64) -> bool
    ensures { result ≡ left_alone modulus app aqq largest }
{
    modulus <= EIGEN_PAIR_TOL * largest
        || modulus <= EIGEN_PAIR_TOL * root_guesses::root_of(numbers::magnitude(app * aqq))
}

// The decision on a pair with the entry apq and the diagonal entries app and aqq.
pub fn decide(apq: Complex, app: f64, aqq: f64, largest: f64) -> Option<Turn>
    ensures { result ≡ eigen_decision apq app aqq largest }
{
    let near = root_guesses::guess_roots(aqq - app, apq.norm_sqr());
    let modulus = modulus::modulus_near(apq, near.modulus);
    if left_alone(modulus, app, aqq, largest) {
        return None;
    }
    let theta = (aqq - app) / (2.0 * modulus);
    Some(svd_pair::turn_at(apq, modulus, tangent(theta, near), near))
}

// ---- the turn

// The new cell of p by a turn of the cells x of p and y of q.
#[tactic(auto, unfolding(crate::specs::Turn::eigen_new_p))]
fn new_p(w: Turn, x: Complex, y: Complex) -> Complex
    ensures { result ≡ eigen_new_p w x y }
{
    x.real_times(w.cosine)
        .sub(w.phase.real_times(w.sine).mul(y))
}

// The new cell of q.
#[tactic(auto, unfolding(crate::specs::Turn::eigen_new_q))]
fn new_q(w: Turn, x: Complex, y: Complex) -> Complex
    ensures { result ≡ eigen_new_q w x y }
{
    x.real_times(w.sine)
        .add(w.phase.real_times(w.cosine).mul(y))
}

// The cells i and j of a matrix of c cells are turned, both from their old values.
fn turn_two(xs: &mut [f64], c: usize, i: usize, j: usize, w: Turn)
    requires { (length xs.old ≡ 2 * c) × (i < c) × (j < c) }
    ensures { as_planes c xs.new ≡ turn_two w c i j (as_planes c xs.old) }
{
    let x = complex::read_cell(xs, i);
    let y = complex::read_cell(xs, j);
    complex::write_cell(xs, i, new_p(w, x, y));
    complex::write_cell(xs, j, new_q(w, x, y));
}

// The columns p and q.
fn turn_columns(xs: &mut [f64], n: usize, p: usize, q: usize, w: Turn)
    requires { (length xs.old ≡ 2 * (n * n)) × (p < n) × (q < n) }
    ensures { as_planes (n * n) xs.new ≡ turn_line w (n * n) n p q n (as_planes (n * n) xs.old) }
{
    let c = n * n;
    for k in 0..n {
        turn_two(xs, c, k * n + p, k * n + q, w);
    }
}

// The rows that start at the cells i and j.
fn turn_rows(xs: &mut [f64], n: usize, i: usize, j: usize, w: Turn)
    requires { (length xs.old ≡ 2 * (n * n)) × (i + n ≤ n * n) × (j + n ≤ n * n) }
    ensures { as_planes (n * n) xs.new ≡ turn_line w (n * n) 1 i j n (as_planes (n * n) xs.old) }
{
    let c = n * n;
    for k in 0..n {
        turn_two(xs, c, k * 1 + i, k * 1 + j, w);
    }
}

// The columns p and q with the conjugate of the phase, and then the rows with the phase.
fn turn_pair(xs: &mut [f64], n: usize, p: usize, q: usize, w: Turn)
    requires { (length xs.old ≡ 2 * (n * n)) × (p < n) × (q < n) }
    ensures { as_planes (n * n) xs.new ≡ turned w n p q (as_planes (n * n) xs.old) }
{
    let back = w.phase.conj();
    turn_columns(
        xs,
        n,
        p,
        q,
        Turn {
            cosine: w.cosine,
            sine: w.sine,
            phase: back,
        },
    );
    turn_rows(xs, n, p * n, q * n, w);
}

// What is decided is done to the pair p, q.
#[tactic(auto, unfolding(crate::specs::Turn::eigen_applied))]
pub fn apply(xs: &mut [f64], n: usize, p: usize, q: usize, d: Option<Turn>)
    requires { (length xs.old ≡ 2 * (n * n)) × (p < n) × (q < n) }
    ensures { as_planes (n * n) xs.new ≡ eigen_applied d n p q (as_planes (n * n) xs.old) }
{
    if let Some(w) = d {
        turn_pair(xs, n, p, q, w);
    }
}
