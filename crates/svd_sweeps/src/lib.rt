// Inner: the one-sided Jacobi sweeps of the SVD, over a work matrix and V that are lent as planes.
// Row r of column p of a matrix of m rows is its cell p * m + r.
#![tactic(auto)]

ghost use Rattle.std.specs.Prelude.{◌≡◌, true, [], ◌+◌, ◌-◌, ◌*◌, ◌<◌, ◌≤◌, length, get_or};
ghost use Rattle.svd_pair.specs.Turns.{turn_factors, turn_rows};
ghost use Rattle.svd_pair.specs.Plain.{making};
ghost use Rattle.sweeps.specs.Sweeping.{state, pair_step, pairs_to, sweep_of};
ghost use Rattle.svd_sweeps.specs.Sweeping.{ValueRoom, VRoom, SweepRoom, svd_pairing, svd_pairings, settled_with};
ghost use Rattle.svd_sweeps.specs.Marks.{look, Marked, Seen};
ghost use Rattle.svd_sweeps.specs.Late.{caught_up, Waiting, late_state, begun_late, none_late};

use complex::Complex;
use svd_pair::Turn;
use sweeps::Sweeps;

const MAX_SVD_SWEEPS: usize = 100;

// The columns p and q of V are turned too, where there is a V.
fn turn_v(
    v: &mut [f64],
    n: usize,
    p: usize,
    q: usize,
    cosine: f64,
    sine: f64,
    phase: Complex,
    plain: bool,
)
    requires { VRoom n (length v.old) × (n ≤ 64) × (p < q) × (q < n) }
    ensures { v.new ≡ turn_rows (making plain) (turn_factors cosine sine phase) (n * n) (p * n) (q * n) n v.old }
{
    if !v.is_empty() {
        svd_pair::turn_columns(v, n * n, p * n, q * n, n, cosine, sine, phase, plain);
    }
}

// A turn of the columns p and q.
#[derive(Clone, Copy)]
pub struct Waited {
    pub p: usize,
    pub q: usize,
    pub turn: Turn,
}

// How the sweeps stand, and the turn that V still waits for, if it does for one. V is turned one decision late: nothing but V waits for that turn,
// so it fills the time in which the next decision's steps wait for each other.
#[derive(Clone, Copy)]
pub struct Late {
    pub s: Sweeps,
    pub waiting: Option<Waited>,
}

// The turn that V waits for is made.
fn catch_up(v: &mut [f64], n: usize, w: Late, plain: bool)
    requires { VRoom n (length v.old) × (n ≤ 64) × Waiting n w }
    ensures { v.new ≡ caught_up (making plain) n w v.old }
{
    if let Some(t) = w.waiting {
        turn_v(
            v,
            n,
            t.p,
            t.q,
            t.turn.cosine,
            t.turn.sine,
            t.turn.phase,
            plain,
        );
    }
}

// The pair p, q: what is decided is done to the work matrix, and V waits for it. All in one function, since a decision that is handed on goes by
// way of memory.
fn pair(
    work: &mut [f64],
    v: &mut [f64],
    m: usize,
    n: usize,
    p: usize,
    q: usize,
    w: Late,
    plain: bool,
) -> Late
    requires { SweepRoom m n (length work.old) (length v.old) × (p < q) × (q < n) × (w.s.turned < 1000000) × Waiting n w }
    ensures done { late_state (making plain) n work.new v.new result ≡ pair_step (svd_pairing (making plain) m n) p q (late_state (making plain) n work.old v.old w) }
    ensures waiting { Waiting n result }
{
    let d = svd_pair::decide(svd_gram::gram_of(work, n * m, p * m, q * m, m));
    let Some(turn) = d else {
        return w;
    };
    catch_up(v, n, w, plain);
    svd_pair::turn_columns(
        work,
        n * m,
        p * m,
        q * m,
        m,
        turn.cosine,
        turn.sine,
        turn.phase,
        plain,
    );
    Late {
        s: sweeps::count(d, w.s),
        waiting: Some(Waited { p, q, turn }),
    }
}

// Whether neither column was turned since the look with the number `last`.
pub fn unchanged(marks: &[usize], p: usize, q: usize, last: usize) -> bool
    requires { (p < length marks.now) × (q < length marks.now) }
    ensures { result ≡ true → (get_or marks.now p 0 < last) × (get_or marks.now q 0 < last) }
{
    marks[p] < last && marks[q] < last
}

// The pair p, q, which is passed over where neither column was turned since it was left: it would be left again.
fn visit(
    work: &mut [f64],
    v: &mut [f64],
    marks: &mut [usize],
    m: usize,
    n: usize,
    p: usize,
    q: usize,
    w: Late,
    plain: bool,
) -> Late
    requires { SweepRoom m n (length work.old) (length v.old) × Marked n p q w.s (length marks.old) × Seen m n (look w.s.begun p q) marks.old work.old × Waiting n w }
    ensures done { late_state (making plain) n work.new v.new result ≡ pair_step (svd_pairing (making plain) m n) p q (late_state (making plain) n work.old v.old w) }
    ensures seen { Seen m n (look w.s.begun p q + 1) marks.new work.new }
    ensures waiting { Waiting n result }
{
    let now = w.s.begun * 4096 + p * 64 + q;
    if unchanged(marks, p, q, now - 4096) {
        return w;
    }
    let t = pair(work, v, m, n, p, q, w, plain);
    if t.s.turned != w.s.turned {
        marks[p] = now;
        marks[q] = now;
    }
    t
}

// The pairs of the column p with each later one.
fn column(
    work: &mut [f64],
    v: &mut [f64],
    marks: &mut [usize],
    m: usize,
    n: usize,
    p: usize,
    w: Late,
    plain: bool,
) -> Late
    requires { SweepRoom m n (length work.old) (length v.old) × (p < n) × (w.s.turned + n < 1000000) × (1 ≤ w.s.begun) × (w.s.begun ≤ 1000)
        × (length marks.old ≡ 64) × Seen m n (look w.s.begun p 0) marks.old work.old × Waiting n w }
    ensures done { late_state (making plain) n work.new v.new result ≡ pairs_to (svd_pairing (making plain) m n) p (n - (p + 1)) (late_state (making plain) n work.old v.old w) }
    ensures seen { Seen m n (look w.s.begun (p + 1) 0) marks.new work.new }
    ensures waiting { Waiting n result }
{
    let mut t = w;
    for q in (p + 1)..n {
        t = visit(work, v, marks, m, n, p, q, t, plain);
    }
    t
}

// A sweep begins: it is counted, and quiet until it turns a pair.
fn begin_sweep(w: Late) -> Late
    requires { w.s.begun < 1000 }
    ensures { result ≡ begun_late w }
{
    Late {
        s: Sweeps {
            begun: w.s.begun + 1,
            quiet: true,
            turned: w.s.turned,
        },
        waiting: w.waiting,
    }
}

// One sweep: all pairs p < q, rising.
fn sweep(
    work: &mut [f64],
    v: &mut [f64],
    marks: &mut [usize],
    m: usize,
    n: usize,
    w: Late,
    plain: bool,
) -> Late
    requires { SweepRoom m n (length work.old) (length v.old) × (w.s.begun < 1000) × (w.s.turned < 900000)
        × (length marks.old ≡ 64) × Seen m n (look (w.s.begun + 1) 0 0) marks.old work.old × Waiting n w }
    ensures done { late_state (making plain) n work.new v.new result ≡ sweep_of (svd_pairings (making plain) m n) n (late_state (making plain) n work.old v.old w) }
    ensures seen { Seen m n (look (w.s.begun + 2) 0 0) marks.new work.new }
    ensures waiting { Waiting n result }
{
    let mut t = begin_sweep(w);
    for p in 0..n {
        t = column(work, v, marks, m, n, p, t, plain);
    }
    t
}

// Before the first sweep V waits for nothing.
fn no_sweeps() -> Late
    ensures { result ≡ none_late }
{
    Late {
        s: sweeps::none(),
        waiting: None,
    }
}

// Up to 100 sweeps, and none after a quiet one. V may wait for the last turn.
fn sweep_all(work: &mut [f64], v: &mut [f64], m: usize, n: usize, plain: bool) -> Late
    requires { SweepRoom m n (length work.old) (length v.old) }
    ensures done { late_state (making plain) n work.new v.new result ≡ settled_with (making plain) m n work.old v.old }
    ensures waiting { Waiting n result }
{
    let mut marks = [4096usize; 64];
    let mut w = no_sweeps();
    for k in 0..MAX_SVD_SWEEPS {
        w = sweep(work, v, &mut marks, m, n, w, plain);
        if w.s.quiet {
            break;
        }
    }
    w
}

// The sweeps over the work matrix of m rows and n columns and over V, which may be empty; plain: without the products by zeros.
pub fn settle(work: &mut [f64], v: &mut [f64], m: usize, n: usize, plain: bool) -> Sweeps
    requires { SweepRoom m n (length work.old) (length v.old) }
    ensures { state work.new v.new result ≡ settled_with (making plain) m n work.old v.old }
{
    let w = sweep_all(work, v, m, n, plain);
    catch_up(v, n, w, plain);
    w.s
}

// The same on the work matrix alone, where no V is wanted. The contract names an empty V; no V changes the work matrix or the
// counts (`settled-alike`, proofs/SweepingLaws.antt).
pub fn settle_alone(work: &mut [f64], m: usize, n: usize, plain: bool) -> Sweeps
    requires { ValueRoom m n (length work.old) }
    ensures { state work.new [] result ≡ settled_with (making plain) m n work.old [] }
{
    let mut none = [0.0f64; 0];
    settle(work, &mut none, m, n, plain)
}
