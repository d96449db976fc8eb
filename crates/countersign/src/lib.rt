// Countersigns the factors of someone else's package: whether A is U·S·V† within a tolerance, both sets of vectors
// are orthonormal within it, and S never rises and never goes below zero. Every number is a whole number of 2^-18;
// all sums are exact.
#![tactic(auto)]

ghost use Rattle.std.specs.Prelude.{◌≡◌, ◌≤◌, length};
ghost use Rattle.countersign_products.specs.Products.{Read};
ghost use Rattle.countersign.specs.Verdict.{says, found, verdict_of, Accepted, Countersign};

use answers::Refusal;

// What the tests found: all hold, or the first that fails, with its first failing cell.
#[derive(Clone, Copy)]
pub enum Finding {
    Yes,
    Product(usize),
    Left(usize),
    Right(usize),
    Values(usize),
}

// The finding as numbers: yes or no, the test from 1 to 4, the cell.
#[derive(Clone, Copy)]
pub struct Verdict {
    pub yes: bool,
    pub test: usize,
    pub cell: usize,
}

pub fn verdict_of(f: Finding) -> Verdict
    ensures { (result.yes ≡ (says f).0) × (result.test ≡ (says f).1) × (result.cell ≡ (says f).2) }
{
    let (yes, test, cell) = match f {
        Finding::Yes => (true, 0, 0),
        Finding::Product(c) => (false, 1, c),
        Finding::Left(c) => (false, 2, c),
        Finding::Right(c) => (false, 3, c),
        Finding::Values(c) => (false, 4, c),
    };
    Verdict { yes, test, cell }
}

// The same of a call's answer: a refused one says no, 0, 0.
pub fn verdict_of_call(answer: &Result<Finding, Refusal>) -> Verdict
    ensures { (result.yes ≡ (found answer.now).0) × (result.test ≡ (found answer.now).1) × (result.cell ≡ (found answer.now).2) }
{
    match answer {
        Ok(finding) => verdict_of(*finding),
        Err(_) => Verdict {
            yes: false,
            test: 0,
            cell: 0,
        },
    }
}

// The four tests in their order, over slices of an accepted call; the factors' numbers stand in us, ss and vs.
#[tactic(auto, unfolding(crate::specs::Verdict::verdict_of, crate::specs::Verdict::fails_at))]
fn judge(
    a: &[f64],
    m: usize,
    n: usize,
    k: usize,
    u: &[f64],
    us: &[u32],
    s: &[f64],
    ss: &[u32],
    vt: &[f64],
    vs: &[u32],
    tolerance: u64,
) -> Finding
    requires accepted { Accepted m n k (length a.now) (length u.now) (length s.now) (length vt.now) }
    requires read { Read u.now us.now s.now ss.now vt.now vs.now }
    ensures { says result ≡ verdict_of a.now m n k u.now s.now vt.now tolerance }
{
    if let Some(entry) = countersign_scans::first_product(
        a, u, us, s, ss, vt, vs, m, n, k, tolerance,
    ) {
        return Finding::Product(entry);
    }
    if let Some(left) = countersign_scans::first_inner(u, us, m, k, tolerance) {
        return Finding::Left(left);
    }
    if let Some(right) = countersign_scans::first_inner(vt, vs, n, k, tolerance) {
        return Finding::Right(right);
    }
    if let Some(value) = countersign_scans::first_value(s) {
        return Finding::Values(value);
    }
    Finding::Yes
}

// The same, with the factors' numbers read first, into rooms of ROOM numbers: of a call of few cells they are soon cleared.
fn read_and_judge<const ROOM: usize>(
    a: &[f64],
    m: usize,
    n: usize,
    k: usize,
    u: &[f64],
    s: &[f64],
    vt: &[f64],
    tolerance: u64,
) -> Finding
    requires accepted { Accepted m n k (length a.now) (length u.now) (length s.now) (length vt.now) }
    requires room { (ROOM ≤ 8192) × (length u.now ≤ ROOM) × (length vt.now ≤ ROOM) }
    ensures { says result ≡ verdict_of a.now m n k u.now s.now vt.now tolerance }
{
    let mut us = [0u32; ROOM];
    let mut ss = [0u32; 16];
    let mut vs = [0u32; ROOM];
    countersign_shifted::shift(u, &mut us);
    countersign_shifted::shift(s, &mut ss);
    countersign_shifted::shift(vt, &mut vs);
    judge(a, m, n, k, u, &us, s, &ss, vt, &vs, tolerance)
}

// A is m by n, column-major; U m by k, column-major; S has k values; V† is k by n, row-major; k is the smaller size.
// The tolerance is a whole number of 2^-54.
pub fn countersign(
    a: &[f64],
    m: usize,
    n: usize,
    u: &[f64],
    s: &[f64],
    vt: &[f64],
    tolerance: u64,
) -> Result<Finding, Refusal>
    ensures { Countersign a.now m n u.now s.now vt.now tolerance result }
{
    countersign_checks::check(a, m, n, u, s, vt)?;
    let k = matrix_sizes::smaller_size(m, n);
    if a.len() <= 512 {
        Ok(read_and_judge::<512>(a, m, n, k, u, s, vt, tolerance))
    } else {
        Ok(read_and_judge::<8192>(a, m, n, k, u, s, vt, tolerance))
    }
}
