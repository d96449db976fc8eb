// Thin QR: `factorize_gram_schmidt` of src/backend/mps/svd.rs, with its refusals.
#![tactic(auto)]

ghost use Rattle.std.specs.Prelude.{◌≡◌, ◌&&◌, ◌<◌, min, length};
ghost use Rattle.answers.specs.Paper.{paper};
ghost use Rattle.matrix_sizes.specs.Sizes.{MatrixSized};
ghost use Rattle.complex.specs.Zeros.{zeros};
ghost use Rattle.qr_passes.specs.Room.{QrRoom};
ghost use Rattle.qr_passes.specs.GramSchmidt.{factors, qr_factors};
ghost use Rattle.values.specs.Lists.{all_finite};
ghost use Rattle.qr.specs.Call.{qr_lengths, qr_refusal, QrFinished, Factorized};

use answers::Refusal;

// Whether every number of both is finite.
fn both_finite(q: &[f64], r: &[f64]) -> bool
    ensures { result ≡ all_finite q.now && all_finite r.now }
{
    values::all_finite(q) && values::all_finite(r)
}

// The rank; or answer 9, and then q and r are +0.0.
fn settle(q: &mut [f64], r: &mut [f64], rank: usize) -> Result<usize, Refusal>
    ensures { QrFinished (factors q.old r.old rank) result q.new r.new }
{
    if both_finite(q, r) {
        return Ok(rank);
    }
    complex::zero_first(q, q.len());
    complex::zero_first(r, r.len());
    Err(Refusal::NotFinite)
}

// On slices of the needed lengths: the factors or answer 9, and the scratch +0.0 after either.
fn factor_parts(
    a: &[f64],
    rows: usize,
    cols: usize,
    q: &mut [f64],
    r: &mut [f64],
    scratch: &mut [f64],
) -> Result<usize, Refusal>
    requires qr_room { QrRoom rows cols (min rows cols) (length a.now) (length q.old) (length r.old) (length scratch.old) }
    requires in_bounds { 1 < length q.old }
    ensures is { QrFinished (qr_factors a.now rows cols) result q.new r.new }
    ensures cleared { scratch.new ≡ zeros (length scratch.old) }
{
    let rank = qr_factor::factor(a, rows, cols, q, r, scratch);
    complex::zero_first(scratch, scratch.len());
    settle(q, r, rank)
}

// Answer 6.
#[tactic(auto, unfolding(crate::specs::Call::qr_lengths))]
fn check_lengths(
    rows: usize,
    cols: usize,
    a: usize,
    q: usize,
    r: usize,
    scratch: usize,
) -> Result<(), Refusal>
    requires { MatrixSized rows cols }
    ensures { paper result ≡ qr_lengths rows cols a q r scratch }
{
    let cap = rows.min(cols);
    answers::exact_length(0, a, 2 * (rows * cols))?;
    answers::enough_room(1, q, 2 * (cap * rows))?;
    answers::enough_room(2, r, 2 * (cap * cols))?;
    answers::enough_room(3, scratch, 2 * rows)
}

// Answers 1, 6 and 7.
#[tactic(auto, unfolding(crate::specs::Call::qr_refusal))]
fn check(
    a: &[f64],
    rows: usize,
    cols: usize,
    q: usize,
    r: usize,
    scratch: usize,
) -> Result<(), Refusal>
    ensures { paper result ≡ qr_refusal a.now rows cols q r scratch }
{
    matrix_sizes::check_sizes(rows, cols)?;
    check_lengths(rows, cols, a.len(), q, r, scratch)?;
    components::check_components(a)
}

// Thin QR of the column-major matrix a of rows by cols: q gets orthonormal columns, column-major, r is row-major with
// cols cells to a row, and the rank says how many columns of q and rows of r count.
pub fn factorize_gram_schmidt(
    a: &[f64],
    rows: usize,
    cols: usize,
    q: &mut [f64],
    r: &mut [f64],
    scratch: &mut [f64],
) -> Result<usize, Refusal>
    ensures { Factorized a.now rows cols q.old r.old scratch.old result
        q.new r.new scratch.new }
{
    check(a, rows, cols, q.len(), r.len(), scratch.len())?;
    let cap = rows.min(cols);
    let in_q = 2 * (cap * rows);
    let in_r = 2 * (cap * cols);
    let in_scratch = 2 * rows;
    factor_parts(
        a,
        rows,
        cols,
        &mut q[..in_q],
        &mut r[..in_r],
        &mut scratch[..in_scratch],
    )
}
