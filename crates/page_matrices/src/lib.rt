// The lines of page two's matrices, put into a lent buffer of bytes: the density as it was summed and its trace, the total of page
// one where it was not refused, the trace-scaled matrix or its refusal, and whether the two pages agree. Inner: the caller gives room.
#![tactic(auto)]

ghost use Rattle.std.specs.Prelude.{◌≡◌, ◌+◌, ◌*◌, ◌≤◌, length};
ghost use Rattle.texts.specs.Text.{Puts};
ghost use Rattle.page_cells.specs.PageCells.{Lined};
ghost use Rattle.page_matrices.specs.Matrices.{cell_word, scaled_word, unscaled_text, kept_text, scaled_text, scaled_at, matrices_text, Drawn};

// Puts the lines of the unscaled matrix and of its trace.
pub fn put_unscaled(out: &mut [u8], at: usize, rho: &[f64], dim: usize) -> usize
    requires { Lined cell_word dim rho.now at (length out.old) }
    ensures { Puts at (unscaled_text rho.now dim) out.old result out.new }
{
    let next = page_cells::put_cells(out, at, b"cell ", rho, dim);
    let bits = bits::bits_of(density_trace::trace_of(rho, dim));
    page_lines::put_bits(out, next, b"trace ", bits)
}

// Puts the line of page one's total, or nothing.
#[tactic(auto, using(texts::proofs::TextLaws::puts_none), unfolding(crate::specs::Matrices::kept_text))]
pub fn put_kept(out: &mut [u8], at: usize, accepted: bool, bits: u64) -> usize
    requires { at + 22 ≤ length out.old }
    ensures { Puts at (kept_text accepted bits) out.old result out.new }
{
    if accepted {
        page_lines::put_bits(out, at, b"kept ", bits)
    } else {
        at
    }
}

// Puts the lines of the scaled matrix, or of its refusal; the matrix is then as the call that scales it left it.
pub fn put_scaled(out: &mut [u8], at: usize, rho: &mut [f64], dim: usize) -> usize
    requires { Lined scaled_word dim rho.old at (length out.old) }
    ensures puts { Puts at (scaled_text rho.old dim) out.old result out.new }
    ensures rho_after { rho.new ≡ scaled_at rho.old dim }
{
    match density_trace::normalize_trace(rho, dim) {
        Ok(()) => page_cells::put_cells(out, at, b"scaled ", rho, dim),
        Err(refusal) => page_lines::put_reply(out, at, b"scaled refused ", Err(refusal)),
    }
}

// Puts all of them, in their order.
pub fn put_matrices(
    out: &mut [u8],
    at: usize,
    rho: &mut [f64],
    dim: usize,
    accepted: bool,
    total: u64,
    same: bool,
) -> usize
    requires { Drawn dim rho.old at (length out.old) }
    ensures puts { Puts at (matrices_text rho.old dim accepted total same) out.old result out.new }
    ensures rho_after { rho.new ≡ scaled_at rho.old dim }
{
    let second = put_unscaled(out, at, rho, dim);
    let third = put_kept(out, second, accepted, total);
    let last = put_scaled(out, third, rho, dim);
    page_lines::put_said(out, last, b"summed", same)
}
