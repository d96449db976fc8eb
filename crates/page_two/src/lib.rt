// Page two of a state's certificate, past its list: the density and what is said of it, or its refusal. Inner: the cut of page one
// was not refused. The cap is 10 as on page one, so the page names at most 5 qubits, and 2,048 numbers hold the density.
#![tactic(auto)]

ghost use Rattle.std.specs.Prelude.{◌≡◌, length};
ghost use Rattle.texts.specs.Text.{Puts};
ghost use Rattle.page_two.specs.PageTwo.{page_two_text, Shown};

// Puts the lines of the matrices, or of the density's refusal and page one's total.
pub fn put_two(
    out: &mut [u8],
    at: usize,
    state: &[f64],
    n: usize,
    list: &[usize],
    accepted: bool,
    total: u64,
) -> usize
    requires { Shown n list.now at (length out.old) }
    ensures { Puts at (page_two_text state.now n list.now accepted total) out.old result out.new }
{
    let mut density = [0.0f64; 2048];
    let mut scratch = [0.0f64; 64];
    match densities::dense_reduced_density(state, n, list, 10, &mut density, &mut scratch) {
        Ok(()) => {
            let dim = submasks::bit(list.len());
            let rho = &mut density[..2 * (dim * dim)];
            let same = page_sums::summed(state, n, list, rho);
            page_matrices::put_matrices(out, at, rho, dim, accepted, total, same)
        }
        Err(refusal) => {
            let next = page_lines::put_reply(out, at, b"refused ", Err(refusal));
            page_matrices::put_kept(out, next, accepted, total)
        }
    }
}
