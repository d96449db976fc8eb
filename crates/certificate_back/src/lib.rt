// The second part of the two pages: page two past its list, and the last line. Inner: the file's cut was not refused by 1 to 7, and
// the caller gives room.
#![tactic(auto)]

ghost use Rattle.std.specs.Float.{binary64};
ghost use Rattle.std.specs.Float.Ieee.{to_bits};
ghost use Rattle.std.specs.Prelude.{length};
ghost use Rattle.texts.specs.Text.{Puts};
ghost use Rattle.cutfile_result.specs.Result.{state_of};
ghost use Rattle.certificate_back.specs.Back.{total_bits, back_text, BackReady};

// Puts page two past its list, and the last line.
pub fn put_back(
    out: &mut [u8],
    at: usize,
    file: &[u8],
    n: usize,
    k: usize,
    list: &[usize],
    accepted: bool,
) -> usize
    requires { BackReady file.now n k list.now at (length out.old) }
    ensures { Puts at (back_text (state_of file.now n k) n list.now accepted) out.old result out.new }
{
    let mut cells = [0.0f64; 1024];
    decode::decode_state(file, n, k, &mut cells);
    let state = &cells[..2 * cutfile::bit(n)];
    let total = bits::bits_of(cut_totals::kept_total(state, n, list));
    let next = page_two::put_two(out, at, state, n, list, accepted, total);
    texts::put_text(out, next, b"end pages\n")
}
