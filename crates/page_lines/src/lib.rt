// The short lines of the two pages, put into a lent buffer of bytes. Inner: the caller gives room. Each function answers the
// place past what it put, and touches nothing else.
#![tactic(auto)]

ghost use Rattle.std.specs.Prelude.{◌≡◌, ◌+◌, ◌*◌, ◌≤◌, length};
ghost use Rattle.answers.specs.Paper.{paper};
ghost use Rattle.texts.specs.Text.{Puts};
ghost use Rattle.page_lines.specs.PageLines.{hex_item, bits_line, said_line, list_line, reply_line};

use answers::Refusal;

// Puts a word and sixteen hexadecimal digits.
pub fn put_hex_item(out: &mut [u8], at: usize, word: &[u8], bits: u64) -> usize
    requires { at + length word.now + 16 ≤ length out.old }
    ensures { Puts at (hex_item word.now bits) out.old result out.new }
{
    let next = texts::put_text(out, at, word);
    texts::put_hex(out, next, bits)
}

// Puts a line of a word and a bit pattern.
pub fn put_bits(out: &mut [u8], at: usize, word: &[u8], bits: u64) -> usize
    requires { at + length word.now + 17 ≤ length out.old }
    ensures { Puts at (bits_line word.now bits) out.old result out.new }
{
    let next = put_hex_item(out, at, word, bits);
    texts::put_text(out, next, b"\n")
}

// Puts a line of a word and a yes or no.
pub fn put_said(out: &mut [u8], at: usize, word: &[u8], so: bool) -> usize
    requires { at + length word.now + 5 ≤ length out.old }
    ensures { Puts at (said_line word.now so) out.old result out.new }
{
    let next = texts::put_text(out, at, word);
    lines::put_quiet(out, next, so)
}

// Puts the line of the named list.
pub fn put_list(out: &mut [u8], at: usize, list: &[usize]) -> usize
    requires { at + 5 + 21 * length list.now ≤ length out.old }
    ensures { Puts at (list_line list.now) out.old result out.new }
{
    let next = texts::put_text(out, at, b"list");
    let last = lines::put_items(out, next, list);
    texts::put_text(out, last, b"\n")
}

// Puts a line of a word and a refusal's number and place.
#[tactic(auto, unfolding(crate::specs::PageLines::reply_line))]
pub fn put_reply(out: &mut [u8], at: usize, word: &[u8], answer: Result<(), Refusal>) -> usize
    requires { at + length word.now + 42 ≤ length out.old }
    ensures { Puts at (reply_line word.now (paper answer)) out.old result out.new }
{
    let reply = answers::number_of(&answer);
    texts::put_pair_line(out, at, word, reply.number, reply.place)
}
