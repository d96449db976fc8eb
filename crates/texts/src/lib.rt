// Texts put into a lent buffer of bytes: bytes, a number in decimal or hexadecimal, a word and a number. Inner: the caller
// gives room. Each function answers the place past what it put, and touches nothing else.
#![tactic(auto)]

ghost use Rattle.std.specs.Prelude.{[], ◌∷◌, ◌++◌, ◌≡◌, ◌+◌, ◌*◌, ◌<◌, ◌≤◌, length};
ghost use Rattle.texts.specs.Text.{decimal, hex, Puts, item_text, line, pair_line};
ghost use Rattle.texts.specs.Text.{digit as Text·digit};

// Puts the bytes of text at a place.
#[tactic(auto, using(crate::proofs::TextLaws::copied))]
pub fn put_text(out: &mut [u8], at: usize, text: &[u8]) -> usize
    requires { at + length text.now ≤ length out.old }
    ensures { Puts at text.now out.old result out.new }
{
    let end = at + text.len();
    copies::copy_over(&mut out[at..end], text);
    end
}

// Puts a number in decimal.
pub fn put_decimal(out: &mut [u8], at: usize, n: usize) -> usize
    requires { at + 20 ≤ length out.old }
    ensures { Puts at (decimal n) out.old result out.new }
{
    let mut digits = [0u8; 20];
    let count = io::decimal(n as u64, &mut digits);
    put_text(out, at, &digits[..count])
}

fn digit(d: u64) -> u8
    requires { d < 16 }
    ensures { result ≡ Text·digit d }
{
    if d < 10 { 48 + d as u8 } else { 55 + d as u8 }
}

// Puts sixteen hexadecimal digits.
pub fn put_hex(out: &mut [u8], at: usize, bits: u64) -> usize
    requires { at + 16 ≤ length out.old }
    ensures { Puts at (hex 16 bits) out.old result out.new }
{
    for i in 0..16 {
        let shift: usize = 60 - 4 * i;
        out[at + i] = digit((bits >> shift) % 16);
    }
    at + 16
}

// Puts a word and a number.
pub fn put_item(out: &mut [u8], at: usize, word: &[u8], n: usize) -> usize
    requires { at + length word.now + 20 ≤ length out.old }
    ensures { Puts at (item_text word.now n) out.old result out.new }
{
    let next = put_text(out, at, word);
    put_decimal(out, next, n)
}

// Puts a line of a word and a number.
pub fn put_line(out: &mut [u8], at: usize, word: &[u8], a: usize) -> usize
    requires { at + length word.now + 21 ≤ length out.old }
    ensures { Puts at (line word.now a) out.old result out.new }
{
    let next = put_item(out, at, word, a);
    put_text(out, next, b"\n")
}

// Puts a line of a word and two numbers.
pub fn put_pair_line(out: &mut [u8], at: usize, word: &[u8], a: usize, b: usize) -> usize
    requires { at + length word.now + 42 ≤ length out.old }
    ensures { Puts at (pair_line word.now a b) out.old result out.new }
{
    let next = put_item(out, at, word, a);
    put_line(out, next, b" ", b)
}
