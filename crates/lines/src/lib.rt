// The lines of the printout, put into a lent buffer of bytes. Inner: the caller gives room. Each function answers the place
// past what it put, and touches nothing else.
#![tactic(auto)]

ghost use Rattle.std.specs.Prelude.{◌≡◌, ◌+◌, ◌*◌, ◌≤◌, length};
ghost use Rattle.answers.specs.Paper.{paper};
ghost use Rattle.texts.specs.Text.{Puts};
ghost use Rattle.lines.specs.Lines.{refused_line, cut_line, value_line, items, side_line, value_lines, quiet_text, end_line, entropy_line, last_lines, listing};

use answers::Refusal;

// Puts the one line of a refusal.
#[tactic(auto, unfolding(crate::specs::Lines::refused_line))]
pub fn put_refused(out: &mut [u8], answer: Result<(), Refusal>) -> usize
    requires { 50 ≤ length out.old }
    ensures { Puts 0 (refused_line (paper answer)) out.old result out.new }
{
    let reply = answers::number_of(&answer);
    texts::put_pair_line(out, 0, b"refused ", reply.number, reply.place)
}

// Puts the first line: n, k, rows, columns.
pub fn put_cut(out: &mut [u8], at: usize, n: usize, k: usize, rows: usize, cols: usize) -> usize
    requires { at + 88 ≤ length out.old }
    ensures { Puts at (cut_line n k rows cols) out.old result out.new }
{
    let past_n = texts::put_item(out, at, b"cut ", n);
    let past_k = texts::put_item(out, past_n, b" ", k);
    texts::put_pair_line(out, past_k, b" ", rows, cols)
}

// Puts the line of a value: its rank from 0, and its bits.
pub fn put_value(out: &mut [u8], at: usize, rank: usize, bits: u64) -> usize
    requires { at + 64 ≤ length out.old }
    ensures { Puts at (value_line rank bits) out.old result out.new }
{
    let past_rank = texts::put_item(out, at, b"value ", rank);
    let digits = texts::put_text(out, past_rank, b" ");
    let end = texts::put_hex(out, digits, bits);
    texts::put_text(out, end, b"\n")
}

// Puts the line of the smaller side's list.
pub fn put_side(out: &mut [u8], at: usize, list: &[usize]) -> usize
    requires { at + 5 + 21 * length list.now ≤ length out.old }
    ensures { Puts at (side_line list.now) out.old result out.new }
{
    let next = texts::put_text(out, at, b"side");
    let last = put_items(out, next, list);
    texts::put_text(out, last, b"\n")
}

// Puts the numbers of a list, a blank before each.
pub fn put_items(out: &mut [u8], at: usize, list: &[usize]) -> usize
    requires { at + 21 * length list.now ≤ length out.old }
    ensures { Puts at (items (length list.now) list.now) out.old result out.new }
{
    let mut next = at;
    for n in list {
        next = texts::put_item(out, next, b" ", *n);
    }
    next
}

// Puts the lines of the values.
pub fn put_values(out: &mut [u8], at: usize, values: &[f64]) -> usize
    requires { at + 64 * length values.now ≤ length out.old }
    ensures { Puts at (value_lines (length values.now) values.now) out.old result out.new }
{
    let mut next = at;
    for (rank, value) in values.iter().enumerate() {
        next = put_value(out, next, rank, bits::bits_of(*value));
    }
    next
}

// Puts the end of a line that says yes or no, as the last line does of the last sweep.
#[tactic(auto, unfolding(crate::specs::Lines::quiet_text))]
pub fn put_quiet(out: &mut [u8], at: usize, quiet: bool) -> usize
    requires { at + 5 ≤ length out.old }
    ensures { Puts at (quiet_text quiet) out.old result out.new }
{
    if quiet {
        texts::put_text(out, at, b" yes\n")
    } else {
        texts::put_text(out, at, b" no\n")
    }
}

// Puts the last line: how many values there are, how many sweeps were begun, and whether the last one was quiet.
pub fn put_end(out: &mut [u8], at: usize, count: usize, sweeps: usize, quiet: bool) -> usize
    requires { at + 50 ≤ length out.old }
    ensures { Puts at (end_line count sweeps quiet) out.old result out.new }
{
    let past_count = texts::put_item(out, at, b"end ", count);
    let past_sweeps = texts::put_item(out, past_count, b" ", sweeps);
    put_quiet(out, past_sweeps, quiet)
}

// Puts the line of the entropy's band: its two sums, and 4096 times the sum of the weights.
fn put_entropy(out: &mut [u8], at: usize, low: usize, high: usize, whole: usize) -> usize
    requires { at + 71 ≤ length out.old }
    ensures { Puts at (entropy_line low high whole) out.old result out.new }
{
    let past_low = texts::put_item(out, at, b"entropy ", low);
    texts::put_pair_line(out, past_low, b" ", high, whole)
}

// Puts the last two lines.
fn put_last(
    out: &mut [u8],
    at: usize,
    low: usize,
    high: usize,
    whole: usize,
    count: usize,
    sweeps: usize,
    quiet: bool,
) -> usize
    requires { at + 121 ≤ length out.old }
    ensures { Puts at (last_lines low high whole count sweeps quiet) out.old result out.new }
{
    let last = put_entropy(out, at, low, high, whole);
    put_end(out, last, count, sweeps, quiet)
}

// Puts the whole printout of a cut that is answered 0.
pub fn put_listing(
    out: &mut [u8],
    n: usize,
    k: usize,
    rows: usize,
    cols: usize,
    side: &[usize],
    values: &[f64],
    low: usize,
    high: usize,
    whole: usize,
    sweeps: usize,
    quiet: bool,
) -> usize
    requires { 214 + 21 * length side.now + 64 * length values.now ≤ length out.old }
    ensures { Puts 0 (listing n k rows cols side.now values.now low high whole sweeps quiet) out.old result out.new }
{
    let second = put_cut(out, 0, n, k, rows, cols);
    let third = put_side(out, second, side);
    let last = put_values(out, third, values);
    put_last(out, last, low, high, whole, values.len(), sweeps, quiet)
}
