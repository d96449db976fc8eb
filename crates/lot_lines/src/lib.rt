// The lines of a lot's sheet, put into a lent buffer of bytes. Inner: the caller gives room. Each function answers the place past what it
// put, and touches nothing else.
#![tactic(auto)]

ghost use Rattle.std.specs.Prelude.{◌≡◌, ◌+◌, ◌*◌, ◌≤◌, length};
ghost use Rattle.texts.specs.Text.{Puts};
ghost use Rattle.lot_lines.specs.SheetLines.{count_lines, mark_lines, sheet_text};

// Puts a line for each of a row of counts: the word, the number of the row's place, and the count.
fn put_counts(out: &mut [u8], at: usize, word: &[u8], first: usize, counts: &[usize]) -> usize
    requires { (at + 49 * length counts.now ≤ length out.old) × (length word.now ≤ 7) × (first ≤ 1) }
    ensures { Puts at (count_lines word.now first (length counts.now) counts.now) out.old result out.new }
{
    let mut next = at;
    for (i, count) in counts.iter().enumerate() {
        next = texts::put_pair_line(out, next, word, first + i, *count);
    }
    next
}

// Puts the last three lines: the smallest and the largest rank, each with its first file, and the sum.
fn put_marks(out: &mut [u8], at: usize, sheet: &[usize]) -> usize
    requires { (at + 130 ≤ length out.old) × (length sheet.now ≡ 32) }
    ensures { Puts at (mark_lines sheet.now) out.old result out.new }
{
    let past = texts::put_pair_line(out, at, b"smallest ", sheet[27], sheet[28]);
    let last = texts::put_pair_line(out, past, b"largest ", sheet[29], sheet[30]);
    texts::put_line(out, last, b"sum ", sheet[31])
}

// Puts the whole sheet of a lot of count files: its 32 numbers, in lines.
pub fn put_lines(out: &mut [u8], count: usize, sheet: &[usize]) -> usize
    requires { (2048 ≤ length out.old) × (length sheet.now ≡ 32) }
    ensures { Puts 0 (sheet_text count sheet.now) out.old result out.new }
{
    let second = texts::put_line(out, 0, b"lot ", count);
    let third = put_counts(out, second, b"answer ", 0, &sheet[..11]);
    let last = put_counts(out, third, b"rank ", 1, &sheet[11..27]);
    put_marks(out, last, sheet)
}
