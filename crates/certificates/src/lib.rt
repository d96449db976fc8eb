// What the program `cutprint` prints of the result of a cut file. Its number buffers are filled arrays, lent to the library.
#![tactic(auto)]

ghost use Rattle.std.specs.Prelude.{◌≡◌, ◌≤◌, length};
ghost use Rattle.answers.specs.Paper.{paper};
ghost use Rattle.io.specs.Counts.{IsPrefixLen};
ghost use Rattle.cutfile_result.specs.Result.{file_reply};
ghost use Rattle.texts.specs.Text.{Puts};
ghost use Rattle.certificates.specs.Accepted.{Printable, sided_text, accepted_text, Printed};
ghost use Rattle.certificates.specs.Certificate.{certificate_of};

use answers::Refusal;

// The lines, with the smaller side's list at hand: rows and columns are its size and that of the others.
fn put_sided(
    side: &[usize],
    n: usize,
    k: usize,
    values: &[f64],
    sweeps: usize,
    quiet: bool,
    out: &mut [u8],
) -> usize
    requires { (length side.now ≤ n) × (n ≤ 9) × (length values.now ≤ 16) × (2048 ≤ length out.old) }
    ensures { Puts 0 (sided_text n k side.now values.now sweeps quiet) out.old result out.new }
{
    let m = side.len();
    let rows = submasks::bit(m);
    let columns = submasks::bit(n - m);
    let sums = entropy_totals::totals_of(values);
    lines::put_listing(
        out,
        n,
        k,
        rows,
        columns,
        side,
        values,
        sums.low as usize,
        sums.high as usize,
        sums.whole as usize,
        sweeps,
        quiet,
    )
}

// Inner: puts the lines of a cut that the library accepts. Its refusals and masks are not worked out again: the values were.
pub fn put_accepted(
    list: &[usize],
    n: usize,
    values: &[f64],
    sweeps: usize,
    quiet: bool,
    out: &mut [u8],
) -> usize
    requires { Printable list.now n values.now × (2048 ≤ length out.old) }
    ensures { Printed (accepted_text n list.now values.now sweeps quiet) out.old result out.new }
{
    let k = list.len();
    let rest = n - k;
    if k <= rest {
        return put_sided(list, n, k, values, sweeps, quiet, out);
    }
    let mut others = [0usize; 9];
    cut_sides::write_others(list, n, &mut others);
    put_sided(&others[..rest], n, k, values, sweeps, quiet, out)
}

// Inner. The file's answer, and how long its text is.
#[derive(Clone, Copy)]
pub struct Written {
    pub answer: Result<(), Refusal>,
    pub length: usize,
}

// Inner: puts the certificate of a file, or `refused N P`, at the front of out, which the caller lends with room for any;
// answers as the file is answered, with the text's length.
pub fn answered(file: &[u8], out: &mut [u8]) -> Written
    requires { 2048 ≤ length out.old }
    ensures printed { Printed (certificate_of file.now) out.old result.length out.new }
    ensures prefix_len { IsPrefixLen result.length out.new }
    ensures answer_value { paper result.answer ≡ file_reply file.now }
{
    let mut list = [0usize; 64];
    let mut values = [0.0f64; 16];
    let result = cutfile_result::cut_result(file, &mut list, &mut values);
    match result.cut {
        Ok(cut) => {
            let length = put_accepted(
                &list[..result.k],
                result.n,
                &values[..cut.count],
                cut.sweeps.begun,
                cut.sweeps.quiet,
                out,
            );
            Written {
                answer: Ok(()),
                length,
            }
        }
        Err(refusal) => {
            let length = lines::put_refused(out, Err(refusal));
            Written {
                answer: Err(refusal),
                length,
            }
        }
    }
}

// Inner: the same; answers the text's length alone, as the program wants it.
pub fn certificate(file: &[u8], out: &mut [u8]) -> usize
    requires { 2048 ≤ length out.old }
    ensures printed { Printed (certificate_of file.now) out.old result out.new }
    ensures prefix_len { IsPrefixLen result out.new }
{
    answered(file, out).length
}
