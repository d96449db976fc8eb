// The text of a cut file's certificate, in a lent buffer: page one as `cutprint` prints it, or both pages. A file that is refused by
// another answer than 8 or 9 gives one line. Buffers are filled arrays, and no file is refused by 6.
#![tactic(auto)]

ghost use Rattle.std.specs.Prelude.{◌≤◌, length};
ghost use Rattle.io.specs.Counts.{IsPrefixLen};
ghost use Rattle.cutfile_result.specs.Result.{file_reply};
ghost use Rattle.certificates.specs.Certificate.{certificate_of};
ghost use Rattle.certificate_pages.specs.Pages.{pages_of, Begun, PagesThere, PagesPut, Called};

use answers::Refusal;
use certificates::Written;
use cutfile_result::CutResult;

// Puts both pages of a file whose work was begun at the front of text, and answers their length.
fn put_both(
    file: &[u8],
    given: CutResult,
    list: &[usize; 64],
    values: &[f64; 16],
    text: &mut [u8],
) -> usize
    requires begun { Begun file.now given list.now values.now }
    requires room { 102400 ≤ length text.old }
    ensures { PagesThere file.now text.old result text.new }
{
    let named = &list[..given.k];
    let digest = digests::digest(file);
    let next = certificate_front::put_front(text, digest, given.n, named, values, given.cut);
    certificate_back::put_back(text, next, file, given.n, given.k, named, given.cut.is_ok())
}

// Both pages of a file, or `refused N P`, at the front of text.
fn put_pages(file: &[u8], text: &mut [u8]) -> Written
    requires { 102400 ≤ length text.old }
    ensures { PagesPut file.now text.old result text.new }
{
    let mut list = [0usize; 64];
    let mut values = [0.0f64; 16];
    let given = cutfile_result::cut_result(file, &mut list, &mut values);
    let answer = given.cut.map(|_| ());
    match given.cut {
        Ok(_) | Err(Refusal::NoWeight | Refusal::NotFinite) => {
            let length = put_both(file, given, &list, &values, text);
            Written { answer, length }
        }
        Err(refusal) => {
            let length = lines::put_refused(text, Err(refusal));
            Written { answer, length }
        }
    }
}

// Both pages: answered as the file is, or 6 where the text has less room than the need of any, 102,400.
pub fn print_pages(file: &[u8], text: &mut [u8]) -> Written
    ensures called { Called 102400 (file_reply file.now) (pages_of file.now) text.old result text.new }
    ensures prefix_len { IsPrefixLen result.length text.new }
{
    if text.len() < 102400 {
        return Written {
            answer: Err(Refusal::Length(1)),
            length: 0,
        };
    }
    put_pages(file, text)
}

// Page one alone: answered as the file is, or 6 where the text has less room than the need of any, 2,048.
pub fn print_certificate(file: &[u8], text: &mut [u8]) -> Written
    ensures called { Called 2048 (file_reply file.now) (certificate_of file.now) text.old result text.new }
    ensures prefix_len { IsPrefixLen result.length text.new }
{
    if text.len() < 2048 {
        return Written {
            answer: Err(Refusal::Length(1)),
            length: 0,
        };
    }
    certificates::answered(file, text)
}
