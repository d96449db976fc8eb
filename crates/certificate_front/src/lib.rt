// The first part of the two pages: page one, and page two up to its list. Inner: the caller gives room.
#![tactic(auto)]

ghost use Rattle.std.specs.Prelude.{◌≡◌, ◌+◌, ◌≤◌, length};
ghost use Rattle.texts.specs.Text.{Puts};
ghost use Rattle.certificate_front.specs.Front.{head_text, one_of, front_of, OneReady, FrontReady};

use answers::Refusal;
use cut_values::CutCounted;

// Puts a page's first line and the digest.
fn put_head(out: &mut [u8], at: usize, page: &[u8], digest: u64) -> usize
    requires { at + length page.now + 24 ≤ length out.old }
    ensures { Puts at (head_text page.now digest) out.old result out.new }
{
    let next = texts::put_text(out, at, page);
    page_lines::put_bits(out, next, b"digest ", digest)
}

// Puts page one past its digest: the lines of the cut and the mark, or the cut's refusal. What the cut kept stands at the front of
// values.
fn put_one(
    out: &mut [u8],
    at: usize,
    n: usize,
    list: &[usize],
    values: &[f64],
    cut: Result<CutCounted, Refusal>,
) -> usize
    requires { OneReady cut list.now n values.now at (length out.old) }
    ensures { Puts at (one_of cut n list.now values.now) out.old result out.new }
{
    match cut {
        Ok(kept) => {
            let length = certificates::put_accepted(
                list,
                n,
                &values[..kept.count],
                kept.sweeps.begun,
                kept.sweeps.quiet,
                &mut out[at..],
            );
            page_lines::put_said(out, at + length, b"exact", kept.exact)
        }
        Err(refusal) => page_lines::put_reply(out, at, b"refused ", Err(refusal)),
    }
}

// Puts page one, and of page two the digest and the list.
pub fn put_front(
    out: &mut [u8],
    digest: u64,
    n: usize,
    list: &[usize],
    values: &[f64],
    cut: Result<CutCounted, Refusal>,
) -> usize
    requires { FrontReady cut list.now n values.now (length out.old) }
    ensures { Puts 0 (front_of digest cut n list.now values.now) out.old result out.new }
{
    let first = put_head(out, 0, b"page 1\n", digest);
    let second = put_one(out, first, n, list, values, cut);
    let third = put_head(out, second, b"page 2\n", digest);
    page_lines::put_list(out, third, list)
}
