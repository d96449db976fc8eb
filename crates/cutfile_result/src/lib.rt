// What a cut file gives: the answer of its header, or the library's with export cap 10, and of an accepted file its values. Whoever
// prints, counts or goes on from it starts here. A file has at most 9 qubits, so 1,024 numbers of state, 4,128 of scratch and 16
// values are enough, and no file is refused by 6.
#![tactic(auto)]

ghost use Rattle.std.specs.Prelude.{◌≡◌, length};
ghost use Rattle.cutfile.specs.Layout.{LongEnough};
ghost use Rattle.cutfile_result.specs.Result.{Valued, FileValued, Result};

use answers::Refusal;
use cut_values::CutCounted;

// The register's size and the list's length, 0 where the header is refused; and what the cut gives, or what the file is refused by.
#[derive(Clone, Copy)]
pub struct CutResult {
    pub n: usize,
    pub k: usize,
    pub cut: Result<CutCounted, Refusal>,
}

// The cut values of a state.
fn values_of(
    state: &[f64],
    n: usize,
    list: &[usize],
    values: &mut [f64],
) -> Result<CutCounted, Refusal>
    requires { length values.old ≡ 16 }
    ensures { Valued state.now n list.now values.old result values.new }
{
    let mut scratch = [0.0f64; 4128];
    cut_values::dense_schmidt_values(state, n, list, 10, values, &mut scratch)
}

// The list and the values of a file whose header was answered 0.
fn of_file(
    file: &[u8],
    n: usize,
    k: usize,
    list: &mut [usize],
    values: &mut [f64],
) -> Result<CutCounted, Refusal>
    requires { LongEnough file.now n k × (length list.old ≡ 64) × (length values.old ≡ 16) }
    ensures { FileValued file.now n k list.old values.old result list.new values.new }
{
    decode::decode_list(file, n, k, list);
    let mut state = [0.0f64; 1024];
    decode::decode_state(file, n, k, &mut state);
    let components = 2 * cutfile::bit(n);
    values_of(&state[..components], n, &list[..k], values)
}

// The result of a file: its list at the front of `list`, its values at the front of `values`.
pub fn cut_result(file: &[u8], list: &mut [usize; 64], values: &mut [f64; 16]) -> CutResult
    ensures { Result file.now list.old values.old result list.new values.new }
{
    match cutfile::check_header(file) {
        Ok(header) => CutResult {
            n: header.n,
            k: header.k,
            cut: of_file(file, header.n, header.k, list, values),
        },
        Err(refusal) => CutResult {
            n: 0,
            k: 0,
            cut: Err(refusal),
        },
    }
}
