// The header view of a cut file: a record holding the file slice and its counts. Each function takes the view apart and
// calls one of `cutfile` on the slice and the numbers. Callers use the two at the end, whose parameters are plain. All but `open` are inner.
#![tactic(auto)]

ghost use Rattle.std.specs.Prelude.{◌≡◌, ◌+◌, ◌*◌, ◌^◌, ◌<◌};
ghost use Rattle.cutfile.specs.Layout.{LongEnough, file_entry, bits_at, n_of, k_of};

#[derive(Clone, Copy)]
pub struct CutFile<'a> {
    pub bytes: &'a [u8],
    pub n: usize,
    pub k: usize,
}

// The view of a file with counts that the caller has from its header.
pub fn view<'a>(bytes: &'a [u8], n: usize, k: usize) -> CutFile<'a>
    ensures { (result.bytes ≡ bytes.entry) × (result.n ≡ n) × (result.k ≡ k) }
{
    CutFile { bytes, n, k }
}

// The view of a file with the counts that its header has: noughts where `check_header` refuses it.
pub fn open<'a>(bytes: &'a [u8]) -> CutFile<'a>
    ensures { (result.bytes ≡ bytes.entry) × (result.n ≡ n_of bytes.now) × (result.k ≡ k_of bytes.now) }
{
    match cutfile::check_header(bytes) {
        Ok(header) => view(bytes, header.n, header.k),
        Err(_) => view(bytes, 0, 0),
    }
}

// The i-th entry of the list.
pub fn entry<'a>(v: CutFile<'a>, i: usize) -> u32
    requires { LongEnough v.bytes.now v.n v.k × (i < v.k) }
    ensures { result ≡ file_entry v.entry.bytes.now i }
{
    cutfile::entry_at(v.bytes, v.n, v.k, i)
}

// The bits of a part of the i-th amplitude: 0 the real part, 1 the imaginary.
pub fn amplitude<'a>(v: CutFile<'a>, i: usize, part: usize) -> u64
    requires { LongEnough v.bytes.now v.n v.k × ((i < 2 ^ v.n) × (part < 2)) }
    ensures { result ≡ bits_at v.entry.bytes.now v.entry.k (2 * i + part) }
{
    cutfile::amplitude_at(v.bytes, v.n, v.k, i, part)
}

// The i-th entry of the list, through the view.
pub fn list_entry(file: &[u8], n: usize, k: usize, i: usize) -> u32
    requires { LongEnough file.now n k × (i < k) }
    ensures { result ≡ file_entry file.now i }
{
    entry(view(file, n, k), i)
}

// The bits of a part of the i-th amplitude, through the view.
pub fn amplitude_bits(file: &[u8], n: usize, k: usize, i: usize, part: usize) -> u64
    requires { LongEnough file.now n k × ((i < 2 ^ n) × (part < 2)) }
    ensures { result ≡ bits_at file.now k (2 * i + part) }
{
    amplitude(view(file, n, k), i, part)
}
