// The cut file: six header fields, a list of qubits, a state. The core, on a slice of bytes and numbers: what the header
// is answered by, and the entries and amplitudes behind it.
#![tactic(auto)]

ghost use Rattle.std.specs.Prelude.{◌≡◌, ◌+◌, ◌*◌, ◌^◌, ◌<◌, ◌≤◌, length};
ghost use Rattle.answers.specs.Paper.{paper};
ghost use Rattle.cutfile.specs.Bytes.{word32, word64, all_zero};
ghost use Rattle.cutfile.specs.Layout.{amplitude_offset, file_length, gap, size_answer, file_offsets_answer, length_answer, fields_answer, Header·is, LongEnough, file_entry, bits_at, component};

use answers::Refusal;
pub use whole_numbers::bit;

// The register's size, and how many qubits are listed.
#[derive(Clone, Copy)]
pub struct Header {
    pub n: usize,
    pub k: usize,
}

// Inner: the number of four bytes, little-endian.
#[tactic(auto, unfolding(crate::specs::Bytes::word32))]
pub fn u32_at(file: &[u8], at: usize) -> u32
    requires { at + 4 ≤ length file.now }
    ensures { result ≡ word32 file.now at }
{
    u32::from_le_bytes([file[at], file[at + 1], file[at + 2], file[at + 3]])
}

// Inner: the number of eight bytes, little-endian.
#[tactic(auto, unfolding(crate::specs::Bytes::word64))]
pub fn u64_at(file: &[u8], at: usize) -> u64
    requires { at + 8 ≤ length file.now }
    ensures { result ≡ word64 file.now at }
{
    u64::from(u32_at(file, at)) + 4294967296 * u64::from(u32_at(file, at + 4))
}

// A field of the header.
fn field(file: &[u8], at: usize) -> usize
    requires { at + 4 ≤ length file.now }
    ensures { result ≡ word32 file.now at }
{
    u32_at(file, at) as usize
}

// Where the amplitudes begin: past the list, at a multiple of 8.
fn amplitude_offset(k: usize) -> usize
    requires { k ≤ 64 }
    ensures { result ≡ amplitude_offset k }
{
    (24 + 4 * k + 7) / 8 * 8
}

#[tactic(auto, using(crate::proofs::LayoutLaws::small_power))]
fn file_length(n: usize, k: usize) -> usize
    requires { (n ≤ 9) × (k ≤ 64) }
    ensures { result ≡ file_length n k }
{
    amplitude_offset(k) + 16 * bit(n)
}

// Whether the bytes between the list and the amplitudes are zero.
fn gap_clear(file: &[u8], k: usize) -> bool
    requires { (k ≤ 64) × (amplitude_offset k ≤ length file.now) }
    ensures { result ≡ all_zero (gap k file.now) }
{
    file[24 + 4 * k..amplitude_offset(k)]
        .iter()
        .all(|b| *b == 0)
}

// The register: 1 unless it has 1 to 9 qubits.
#[tactic(auto, unfolding(crate::specs::Layout::size_answer))]
fn answer_size(n: usize) -> Result<(), Refusal>
    ensures { paper result ≡ size_answer n }
{
    if n < 1 || 9 < n {
        Err(Refusal::Size)
    } else {
        Ok(())
    }
}

// The list's length and the two offsets.
#[tactic(auto, unfolding(crate::specs::Layout::file_offsets_answer))]
fn answer_offsets(file: &[u8], k: usize) -> Result<(), Refusal>
    requires { 24 ≤ length file.now }
    ensures { paper result ≡ file_offsets_answer k file.now }
{
    if k <= 64 && field(file, 12) == 24 && field(file, 16) == amplitude_offset(k) {
        Ok(())
    } else {
        Err(Refusal::Malformed)
    }
}

// The length, as the header has it and as it is, and the gap.
#[tactic(auto, unfolding(crate::specs::Layout::length_answer))]
fn answer_length(file: &[u8], n: usize, k: usize) -> Result<(), Refusal>
    requires { (24 ≤ length file.now) × (n ≤ 9) × (k ≤ 64) }
    ensures { paper result ≡ length_answer n k file.now }
{
    let length = file_length(n, k);
    if field(file, 20) == length && file.len() == length && gap_clear(file, k) {
        Ok(())
    } else {
        Err(Refusal::Malformed)
    }
}

// The fields past the mark: n first, by 1; any other misfit is 10.
#[tactic(auto, unfolding(crate::specs::Layout::fields_answer))]
fn answer_fields(file: &[u8], n: usize, k: usize) -> Result<(), Refusal>
    requires { 24 ≤ length file.now }
    ensures { paper result ≡ fields_answer n k file.now }
{
    answer_size(n)?;
    answer_offsets(file, k)?;
    answer_length(file, n, k)
}

// A file's header, or what it is refused by: 10 under 24 bytes or at a wrong mark, 1 by n, 10 at any other misfit.
#[tactic(auto, using(crate::proofs::LayoutLaws::refusal, crate::proofs::LayoutLaws::acceptance), unfolding(crate::specs::Layout::header_answer))]
pub fn check_header(file: &[u8]) -> Result<Header, Refusal>
    ensures { Header·is file.now result }
{
    if file.len() < 24 || !file.starts_with(b"CUT1") {
        return Err(Refusal::Malformed);
    }
    let n = field(file, 4);
    let k = field(file, 8);
    answer_fields(file, n, k)?;
    Ok(Header { n, k })
}

// Inner: the i-th entry of the list.
pub fn entry_at(file: &[u8], n: usize, k: usize, i: usize) -> u32
    requires { LongEnough file.now n k × (i < k) }
    ensures { result ≡ file_entry file.now i }
{
    u32_at(file, 24 + 4 * i)
}

// Inner: the bits of a part of the i-th amplitude: 0 the real part, 1 the imaginary.
pub fn amplitude_at(file: &[u8], n: usize, k: usize, i: usize, part: usize) -> u64
    requires { LongEnough file.now n k × ((i < 2 ^ n) × (part < 2)) }
    ensures { result ≡ bits_at file.now k (2 * i + part) }
{
    u64_at(file, amplitude_offset(k) + 8 * (2 * i + part))
}

// The number of a bit pattern, with +infinity for a NaN's: `f64::from_bits` is undefined there, and the library refuses
// either by 7 at the same cell.
#[tactic(auto, using(crate::proofs::LayoutLaws::no_nan, crate::proofs::LayoutLaws::component_nan, crate::proofs::LayoutLaws::component_else))]
pub fn component_of(bits: u64) -> f64
    ensures { result ≡ component bits }
{
    let digits = bits % 0x8000_0000_0000_0000;
    if 0x7ff0_0000_0000_0000 < digits {
        return f64::INFINITY;
    }
    f64::from_bits(bits)
}
