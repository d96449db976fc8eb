// The night batch: the sheet of a lot of cut files, over their single results and nothing else of them. A lot is a u32 count of files,
// each one's u32 length, then the files, all little-endian. Every file is read into the same room, and only the bytes that were read are
// handed on.
#![tactic(auto)]

ghost use Rattle.std.specs.Prelude.{◌≡◌, ◌+◌, ◌-◌, ◌*◌, ◌<◌, ◌≤◌, length};
ghost use Rattle.answers.specs.Paper.{paper};
ghost use Rattle.cutfile.specs.Bytes.{word32};
ghost use Rattle.lot_tallies.specs.Tallies.{Tallied, sheet_of};
ghost use Rattle.lots.specs.Lot.{lot_header, Read, AddsFile, results, Lot};

use answers::Refusal;
use lot_tallies::Sheet;

// Inner: a number of the lot's header.
pub fn number_at(lot: &[u8], at: usize) -> usize
    requires { at + 4 ≤ length lot.now }
    ensures { (result ≡ word32 lot.now at) × (result < 4294967296) }
{
    cutfile::u32_at(lot, at) as usize
}

// Inner: what a lot is answered by: 16 where the count is over 1,000 or the header is cut short.
#[tactic(auto, unfolding(crate::specs::Lot::lot_header))]
pub fn check_lot(lot: &[u8]) -> Result<(), Refusal>
    ensures { paper result ≡ lot_header lot.now }
{
    if lot.len() < 4 {
        return Err(Refusal::BrokenLot);
    }
    let count = number_at(lot, 0);
    if count > 1000 || lot.len() < 4 + 4 * count {
        return Err(Refusal::BrokenLot);
    }
    Ok(())
}

// The bytes of a file at the front of the room, and how many they are: as far as the lot goes, and no more than the room has.
fn read_file(lot: &[u8], from: usize, size: usize, room: &mut [u8]) -> usize
    requires { length room.old ≡ 8480 }
    ensures { Read lot.now from size result room.new }
{
    let many = size.min(lot.len().saturating_sub(from)).min(8480);
    for i in 0..many {
        room[i] = lot[from + i];
    }
    many
}

// Inner: the sheet of some files with one more. This is the one step, of the call below and of the program that reads a lot piece by piece.
pub fn add_file(sheet: Sheet, files: usize, file: &[u8]) -> Sheet
    requires { Tallied sheet files × (files < 1000) }
    ensures adds_file { AddsFile sheet files file.now result }
    ensures tallied { Tallied result (files + 1) }
{
    let single = lot_verdicts::single_result(file);
    lot_tallies::add(
        sheet,
        files,
        answers::number_of(&single).number,
        single.unwrap_or(0),
    )
}

// The sheet of all files of a lot whose header was answered 0.
fn tally(lot: &[u8], count: usize) -> Sheet
    requires { (count ≡ word32 lot.now 0) × (count ≤ 1000) × (4 + 4 * count ≤ length lot.now) }
    ensures { result ≡ sheet_of (results lot.now) }
{
    let mut room = [0u8; 8480];
    let mut sheet = lot_tallies::empty();
    let mut from = 4 + 4 * count;
    for i in 0..count {
        let size = number_at(lot, 4 + 4 * i);
        let got = read_file(lot, from, size, &mut room);
        sheet = add_file(sheet, i, &room[..got]);
        from += size;
    }
    sheet
}

// The sheet of a lot: how many files gave each answer from 0 to 10, how many kept each rank from 1 to 16, the smallest rank, its first
// file, the largest rank, its first file, counted from 1, and the sum of the ranks. 16 leaves it as it was.
pub fn lot_sheet(lot: &[u8], sheet: &mut [usize; 32]) -> Result<(), Refusal>
    ensures { Lot lot.now sheet.old result sheet.new }
{
    check_lot(lot)?;
    let count = number_at(lot, 0);
    lot_tallies::put_sheet(tally(lot, count), sheet);
    Ok(())
}
