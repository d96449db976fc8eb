// Reads `lot.bin` and writes the sheet of its files, or `refused 16 0`. A missing file counts as empty. The lot is read piece by piece, its
// header and then each file into the same room, so that a lot of any length fits; the step that adds a file is that of `lots::lot_sheet`.
// A file's place moves by its whole length, and of a file that is longer than the room the front is read: it decides.
#![tactic(auto)]

ghost use Rattle.std.specs.Prelude.{◌≡◌, ◌+◌, ◌*◌, ◌<◌, ◌≤◌, length};
ghost use Rattle.io.specs.Counts.{IsPrefixLen};
ghost use Rattle.lot_tallies.specs.Tallies.{Tallied};

use lot_tallies::Sheet;
use std::fs;
use std::io::{Read, Seek, SeekFrom, empty};
use std::rt::Files;

// The front of the file at a place of the lot, and how many bytes of it there are.
fn read_at<F: Read + Seek>(lot: &mut F, from: SeekFrom, size: usize, room: &mut [u8]) -> usize
    requires { length room.old ≡ 8480 }
    ensures { IsPrefixLen result room.new }
{
    if lot.seek(from).is_err() {
        return 0;
    }
    inputs::read_full(lot, &mut room[..size.min(8480)])
}

// The sheet of the files whose lengths the header has.
fn tally<F: Read + Seek>(lot: &mut F, head: &[u8], count: usize) -> Sheet
    requires { (count ≤ 1000) × (4 + 4 * count ≤ length head.now) }
    ensures { Tallied result count }
{
    let mut room = [0u8; 8480];
    let mut sheet = lot_tallies::empty();
    let mut from = 4 + 4 * count;
    for i in 0..count {
        let size = lots::number_at(head, 4 + 4 * i);
        let got = read_at(lot, SeekFrom::Start(from as u64), size, &mut room);
        sheet = lots::add_file(sheet, i, &room[..got]);
        from += size;
    }
    sheet
}

// Puts what is written of the lot, and answers its length.
fn put_lot<F: Read + Seek>(lot: &mut F, head: &[u8], text: &mut [u8]) -> usize
    requires { length text.old ≡ 2048 }
    ensures { IsPrefixLen result text.new }
{
    match lots::check_lot(head) {
        Ok(()) => {
            let count = lots::number_at(head, 0);
            let sheet = tally(lot, head, count);
            let mut numbers = [0usize; 32];
            lot_tallies::put_sheet(sheet, &mut numbers);
            lot_lines::put_lines(text, count, &numbers)
        }
        Err(refusal) => lines::put_refused(text, Err(refusal)),
    }
}

// Reads the lot, puts what is written of it, and answers its length.
fn put_whole<F: Read + Seek>(lot: &mut F, text: &mut [u8]) -> usize
    requires { length text.old ≡ 2048 }
    ensures { IsPrefixLen result text.new }
{
    let mut head = [0u8; 4004];
    let got = inputs::read_full(lot, &mut head);
    put_lot(lot, &head[..got], text)
}

// The same of `lot.bin`, or of no bytes where there is no such file.
fn put_file(files: &impl Files, text: &mut [u8]) -> usize
    requires { length text.old ≡ 2048 }
    ensures { IsPrefixLen result text.new }
{
    match fs::open(files, "lot.bin") {
        Ok(mut lot) => put_whole(&mut lot, text),
        Err(_) => put_whole(&mut empty(), text),
    }
}

fn main(rt: HostRuntime) -> std::io::Result<()> {
    let mut text = [0u8; 2048];
    let length = put_file(&rt, &mut text);
    rt.write_all(&text[..length])
}
