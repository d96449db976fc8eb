// Runs tables of cut files and of lots through the functions that `cutprint`, `pageprint` and `nightbatch` call, and writes what they write of
// each, under a line with the table's name. A table is a row of files, each with its length before it in four bytes, little-endian; it has at
// most 81,920 bytes.
#![tactic(auto)]

ghost use Rattle.std.specs.Prelude.{◌≡◌, ◌+◌, ◌≤◌, length};
ghost use Rattle.io.specs.Counts.{IsPrefixLen};

use std::io;
use std::rt::Files;

// The bytes of a table at the front of buf, and how many there are.
fn read_table(files: &impl Files, name: &str, buf: &mut [u8]) -> usize
    ensures { IsPrefixLen result buf.new }
{
    inputs::read_file(files, name, buf)
}

// Writes the certificate of one file.
fn show_certificate(rt: &impl Print, file: &[u8]) -> io::Result<()> {
    let mut text = [0u8; 2048];
    let length = certificates::certificate(file, &mut text);
    rt.write_all(&text[..length])
}

// Writes both pages of one file.
fn show_pages(rt: &impl Print, file: &[u8]) -> io::Result<()> {
    let mut text = [0u8; 102400];
    let written = certificate_pages::print_pages(file, &mut text);
    let length = written.length;
    rt.write_all(&text[..length])
}

// Puts what is written of a lot, and answers its length.
fn put_lot(lot: &[u8], text: &mut [u8]) -> usize
    requires { length text.old ≡ 2048 }
    ensures { IsPrefixLen result text.new }
{
    let mut sheet = [7usize; 32];
    match lots::lot_sheet(lot, &mut sheet) {
        Ok(()) => lot_lines::put_lines(text, lots::number_at(lot, 0), &sheet),
        Err(refusal) => lines::put_refused(text, Err(refusal)),
    }
}

// Writes the sheet of one lot.
fn show_sheet(rt: &impl Print, lot: &[u8]) -> io::Result<()> {
    let mut text = [0u8; 2048];
    let length = put_lot(lot, &mut text);
    rt.write_all(&text[..length])
}

fn show(rt: &impl Print, kind: u64, file: &[u8]) -> io::Result<()> {
    match kind {
        1 => show_certificate(rt, file),
        2 => show_pages(rt, file),
        _ => show_sheet(rt, file),
    }
}

// Where the file at a place ends, or the table's end if that is nearer.
fn end_of(table: &[u8], at: usize) -> usize
    requires { at + 4 ≤ length table.now }
    ensures { (at + 4 ≤ result) × (result ≤ length table.now) }
{
    let size = lots::number_at(table, at);
    at + 4 + size.min(table.len() - at - 4)
}

// Writes what is written of each file of the table.
fn show_all(rt: &impl Print, kind: u64, table: &[u8]) -> io::Result<()> {
    let mut at = 0;
    // a `while`: a file's length says where the next one begins, so no range counts the turns
    while at + 4 <= table.len() {
        let from = at + 4;
        let to = end_of(table, at);
        show(rt, kind, &table[from..to])?;
        at = to;
    }
    Ok(())
}

fn run(rt: &(impl Files + Print), kind: u64, name: &str) -> io::Result<()> {
    let mut table = [0u8; 81920];
    let got = read_table(rt, name, &mut table);
    println!(rt; "{name}")?;
    show_all(rt, kind, &table[..got])
}

fn main(rt: HostRuntime) -> io::Result<()> {
    run(&rt, 1, "certificates.bin")?;
    run(&rt, 2, "pages-1.bin")?;
    run(&rt, 2, "pages-2.bin")?;
    run(&rt, 3, "lots-1.bin")?;
    run(&rt, 3, "lots-2.bin")?;
    run(&rt, 3, "lots-3.bin")
}
