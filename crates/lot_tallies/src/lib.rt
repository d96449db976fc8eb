// Inner: the sheet of a lot as a struct by value, and the step that adds one file's result. Each number of the sheet is defined from
// the list of single results.
#![tactic(auto)]

ghost use Rattle.std.specs.Prelude.{◌≡◌, [], ◌+◌, ◌<◌, ◌≤◌, length};
ghost use Rattle.lot_tallies.specs.Tallies.{Fair, Adds, Tallied, sheet_of, sheet_numbers, smaller_mark, larger_mark, part_put};

// How many files gave each answer from 0 to 10, how many kept each rank from 1 to 16, the smallest and the largest rank, each with the
// first file that had it, and the sum of the ranks.
#[derive(Clone, Copy)]
pub struct Sheet {
    pub answers: [usize; 11],
    pub ranks: [usize; 16],
    pub smallest: usize,
    pub smallest_file: usize,
    pub largest: usize,
    pub largest_file: usize,
    pub sum: usize,
}

// A rank and the first file that had it.
#[derive(Clone, Copy)]
pub struct Mark {
    pub rank: usize,
    pub file: usize,
}

// The sheet of no file.
pub fn empty() -> Sheet
    ensures { result ≡ sheet_of [] }
{
    Sheet {
        answers: [0; 11],
        ranks: [0; 16],
        smallest: 0,
        smallest_file: 0,
        largest: 0,
        largest_file: 0,
        sum: 0,
    }
}

// The smaller rank of the held one and a file's: a later file with the same rank does not take its place.
#[tactic(auto, unfolding(crate::specs::Tallies::smaller_mark))]
fn smaller(held: usize, first: usize, rank: usize, file: usize) -> Mark
    ensures { result ≡ smaller_mark held first rank file }
{
    if held == 0 || rank < held {
        return Mark { rank, file };
    }
    Mark {
        rank: held,
        file: first,
    }
}

// The larger rank of the held one and a file's.
#[tactic(auto, unfolding(crate::specs::Tallies::larger_mark))]
fn larger(held: usize, first: usize, rank: usize, file: usize) -> Mark
    ensures { result ≡ larger_mark held first rank file }
{
    if held < rank {
        return Mark { rank, file };
    }
    Mark {
        rank: held,
        file: first,
    }
}

// The sheet of some files with one more, whose result is its answer's number and its rank. The file is counted, whatever its answer.
pub fn add(sheet: Sheet, files: usize, number: usize, rank: usize) -> Sheet
    requires { Tallied sheet files × (files < 1000) × Fair number rank }
    ensures { Adds sheet files number rank result }
{
    let mut out = sheet;
    out.answers[number] += 1;
    if 0 < number {
        return out;
    }
    let at = rank - 1;
    let file = files + 1;
    out.ranks[at] += 1;
    let least = smaller(out.smallest, out.smallest_file, rank, file);
    let most = larger(out.largest, out.largest_file, rank, file);
    out.smallest = least.rank;
    out.smallest_file = least.file;
    out.largest = most.rank;
    out.largest_file = most.file;
    out.sum += rank;
    out
}

// A part of the numbers stands in out from a place on.
fn put_part(out: &mut [usize], at: usize, part: &[usize])
    requires { at + length part.now ≤ length out.old }
    ensures { out.new ≡ part_put at part.now (length part.now) out.old }
{
    out[at..at + part.len()].copy_from_slice(part);
}

// The 32 numbers of the sheet stand in out.
pub fn put_sheet(sheet: Sheet, out: &mut [usize])
    requires { (length sheet.answers ≡ 11) × (length sheet.ranks ≡ 16) × (length out.old ≡ 32) }
    ensures { out.new ≡ sheet_numbers sheet }
{
    let last = [
        sheet.smallest,
        sheet.smallest_file,
        sheet.largest,
        sheet.largest_file,
        sheet.sum,
    ];
    put_part(out, 0, &sheet.answers);
    put_part(out, 11, &sheet.ranks);
    put_part(out, 27, &last);
}
