// Replays operations on slabs. Standard input is a text of hexadecimal words: an operation's kind and then its
// words. Each operation writes one line of words.
//   0                      the slab is all zero from here on
//   1 site len bits        put: number t of the data has the pattern bits + t
//   2 site                 drop
//   3 site len bits        replace
//   4 place bits           that number of the cells is set, past every call
//   5 place value          that number of the index is set, past every call
// A line is the answer's number and place (zeros for 0, 4 and 5), how many sites are held, and a digest of the
// 8,192 numbers and one of the index, in which every number counts. Data have at most 8,300 numbers.
#![tactic(auto)]

use answers::Refusal;
use std::io;

fn print_slab(rt: &impl Print, cells: &[u64; 8192], index: &[u32; 193]) -> io::Result<()> {
    replay::print_number(rt, index[0])?;
    replay::print_word(rt, replay::digest(cells))?;
    replay::print_word(rt, replay::digest(index))
}

// The low half of the word.
fn half(text: &[u8], at: usize) -> u32 {
    replay::Number::of_word(replay::word_at(text, at))
}

// A put, or a replace.
fn put(
    text: &[u8],
    at: usize,
    kind: u64,
    cells: &mut [u64; 8192],
    index: &mut [u32; 193],
) -> Result<(), Refusal> {
    let second = replay::past(text, at);
    let third = replay::past(text, second);
    let mut room = [0u64; 8300];
    replay::count_up(&mut room, replay::word_at(text, third));
    let data = replay::front(&room, replay::size_at(text, second));
    let site = half(text, at);
    match kind {
        1 => slabs::put(cells, index, site, data),
        _ => slabs::replace(cells, index, site, data),
    }
}

// What is done past every call is answered 0.
fn operate(
    text: &[u8],
    at: usize,
    kind: u64,
    cells: &mut [u64; 8192],
    index: &mut [u32; 193],
) -> Result<(), Refusal> {
    let second = replay::past(text, at);
    match kind {
        1 | 3 => put(text, at, kind, cells, index)?,
        2 => slabs::drop(cells, index, half(text, at))?,
        0 => {
            *cells = [0; 8192];
            *index = [0; 193];
        }
        4 => replay::set(
            cells,
            replay::size_at(text, at),
            replay::word_at(text, second),
        ),
        _ => replay::set(
            index,
            replay::size_at(text, at),
            replay::word_at(text, second),
        ),
    }
    Ok(())
}

// How many words an operation has.
fn words_of(kind: u64) -> usize {
    match kind {
        0 => 0,
        2 => 1,
        1 | 3 => 3,
        _ => 2,
    }
}

fn case(
    rt: &impl Print,
    text: &[u8],
    kind: u64,
    at: usize,
    cells: &mut [u64; 8192],
    index: &mut [u32; 193],
) -> io::Result<usize> {
    replay::print_answer(rt, &operate(text, at, kind, cells, index))?;
    print_slab(rt, cells, index)?;
    Ok(replay::skip(text, at, words_of(kind)))
}

fn main(rt: HostRuntime) -> io::Result<()> {
    let mut text = [0u8; 65536];
    let n = inputs::read_full(&mut rt.reader(), &mut text);
    let text = &text[..n];
    let mut cells = [0u64; 8192];
    let mut index = [0u32; 193];
    replay::run(&rt, text, |kind, at| {
        case(&rt, text, kind, at, &mut cells, &mut index)
    })
}
