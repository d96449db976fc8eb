// Replays cases of the ranks and of the four fills. Standard input is a text of hexadecimal words: a case's kind and then its
// words, whole numbers or the bits of floats. Each case writes one line of words; an answer is its number and its place.
//   1 count values epsilon cap               truncated_svd_rank: the rank
//   2 count values chi                       discards_resolvable_weight: 1 or 0
//   3 left mid right                         cut_rank: the answer and the rank
//   4 left right n                           widest_block_cut: the answer and the rank
//   5 stride left chi SOURCE room            fill_isometry_site_data
//   6 stride left chi SOURCE VALUES room     fill_scaled_u_site_data
//   7 row_len chi physical right SOURCE room           fill_vt_site_data
//   8 row_len chi physical right VALUES SOURCE room    fill_scaled_vt_data
// SOURCE and VALUES are a length in numbers, how many of them are changed, and for each change a position and bits; number i has
// the bits 3FF0000000000000 + i before the changes. The lent slice has room numbers, number i with the bits C000000000000000 + i.
// A fill writes its answer and the slice, or the slice's digest where it is 200 numbers or longer. Lists of kinds 1 and 2 have at
// most 64 values; SOURCE at most 16,384 numbers, VALUES 4,200, the slice 8,300.
#![tactic(auto)]

use answers::Refusal;
use std::io;

// A source or values as the text has them, from the word after the length on; where the text goes on.
fn read_source(text: &[u8], at: usize, s: &mut [f64]) -> usize {
    replay::count_up(s, 0x3ff0_0000_0000_0000);
    replay::change(text, replay::past(text, at), s, replay::size_at(text, at))
}

// A list of values; where the text goes on.
fn read_list(text: &[u8], at: usize, values: &mut [f64; 64]) -> usize {
    replay::read_numbers(
        text,
        replay::past(text, at),
        values,
        replay::size_at(text, at),
    )
}

fn rank_case(rt: &impl Print, text: &[u8], at: usize) -> io::Result<usize> {
    let mut values = [0.0; 64];
    let next = read_list(text, at, &mut values);
    let list = replay::front(&values, replay::size_at(text, at));
    let epsilon = replay::float_at(text, next);
    let cap = replay::past(text, next);
    let rank = site_ranks::truncated_svd_rank(list, epsilon, replay::size_at(text, cap));
    replay::print_number(rt, rank)?;
    Ok(replay::past(text, cap))
}

fn discard_case(rt: &impl Print, text: &[u8], at: usize) -> io::Result<usize> {
    let mut values = [0.0; 64];
    let next = read_list(text, at, &mut values);
    let list = replay::front(&values, replay::size_at(text, at));
    let discards = site_ranks::discards_resolvable_weight(list, replay::size_at(text, next));
    replay::print_yes(rt, discards)?;
    Ok(replay::past(text, next))
}

fn bond_case(rt: &impl Print, text: &[u8], at: usize, kind: u64) -> io::Result<usize> {
    let a = replay::size_at(text, at);
    let b = replay::size_at(text, replay::skip(text, at, 1));
    let c = replay::size_at(text, replay::skip(text, at, 2));
    let rank = match kind {
        3 => site_ranks::cut_rank(a, b, c),
        _ => site_ranks::widest_block_cut(a, b, c),
    };
    replay::print_count(rt, rank)?;
    Ok(replay::skip(text, at, 3))
}

// The sizes of a fill: four words, the last of which only the fills of rows have.
#[derive(Clone, Copy)]
struct Sizes {
    line: usize,
    second: usize,
    third: usize,
    fourth: usize,
}

fn read_sizes(text: &[u8], at: usize) -> Sizes {
    Sizes {
        line: replay::size_at(text, at),
        second: replay::size_at(text, replay::skip(text, at, 1)),
        third: replay::size_at(text, replay::skip(text, at, 2)),
        fourth: replay::size_at(text, replay::skip(text, at, 3)),
    }
}

// The fill of a kind.
fn fill(
    kind: u64,
    source: &[f64],
    values: &[f64],
    z: Sizes,
    out: &mut [f64],
) -> Result<(), Refusal> {
    match kind {
        5 => sites::fill_isometry_site_data(source, z.line, z.second, z.third, out),
        6 => sites::fill_scaled_u_site_data(source, values, z.line, z.second, z.third, out),
        7 => sites::fill_vt_site_data(source, z.line, z.second, z.third, z.fourth, out),
        _ => sites::fill_scaled_vt_data(values, source, z.line, z.second, z.third, z.fourth, out),
    }
}

fn show(
    rt: &impl Print,
    kind: u64,
    source: &[f64],
    values: &[f64],
    z: Sizes,
    room: usize,
    out: &mut [f64],
) -> io::Result<()> {
    let Some(lent) = out.get_mut(..room) else {
        return Ok(());
    };
    replay::print_answer(rt, &fill(kind, source, values, z, lent))?;
    replay::print_or_digest(rt, lent)
}

// VALUES, where the case has them at this place; where the text goes on.
fn read_values(text: &[u8], at: usize, wanted: bool, s: &mut [f64]) -> usize {
    if wanted {
        read_source(text, replay::past(text, at), s)
    } else {
        at
    }
}

fn fill_case(rt: &impl Print, text: &[u8], at: usize, kind: u64) -> io::Result<usize> {
    let first = replay::skip(text, at, if kind < 7 { 3 } else { 4 });
    let mut values = [0.0; 4200];
    let second = read_values(text, first, kind == 8, &mut values);
    let mut source = [0.0; 16384];
    let last = read_source(text, replay::past(text, second), &mut source);
    let room = read_values(text, last, kind == 6, &mut values);
    let mut out = [0.0; 8300];
    replay::count_up(&mut out, 0xc000_0000_0000_0000);
    let values_length = replay::size_at(text, if kind == 8 { first } else { last });
    show(
        rt,
        kind,
        replay::front(&source, replay::size_at(text, second)),
        replay::front(&values, values_length),
        read_sizes(text, at),
        replay::size_at(text, room),
        &mut out,
    )?;
    Ok(replay::past(text, room))
}

fn case(rt: &impl Print, text: &[u8], kind: u64, at: usize) -> io::Result<usize> {
    match kind {
        1 => rank_case(rt, text, at),
        2 => discard_case(rt, text, at),
        0 | 3 | 4 => bond_case(rt, text, at, kind),
        _ => fill_case(rt, text, at, kind),
    }
}

fn main(rt: HostRuntime) -> io::Result<()> {
    let mut text = [0u8; 262144];
    let n = inputs::read_full(&mut rt.reader(), &mut text);
    let text = &text[..n];
    replay::run(&rt, text, |kind, at| case(&rt, text, kind, at))
}
