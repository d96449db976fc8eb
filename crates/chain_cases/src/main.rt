// Replays the published Rust's chains of sites, and its pages of cuts, one call of it for each cut. Standard input is a text of hexadecimal
// words: a case's kind and then
//   1 STATE n epsilon limit sites bonds starts marks matrix u vt scratch    chain_of_sites
//   2 STATE n cap header values largest ranks marks scratch                 cut_profile
// STATE is a length in numbers, a first word, how many numbers are changed, and for each change a position and bits; before the changes
// number i is +0.0 where the first word is 0, and else it has the bits of the first word + i. A slice that is lent is its length alone, and
// holds 3.0 everywhere, or that number's bits in a slice of whole numbers. Each case writes one line of words: the answer's number and
// place, of a chain the cuts that dropped a value above the resolution, and the lent slices as they stand afterwards, a slice of floats that
// is 200 numbers or longer as its digest. The state has at most 8,200 numbers, sites 21,840, matrix, u, vt, values and largest 8,200,
// scratch 32,904, the others 64.
#![tactic(auto)]

use std::io;

// The numbers of a state as the text has them, from the word after its length on; where the text goes on.
fn read_state(text: &[u8], at: usize, s: &mut [f64]) -> usize {
    let first = replay::word_at(text, at);
    if first > 0 {
        replay::count_up(s, first);
    }
    let count = replay::past(text, at);
    replay::change(
        text,
        replay::past(text, count),
        s,
        replay::size_at(text, count),
    )
}

// The call, its answer and the lent slices as it leaves them.
fn take_apart(
    rt: &impl Print,
    state: &[f64],
    n: usize,
    epsilon: f64,
    limit: usize,
    sites: &mut [f64],
    bonds: &mut [usize],
    starts: &mut [usize],
    marks: &mut [usize],
    matrix: &mut [f64],
    u: &mut [f64],
    vt: &mut [f64],
    scratch: &mut [f64],
) -> io::Result<()> {
    replay::print_count(
        rt,
        chains::chain_of_sites(
            state, n, epsilon, limit, sites, bonds, starts, marks, matrix, u, vt, scratch,
        ),
    )?;
    replay::print_or_digest(rt, sites)?;
    replay::print_numbers(rt, bonds)?;
    replay::print_numbers(rt, starts)?;
    replay::print_numbers(rt, marks)?;
    replay::print_or_digest(rt, matrix)?;
    replay::print_or_digest(rt, u)?;
    replay::print_or_digest(rt, vt)?;
    replay::print_or_digest(rt, scratch)
}

fn page(
    rt: &impl Print,
    state: &[f64],
    n: usize,
    cap: usize,
    header: &mut [usize],
    values: &mut [f64],
    largest: &mut [f64],
    ranks: &mut [usize],
    marks: &mut [usize],
    scratch: &mut [f64],
) -> io::Result<()> {
    replay::print_answer(
        rt,
        &profiles::cut_profile(
            state, n, cap, header, values, largest, ranks, marks, scratch,
        ),
    )?;
    replay::print_numbers(rt, header)?;
    replay::print_or_digest(rt, values)?;
    replay::print_or_digest(rt, largest)?;
    replay::print_numbers(rt, ranks)?;
    replay::print_numbers(rt, marks)?;
    replay::print_or_digest(rt, scratch)
}

// The call of a kind, with as many of the lent slices as it has; a page has the header for bonds, the ranks for starts, values for u and
// largest for vt.
fn call(
    rt: &impl Print,
    kind: u64,
    state: &[f64],
    n: usize,
    epsilon: f64,
    limit: usize,
    sites: &mut [f64],
    bonds: &mut [usize],
    starts: &mut [usize],
    marks: &mut [usize],
    matrix: &mut [f64],
    u: &mut [f64],
    vt: &mut [f64],
    scratch: &mut [f64],
) -> io::Result<()> {
    match kind {
        1 => take_apart(
            rt, state, n, epsilon, limit, sites, bonds, starts, marks, matrix, u, vt, scratch,
        ),
        _ => page(rt, state, n, limit, bonds, u, vt, starts, marks, scratch),
    }
}

fn pick(kind: u64, of_chain: usize, of_page: usize) -> usize {
    if kind == 1 { of_chain } else { of_page }
}

// Lends buffers of the lengths that the text has from `at` on.
fn lend(
    rt: &impl Print,
    text: &[u8],
    at: usize,
    kind: u64,
    state: &[f64],
    n: usize,
    epsilon: f64,
    limit: usize,
) -> io::Result<usize> {
    let mut sites = [3.0; 21840];
    let mut bonds = [4613937818241073152usize; 64];
    let mut starts = [4613937818241073152usize; 64];
    let mut marks = [4613937818241073152usize; 64];
    let mut matrix = [3.0; 8200];
    let mut u = [3.0; 8200];
    let mut vt = [3.0; 8200];
    let mut scratch = [3.0; 32904];
    let in_sites = replay::length_at(text, at, 0, 21840);
    let in_bonds = replay::length_at(text, at, pick(kind, 1, 0), 64);
    let in_starts = replay::length_at(text, at, pick(kind, 2, 3), 64);
    let in_marks = replay::length_at(text, at, pick(kind, 3, 4), 64);
    let in_matrix = replay::length_at(text, at, 4, 8200);
    let in_u = replay::length_at(text, at, pick(kind, 5, 1), 8200);
    let in_vt = replay::length_at(text, at, pick(kind, 6, 2), 8200);
    let in_scratch = replay::length_at(text, at, pick(kind, 7, 5), 32904);
    call(
        rt,
        kind,
        state,
        n,
        epsilon,
        limit,
        &mut sites[..in_sites],
        &mut bonds[..in_bonds],
        &mut starts[..in_starts],
        &mut marks[..in_marks],
        &mut matrix[..in_matrix],
        &mut u[..in_u],
        &mut vt[..in_vt],
        &mut scratch[..in_scratch],
    )?;
    Ok(replay::skip(text, at, pick(kind, 8, 6)))
}

fn case(rt: &impl Print, text: &[u8], kind: u64, at: usize) -> io::Result<usize> {
    let mut numbers = [0.0; 8200];
    let count = replay::size_at(text, at);
    let next = read_state(text, replay::past(text, at), &mut numbers);
    let second = replay::past(text, next);
    let last = replay::skip(text, second, pick(kind, 1, 0));
    lend(
        rt,
        text,
        replay::past(text, last),
        kind,
        replay::front(&numbers, count),
        replay::size_at(text, next),
        replay::float_at(text, second),
        replay::size_at(text, last),
    )
}

fn main(rt: HostRuntime) -> io::Result<()> {
    let mut text = [0u8; 98304];
    let n = inputs::read_full(&mut rt.reader(), &mut text);
    let text = &text[..n];
    replay::run(&rt, text, |kind, at| case(&rt, text, kind, at))
}
