// Replays cases of `countersign`. Standard input is a text of hexadecimal words; a case is
//   1 m n tolerance, and then for each of a, u, s and vt
//   its length, how many of its numbers are not +0.0, and each of those: its place and its bits.
// Each case writes one line of words: the answer's number and place, 1 for yes or 0, the test, the cell.
#![tactic(auto)]

use std::io;

// Sets the numbers that the text names from the slice's length on, at most as many as a slice has; where it goes on.
fn fill(text: &[u8], at: usize, out: &mut [f64; 8192]) -> usize {
    let counted = replay::past(text, at);
    let count = replay::length_at(text, counted, 0, 8192);
    replay::change(text, replay::past(text, counted), out, count)
}

// The call, and what it says: no test is named on a refusal.
fn report(
    rt: &impl Print,
    a: &[f64],
    m: usize,
    n: usize,
    u: &[f64],
    s: &[f64],
    vt: &[f64],
    tolerance: u64,
) -> io::Result<()> {
    let found = countersign::countersign(a, m, n, u, s, vt, tolerance);
    replay::print_answer(rt, &found)?;
    let verdict = countersign::verdict_of_call(&found);
    replay::print_yes(rt, verdict.yes)?;
    replay::print_number(rt, verdict.test)?;
    replay::print_number(rt, verdict.cell)
}

fn case(rt: &impl Print, text: &[u8], at: usize) -> io::Result<usize> {
    let mut a = [0.0; 8192];
    let mut u = [0.0; 8192];
    let mut s = [0.0; 8192];
    let mut vt = [0.0; 8192];
    let second = replay::past(text, at);
    let third = replay::past(text, second);
    let for_a = replay::past(text, third);
    let for_u = fill(text, for_a, &mut a);
    let for_s = fill(text, for_u, &mut u);
    let for_vt = fill(text, for_s, &mut s);
    let next = fill(text, for_vt, &mut vt);
    report(
        rt,
        replay::front(&a, replay::size_at(text, for_a)),
        replay::size_at(text, at),
        replay::size_at(text, second),
        replay::front(&u, replay::size_at(text, for_u)),
        replay::front(&s, replay::size_at(text, for_s)),
        replay::front(&vt, replay::size_at(text, for_vt)),
        replay::word_at(text, third),
    )?;
    Ok(next)
}

// The text comes in blocks, each of whole cases and filled up with spaces: the proof of a long array takes long.
fn blocks(rt: &(impl Input + Print), text: &mut [u8]) -> io::Result<()> {
    let mut input = rt.reader();
    for _ in 0..100usize {
        let n = inputs::read_full(&mut input, text);
        if n == 0 {
            return Ok(());
        }
        let block = &text[..n];
        replay::run(rt, block, |_, at| case(rt, block, at))?;
    }
    Ok(())
}

fn main(rt: HostRuntime) -> io::Result<()> {
    let mut text = [0u8; 98304];
    blocks(&rt, &mut text)
}
