// Replays cases of the qubit lists, the offsets and bases, the smaller side, the cut matrix, the density, the calls on a square matrix, and
// the plans of a cut. Standard input is a text of hexadecimal words: a case's kind and then its words. Each case writes one line of words;
// an answer is its number and its place. A head is the register n, the export cap, the list's length and the list; a slice is its length
// and its numbers' bits.
//   1 head                the answers of validate_qubit_set and validate_subsystem
//   2 head room           row_offsets into a slice of that many numbers: the answer, and the slice
//   3 head e              traced_base: the answer and the base
//   4 head room           smaller_side with a slice of that many numbers: the answer, the slice, and side_part's list
//   5 head state room m   cut_matrix of a state of that many numbers into a slice of that many, after m changes of the state, each
//                         a position and bits: the answer, and the slice, or its digest where it is long
//   6 head state size m   the same state's two pages: the answers of cut_matrix, of dense_reduced_density with that many numbers of its
//                         density, and of density_from_cut with as many of its own
//   7 head slice room scratch    dense_reduced_density of that state: the answer, and both lent slices
//   8 dim slice           mirror_lower_triangle: the answer, and the slice
//   9 dim slice           normalize_trace: the same
//   A dim k positions side slice factor    multiply_block_factor: the answer, and the first slice
// A plan is kept from case to case. Its cases write an answer, zeros for 10 and 15, what stands below, and the plan's thirty numbers.
//   10                    the plan is all zero from here on
//   11 head               cut_plan
//   12 qubit              plan_add
//   13 qubit              plan_drop
//   14                    plan_switch
//   15 place value        that number of the plan is set, past every call
//   16 slice room         planned_cut_matrix into a slice of that many numbers: the slice
//   17 slice room scratch    planned_reduced_density: both slices
//   18 slice room scratch    planned_schmidt_values: count, sweeps, quiet, turned, exact, and both slices
// A slice of whole numbers is lent as 100, 101 and so on; number i of a state has the bits 3FF0000000000000 + i, of a lent slice
// C000000000000000 + i, but for kind 7 each is 1.0. Lent slices of 200 numbers or more are written as a digest, but for kinds 7 to A.
#![tactic(auto)]

use answers::Refusal;
use cut_values::CutCounted;
use std::io;

#[derive(Clone, Copy)]
struct Head {
    n: usize,
    cap: usize,
    k: usize,
    next: usize,
}

fn read_head(text: &[u8], at: usize, list: &mut [usize]) -> Head {
    let length = replay::skip(text, at, 2);
    let k = replay::size_at(text, length);
    Head {
        n: replay::size_at(text, at),
        cap: replay::size_at(text, replay::past(text, at)),
        k,
        next: replay::read_numbers(text, replay::past(text, length), list, k),
    }
}

fn lists(rt: &impl Print, text: &[u8], at: usize) -> io::Result<usize> {
    let mut names = [0usize; 16];
    let h = read_head(text, at, &mut names);
    let list = replay::front(&names, h.k);
    replay::print_answer(rt, &qubits::validate_qubit_set(list, h.n))?;
    replay::print_answer(rt, &qubits::validate_subsystem(list, h.n))?;
    Ok(h.next)
}

// Lends the first numbers of out to the call of kind 2 or 4, as many as are asked for.
fn show_counts(
    rt: &impl Print,
    kind: u64,
    list: &[usize],
    n: usize,
    cap: usize,
    room: usize,
    out: &mut [usize],
) -> io::Result<()> {
    let Some(lent) = out.get_mut(..room) else {
        return Ok(());
    };
    if kind == 2 {
        replay::print_answer(rt, &qubit_offsets::row_offsets(list, n, cap, lent))?;
        return replay::print_numbers(rt, lent);
    }
    replay::print_answer(rt, &cut_sides::smaller_side(list, n, cap, lent))?;
    replay::print_numbers(rt, lent)?;
    if kind == 4 {
        replay::print_numbers(rt, cut_sides::side_part(list, n, cap, lent))?;
    }
    Ok(())
}

fn counts_case(rt: &impl Print, text: &[u8], at: usize, kind: u64) -> io::Result<usize> {
    let mut names = [0usize; 16];
    let h = read_head(text, at, &mut names);
    let mut out = [0usize; 128];
    replay::count_up(&mut out, 0x100);
    show_counts(
        rt,
        kind,
        replay::front(&names, h.k),
        h.n,
        h.cap,
        replay::size_at(text, h.next),
        &mut out,
    )?;
    Ok(replay::past(text, h.next))
}

fn base_case(rt: &impl Print, text: &[u8], at: usize) -> io::Result<usize> {
    let mut names = [0usize; 16];
    let h = read_head(text, at, &mut names);
    let e = replay::size_at(text, h.next);
    let base = qubit_offsets::traced_base(e, replay::front(&names, h.k), h.n, h.cap);
    replay::print_count(rt, base)?;
    Ok(replay::past(text, h.next))
}

fn show_again(
    rt: &impl Print,
    matrix: &[f64],
    n: usize,
    list: &[usize],
    cap: usize,
    size: usize,
) -> io::Result<()> {
    let mut again = [0.0; 8200];
    replay::print_answer(
        rt,
        &density_recount::density_from_cut(matrix, n, list, cap, &mut again),
    )?;
    replay::print_or_digest(rt, replay::front(&again, size))
}

fn show_density(
    rt: &impl Print,
    state: &[f64],
    n: usize,
    list: &[usize],
    cap: usize,
    size: usize,
) -> io::Result<()> {
    let mut density = [0.0; 8200];
    let mut scratch = [0.0; 128];
    replay::print_answer(
        rt,
        &densities::dense_reduced_density(state, n, list, cap, &mut density, &mut scratch),
    )?;
    replay::print_or_digest(rt, replay::front(&density, size))
}

fn show_pages(
    rt: &impl Print,
    state: &[f64],
    n: usize,
    list: &[usize],
    cap: usize,
    size: usize,
) -> io::Result<()> {
    let mut matrix = [0.0; 8200];
    replay::print_answer(rt, &cuts::cut_matrix(state, n, list, cap, &mut matrix))?;
    show_density(rt, state, n, list, cap, size)?;
    show_again(rt, replay::front(&matrix, state.len()), n, list, cap, size)
}

fn values(
    rt: &impl Print,
    state: &[f64],
    plan: &[usize; 30],
    out: &mut [f64],
    scratch: &mut [f64],
) -> io::Result<()> {
    let answer = plan_values::planned_schmidt_values(
        state,
        plan_numbers::read_plan(plan),
        out,
        scratch,
    );
    replay::print_answer(rt, &answer)?;
    let got = answer.unwrap_or(CutCounted {
        count: 0,
        sweeps: sweeps::none(),
        exact: false,
    });
    replay::print_number(rt, got.count)?;
    replay::print_sweeps(rt, got.sweeps)?;
    replay::print_yes(rt, got.exact)
}

// The call of a kind that is lent floats: a is the state or the factor, n the register or the side of the matrix, cap the cap or the factor's
// side.
fn answer_of(
    kind: u64,
    a: &[f64],
    n: usize,
    list: &[usize],
    cap: usize,
    plan: &[usize; 30],
    out: &mut [f64],
    scratch: &mut [f64],
) -> Result<(), Refusal> {
    match kind {
        5 => cuts::cut_matrix(a, n, list, cap, out),
        7 => densities::dense_reduced_density(a, n, list, cap, out, scratch),
        8 => densities::mirror_lower_triangle(out, n),
        9 => density_trace::normalize_trace(out, n),
        0xa => density_block::multiply_block_factor(out, n, list, a, cap),
        0x16 => plan_matrix::planned_cut_matrix(a, plan_numbers::read_plan(plan), out),
        _ => plan_density::planned_reduced_density(a, plan_numbers::read_plan(plan), out, scratch),
    }
}

fn print_lent(rt: &impl Print, kind: u64, s: &[f64]) -> io::Result<()> {
    match kind {
        7..=0xf => replay::print_numbers(rt, s),
        _ => replay::print_or_digest(rt, s),
    }
}

// Lends the first numbers of out and of scratch, as many as are asked for.
fn show(
    rt: &impl Print,
    kind: u64,
    a: &[f64],
    n: usize,
    list: &[usize],
    cap: usize,
    plan: &[usize; 30],
    out: &mut [f64],
    room: usize,
    scratch: &mut [f64],
    more: usize,
) -> io::Result<()> {
    let Some(first) = out.get_mut(..room) else {
        return Ok(());
    };
    let Some(second) = scratch.get_mut(..more) else {
        return Ok(());
    };
    if kind == 0x18 {
        values(rt, a, plan, first, second)?;
    } else {
        replay::print_answer(rt, &answer_of(kind, a, n, list, cap, plan, first, second))?;
    }
    print_lent(rt, kind, first)?;
    print_lent(rt, kind, second)
}

fn lend(
    rt: &impl Print,
    kind: u64,
    a: &[f64],
    n: usize,
    list: &[usize],
    cap: usize,
    plan: &[usize; 30],
    room: usize,
    more: usize,
) -> io::Result<()> {
    let mut out = [1.0; 8200];
    let mut scratch = [1.0; 520];
    if kind != 7 {
        replay::count_up(&mut out, 0xc000_0000_0000_0000);
        replay::count_up(&mut scratch, 0xc000_0000_0000_0000);
    }
    show(
        rt,
        kind,
        a,
        n,
        list,
        cap,
        plan,
        &mut out,
        room,
        &mut scratch,
        more,
    )
}

fn cut_case(
    rt: &impl Print,
    text: &[u8],
    at: usize,
    kind: u64,
    plan: &[usize; 30],
) -> io::Result<usize> {
    let mut names = [0usize; 16];
    let h = read_head(text, at, &mut names);
    let second = replay::past(text, h.next);
    let third = replay::past(text, second);
    let mut state = [0.0; 8200];
    replay::count_up(&mut state, 0x3ff0_0000_0000_0000);
    let next = replay::change(
        text,
        replay::past(text, third),
        &mut state,
        replay::size_at(text, third),
    );
    let given = replay::front(&state, replay::size_at(text, h.next));
    let list = replay::front(&names, h.k);
    let size = replay::size_at(text, second);
    if kind == 5 {
        lend(rt, kind, given, h.n, list, h.cap, plan, size, 0)?;
    } else {
        show_pages(rt, given, h.n, list, h.cap, size)?;
    }
    Ok(next)
}

fn density_case(
    rt: &impl Print,
    text: &[u8],
    at: usize,
    kind: u64,
    plan: &[usize; 30],
) -> io::Result<usize> {
    let mut names = [0usize; 16];
    let h = read_head(text, at, &mut names);
    let m = replay::size_at(text, h.next);
    let mut state = [0.0; 8200];
    let room = replay::read_numbers(text, replay::past(text, h.next), &mut state, m);
    let more = replay::past(text, room);
    lend(
        rt,
        kind,
        replay::front(&state, m),
        h.n,
        replay::front(&names, h.k),
        h.cap,
        plan,
        replay::size_at(text, room),
        replay::size_at(text, more),
    )?;
    Ok(replay::past(text, more))
}

// A matrix as the text has it from its length on, and the call on it; where the text goes on after the matrix.
fn square(
    rt: &impl Print,
    text: &[u8],
    at: usize,
    kind: u64,
    factor: &[f64],
    dim: usize,
    positions: &[usize],
    side: usize,
    plan: &[usize; 30],
) -> io::Result<usize> {
    let m = replay::size_at(text, at);
    let mut rho = [0.0; 8200];
    let mut none = [0.0; 1];
    let next = replay::read_numbers(text, replay::past(text, at), &mut rho, m);
    show(
        rt, kind, factor, dim, positions, side, plan, &mut rho, m, &mut none, 0,
    )?;
    Ok(next)
}

// The factor stands after the matrix, and is read first.
fn block_case(
    rt: &impl Print,
    text: &[u8],
    at: usize,
    kind: u64,
    plan: &[usize; 30],
) -> io::Result<usize> {
    let second = replay::past(text, at);
    let k = replay::size_at(text, second);
    let mut positions = [0usize; 16];
    let third = replay::read_numbers(text, replay::past(text, second), &mut positions, k);
    let matrix = replay::past(text, third);
    let after = replay::skip(
        text,
        replay::past(text, matrix),
        replay::size_at(text, matrix),
    );
    let f = replay::size_at(text, after);
    let mut factor = [0.0; 2048];
    let last = replay::read_numbers(text, replay::past(text, after), &mut factor, f);
    square(
        rt,
        text,
        matrix,
        kind,
        replay::front(&factor, f),
        replay::size_at(text, at),
        replay::front(&positions, k),
        replay::size_at(text, third),
        plan,
    )?;
    Ok(last)
}

fn square_case(
    rt: &impl Print,
    text: &[u8],
    at: usize,
    kind: u64,
    plan: &[usize; 30],
) -> io::Result<usize> {
    let dim = replay::size_at(text, at);
    square(
        rt,
        text,
        replay::past(text, at),
        kind,
        &[],
        dim,
        &[],
        0,
        plan,
    )
}

// Sets the plan past every call: all zero, or one number.
fn poke(text: &[u8], at: usize, kind: u64, plan: &mut [usize; 30]) -> usize {
    if kind == 0x10 {
        *plan = [0; 30];
        return at;
    }
    let second = replay::past(text, at);
    replay::set(
        plan,
        replay::size_at(text, at),
        replay::word_at(text, second),
    );
    replay::past(text, second)
}

fn make(rt: &impl Print, text: &[u8], at: usize, plan: &mut [usize; 30]) -> io::Result<usize> {
    let mut names = [0usize; 16];
    let h = read_head(text, at, &mut names);
    let list = replay::front(&names, h.k);
    replay::print_answer(rt, &plan_calls::store_cut_plan(list, h.n, h.cap, plan))?;
    Ok(h.next)
}

// The calls of a plan's list.
fn planned(
    rt: &impl Print,
    text: &[u8],
    at: usize,
    kind: u64,
    plan: &[usize; 30],
) -> io::Result<usize> {
    let mut numbers = [0.0; 512];
    let k = replay::size_at(text, at);
    let next = replay::read_numbers(text, replay::past(text, at), &mut numbers, k);
    let a = replay::front(&numbers, k);
    let room = replay::size_at(text, next);
    let second = replay::past(text, next);
    if kind == 0x16 {
        lend(rt, kind, a, 0, &[], 0, plan, room, 0)?;
        return Ok(second);
    }
    let more = replay::size_at(text, second);
    lend(rt, kind, a, 0, &[], 0, plan, room, more)?;
    Ok(replay::past(text, second))
}

// A case of a plan, but for the plan's numbers.
fn operate(
    rt: &impl Print,
    text: &[u8],
    at: usize,
    kind: u64,
    plan: &mut [usize; 30],
) -> io::Result<usize> {
    let qubit = replay::size_at(text, at);
    let answer = match kind {
        0x11 => return make(rt, text, at, plan),
        0x16.. => return planned(rt, text, at, kind, plan),
        0x10 | 0x15 => Ok(()),
        0x12 => plan_calls::add_to_plan(plan, qubit),
        0x14 => plan_calls::switch_plan(plan),
        _ => plan_calls::drop_from_plan(plan, qubit),
    };
    replay::print_answer(rt, &answer)?;
    match kind {
        0x10 | 0x15 => Ok(poke(text, at, kind, plan)),
        0x14 => Ok(at),
        _ => Ok(replay::past(text, at)),
    }
}

fn case(
    rt: &impl Print,
    text: &[u8],
    kind: u64,
    at: usize,
    plan: &mut [usize; 30],
) -> io::Result<usize> {
    match kind {
        1 => lists(rt, text, at),
        0 | 2 | 4 => counts_case(rt, text, at, kind),
        3 => base_case(rt, text, at),
        5 | 6 => cut_case(rt, text, at, kind, plan),
        7 => density_case(rt, text, at, kind, plan),
        0xa => block_case(rt, text, at, kind, plan),
        8..=0xf => square_case(rt, text, at, kind, plan),
        _ => {
            let next = operate(rt, text, at, kind, plan)?;
            replay::print_numbers(rt, plan)?;
            Ok(next)
        }
    }
}

fn main(rt: HostRuntime) -> io::Result<()> {
    let mut text = [0u8; 393216];
    let n = inputs::read_full(&mut rt.reader(), &mut text);
    let text = &text[..n];
    let mut plan = [0usize; 30];
    replay::run(&rt, text, |kind, at| case(&rt, text, kind, at, &mut plan))
}
