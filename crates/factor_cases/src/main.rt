// Replays answers of the factorisations, the spectra, the cut values and the entropy's band. Standard input is a text of hexadecimal
// words: a case's kind and then the arguments of the call in order. A slice that is read is its length and its words; a slice that is
// lent is its length alone and holds 3.0 everywhere, bands 7. Each case writes one line of words: the answer's number and place, the
// rank or count where the call has one, the sweeps begun, 1 where the last was quiet and else 0, and the pairs turned where it sweeps;
// then the lent slices as they stand afterwards.
//   1 a m n u s vt scratch                 svd_jacobi
//   2 a rows cols q r scratch              factorize_gram_schmidt
//   3 a dim out scratch                    hermitian_eigenvalues
//   4 values out                           finish_schmidt_values
//   5 rho dim out scratch                  schmidt_values_from_density
//   6 matrix dim values vectors scratch    hermitian_eigen
//   7 state n list cap out scratch         dense_schmidt_values: after the sweeps 1 where every root came out even and else 0
//   8 state n list cap bands scratch       entropy_band: after the count low, high and whole, and no pairs turned
//   9 values                               the weight of each value
//   A w W                                  the band of w in W: lo and hi
#![tactic(auto)]

use answers::Refusal;
use cut_values::CutCounted;
use entropy_bands::Entropy;
use factored::Counted;
use std::io;
use sweeps::Sweeps;

// Writes an answer and how its sweeps went: none on a refusal.
fn print_swept(rt: &impl Print, r: Result<Sweeps, Refusal>) -> io::Result<()> {
    replay::print_answer(rt, &r)?;
    replay::print_sweeps(rt, r.unwrap_or(sweeps::none()))
}

// Writes an answer, its count and how its sweeps went.
fn print_counted(rt: &impl Print, r: Result<Counted, Refusal>) -> io::Result<()> {
    replay::print_answer(rt, &r)?;
    let got = r.unwrap_or(Counted {
        count: 0,
        sweeps: sweeps::none(),
    });
    replay::print_number(rt, got.count)?;
    replay::print_sweeps(rt, got.sweeps)
}

fn factor(
    rt: &impl Print,
    a: &[f64],
    m: usize,
    n: usize,
    u: &mut [f64],
    s: &mut [f64],
    vt: &mut [f64],
    scratch: &mut [f64],
) -> io::Result<()> {
    print_swept(rt, svd::svd_jacobi(a, m, n, u, s, vt, scratch))?;
    replay::print_numbers(rt, u)?;
    replay::print_numbers(rt, s)?;
    replay::print_numbers(rt, vt)?;
    replay::print_numbers(rt, scratch)
}

fn factorize(
    rt: &impl Print,
    a: &[f64],
    rows: usize,
    cols: usize,
    q: &mut [f64],
    r: &mut [f64],
    scratch: &mut [f64],
) -> io::Result<()> {
    replay::print_count(rt, qr::factorize_gram_schmidt(a, rows, cols, q, r, scratch))?;
    replay::print_numbers(rt, q)?;
    replay::print_numbers(rt, r)?;
    replay::print_numbers(rt, scratch)
}

fn eigenvalues(
    rt: &impl Print,
    a: &[f64],
    dim: usize,
    out: &mut [f64],
    scratch: &mut [f64],
) -> io::Result<()> {
    print_swept(rt, spectra::hermitian_eigenvalues(a, dim, out, scratch))?;
    replay::print_numbers(rt, out)?;
    replay::print_numbers(rt, scratch)
}

fn finished(rt: &impl Print, values: &[f64], out: &mut [f64]) -> io::Result<()> {
    replay::print_count(rt, finish::finish_schmidt_values(values, out))?;
    replay::print_numbers(rt, out)
}

fn from_density(
    rt: &impl Print,
    rho: &[f64],
    dim: usize,
    out: &mut [f64],
    scratch: &mut [f64],
) -> io::Result<()> {
    print_counted(
        rt,
        spectra::schmidt_values_from_density(rho, dim, out, scratch),
    )?;
    replay::print_numbers(rt, out)?;
    replay::print_numbers(rt, scratch)
}

fn eigen(
    rt: &impl Print,
    matrix: &[f64],
    dim: usize,
    values: &mut [f64],
    vectors: &mut [f64],
    scratch: &mut [f64],
) -> io::Result<()> {
    print_swept(
        rt,
        hermitian_eigen::hermitian_eigen(matrix, dim, values, vectors, scratch),
    )?;
    replay::print_numbers(rt, values)?;
    replay::print_numbers(rt, vectors)?;
    replay::print_numbers(rt, scratch)
}

fn values(
    rt: &impl Print,
    state: &[f64],
    n: usize,
    list: &[usize],
    cap: usize,
    out: &mut [f64],
    scratch: &mut [f64],
) -> io::Result<()> {
    let answer = cut_values::dense_schmidt_values(state, n, list, cap, out, scratch);
    replay::print_answer(rt, &answer)?;
    let got = answer.unwrap_or(CutCounted {
        count: 0,
        sweeps: sweeps::none(),
        exact: false,
    });
    replay::print_number(rt, got.count)?;
    replay::print_sweeps(rt, got.sweeps)?;
    replay::print_yes(rt, got.exact)?;
    replay::print_numbers(rt, out)?;
    replay::print_numbers(rt, scratch)
}

fn entropy(
    rt: &impl Print,
    state: &[f64],
    n: usize,
    list: &[usize],
    cap: usize,
    bands: &mut [usize],
    scratch: &mut [f64],
) -> io::Result<()> {
    let answer = entropy_bands::entropy_band(state, n, list, cap, bands, scratch);
    replay::print_answer(rt, &answer)?;
    let got = answer.unwrap_or(Entropy {
        count: 0,
        low: 0,
        high: 0,
        whole: 0,
        sweeps: sweeps::none(),
    });
    replay::print_number(rt, got.count)?;
    replay::print_word(rt, got.low)?;
    replay::print_word(rt, got.high)?;
    replay::print_word(rt, got.whole)?;
    replay::print_number(rt, got.sweeps.begun)?;
    replay::print_yes(rt, got.sweeps.quiet)?;
    replay::print_numbers(rt, bands)?;
    replay::print_numbers(rt, scratch)
}

// The call of a kind, on what is read and its two numbers, with as many of the lent slices as it has.
fn call(
    rt: &impl Print,
    kind: u64,
    a: &[f64],
    list: &[usize],
    m: usize,
    n: usize,
    bands: &mut [usize],
    first: &mut [f64],
    second: &mut [f64],
    third: &mut [f64],
    fourth: &mut [f64],
) -> io::Result<()> {
    match kind {
        1 => factor(rt, a, m, n, first, second, third, fourth),
        2 => factorize(rt, a, m, n, first, second, third),
        3 => eigenvalues(rt, a, m, first, second),
        4 => finished(rt, a, first),
        5 => from_density(rt, a, m, first, second),
        6 => eigen(rt, a, m, first, second, third),
        7 => values(rt, a, m, list, n, first, second),
        _ => entropy(rt, a, m, list, n, bands, second),
    }
}

// How many slices the call of a kind is lent.
fn lent_by(kind: u64) -> usize {
    match kind {
        1 => 4,
        2 | 6 => 3,
        4 => 1,
        _ => 2,
    }
}

// Lends buffers of the lengths that the text has from `at` on; a call with fewer slices is lent some of them.
fn lend(
    rt: &impl Print,
    text: &[u8],
    at: usize,
    kind: u64,
    a: &[f64],
    list: &[usize],
    m: usize,
    n: usize,
) -> io::Result<usize> {
    let mut bands = [7usize; 512];
    let mut first = [3.0; 512];
    let mut second = [3.0; 512];
    let mut third = [3.0; 512];
    let mut fourth = [3.0; 512];
    let in_first = replay::length_at(text, at, 0, 512);
    let in_second = replay::length_at(text, at, 1, 512);
    let in_third = replay::length_at(text, at, 2, 512);
    let in_fourth = replay::length_at(text, at, 3, 512);
    call(
        rt,
        kind,
        a,
        list,
        m,
        n,
        &mut bands[..in_first],
        &mut first[..in_first],
        &mut second[..in_second],
        &mut third[..in_third],
        &mut fourth[..in_fourth],
    )?;
    Ok(replay::skip(text, at, lent_by(kind)))
}

// The register, the list and the cap, and then the call.
fn with_list(
    rt: &impl Print,
    text: &[u8],
    at: usize,
    kind: u64,
    state: &[f64],
) -> io::Result<usize> {
    let mut names = [0usize; 512];
    let length = replay::past(text, at);
    let k = replay::size_at(text, length);
    let next = replay::read_numbers(text, replay::past(text, length), &mut names, k);
    lend(
        rt,
        text,
        replay::past(text, next),
        kind,
        state,
        replay::front(&names, k),
        replay::size_at(text, at),
        replay::size_at(text, next),
    )
}

// The sizes, of which a call has two, one or none, and then the call.
fn with_sizes(rt: &impl Print, text: &[u8], at: usize, kind: u64, a: &[f64]) -> io::Result<usize> {
    let second = replay::past(text, at);
    let m = replay::size_at(text, at);
    match kind {
        0..=2 => {
            let n = replay::size_at(text, second);
            lend(rt, text, replay::past(text, second), kind, a, &[], m, n)
        }
        4 => lend(rt, text, at, kind, a, &[], 0, 0),
        _ => lend(rt, text, second, kind, a, &[], m, 0),
    }
}

fn print_weights(rt: &impl Print, values: &[f64]) -> io::Result<()> {
    for x in values {
        replay::print_word(rt, entropy_weights::weight(*x))?;
    }
    Ok(())
}

fn print_band(rt: &impl Print, w: u64, all: u64) -> io::Result<()> {
    if w == 0 || all < w || 0xffff_ffff < all {
        return Ok(());
    }
    let whole = entropy_powers::powers_of(all);
    let b = entropy_powers::band_in(w, whole);
    replay::print_word(rt, b.low)?;
    replay::print_word(rt, b.high)
}

fn pair(rt: &impl Print, text: &[u8], at: usize) -> io::Result<usize> {
    let second = replay::past(text, at);
    print_band(rt, replay::word_at(text, at), replay::word_at(text, second))?;
    Ok(replay::past(text, second))
}

fn case(rt: &impl Print, text: &[u8], kind: u64, at: usize) -> io::Result<usize> {
    if kind == 10 {
        return pair(rt, text, at);
    }
    let mut numbers = [0.0; 512];
    let count = replay::size_at(text, at);
    let next = replay::read_numbers(text, replay::past(text, at), &mut numbers, count);
    let a = replay::front(&numbers, count);
    match kind {
        0..=6 => with_sizes(rt, text, next, kind, a),
        7 | 8 => with_list(rt, text, next, kind, a),
        _ => {
            print_weights(rt, a)?;
            Ok(next)
        }
    }
}

fn main(rt: HostRuntime) -> io::Result<()> {
    let mut text = [0u8; 229376];
    let n = inputs::read_full(&mut rt.reader(), &mut text);
    let text = &text[..n];
    replay::run(&rt, text, |kind, at| case(&rt, text, kind, at))
}
