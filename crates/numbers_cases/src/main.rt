// Replays cases of the number helpers and of the complex record. Standard input is a text of hexadecimal
// words: a case's kind and then its bit patterns. Each case writes one line of words.
//   1 x            sqrt_bits of the pattern, then of sqrt_marked of the float the bits of the root and its mark (0 or 1)
//   2 x            magnitude, sign, finite (0 or 1), allowed (0 or 1)
//   3 x y          the number of the total order of x and y
//   4 a b (4 words)  product, sum, difference of a and b; negation, conjugate, norm_sqr and modulus of a;
//                    a scaled and divided by the real part of b
#![tactic(auto)]

use complex::Complex;
use std::io;

fn print_complex(rt: &impl Print, z: Complex) -> io::Result<()> {
    replay::print_number(rt, z.re)?;
    replay::print_number(rt, z.im)
}

fn roots(rt: &impl Print, text: &[u8], at: usize) -> io::Result<usize> {
    let word = replay::read_word(text, at);
    replay::print_word(rt, numbers::sqrt_bits(word.value))?;
    let marked = exact_roots::sqrt_marked(replay::float_of(word.value));
    replay::print_number(rt, marked.root)?;
    replay::print_yes(rt, marked.exact)?;
    Ok(word.next)
}

fn helpers(rt: &impl Print, text: &[u8], at: usize) -> io::Result<usize> {
    let word = replay::read_word(text, at);
    let x = replay::float_of(word.value);
    replay::print_number(rt, numbers::magnitude(x))?;
    replay::print_number(rt, numbers::sign(x))?;
    replay::print_yes(rt, numbers::is_finite(x))?;
    replay::print_yes(rt, numbers::component_allowed(x))?;
    Ok(word.next)
}

fn order(rt: &impl Print, text: &[u8], at: usize) -> io::Result<usize> {
    let first = replay::read_word(text, at);
    let second = replay::read_word(text, first.next);
    let order = numbers::total_order(
        replay::float_of(first.value),
        replay::float_of(second.value),
    );
    replay::print_number(rt, numbers::order_number(order))?;
    Ok(second.next)
}

fn cell(text: &[u8], at: usize) -> Complex {
    let re = replay::read_word(text, at);
    Complex {
        re: replay::float_of(re.value),
        im: replay::float_at(text, re.next),
    }
}

fn arithmetic(rt: &impl Print, text: &[u8], at: usize) -> io::Result<usize> {
    let next = replay::skip(text, at, 2);
    let a = cell(text, at);
    let b = cell(text, next);
    print_complex(rt, a.mul(b))?;
    print_complex(rt, a.add(b))?;
    print_complex(rt, a.sub(b))?;
    print_complex(rt, a.neg())?;
    print_complex(rt, a.conj())?;
    replay::print_number(rt, a.norm_sqr())?;
    replay::print_number(rt, modulus::modulus(a))?;
    print_complex(rt, a.scale(b.re))?;
    print_complex(rt, a.div_real(b.re))?;
    Ok(replay::skip(text, next, 2))
}

fn case(rt: &impl Print, text: &[u8], kind: u64, at: usize) -> io::Result<usize> {
    match kind {
        1 => roots(rt, text, at),
        2 => helpers(rt, text, at),
        3 => order(rt, text, at),
        _ => arithmetic(rt, text, at),
    }
}

fn main(rt: HostRuntime) -> io::Result<()> {
    let mut text = [0u8; 262144];
    let n = inputs::read_full(&mut rt.reader(), &mut text);
    let text = &text[..n];
    replay::run(&rt, text, |kind, at| case(&rt, text, kind, at))
}
