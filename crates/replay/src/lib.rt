// Inner: for the programs that replay cases, and for them alone: hexadecimal words read from a text and written
// to standard output. What they promise is only what a loop over a text needs; the gate compares the output.
#![tactic(auto)]

ghost use Rattle.std.specs.Prelude.{◌≡◌, ◌<◌, ◌≤◌, IfSome, max, length};

use answers::Refusal;
use std::io;
use sweeps::Sweeps;

// A word of the text, and where the text goes on.
#[derive(Clone, Copy)]
pub struct Word {
    pub value: u64,
    pub next: usize,
}

// The value of a hexadecimal digit.
fn digit(b: u8) -> Option<u64>
    ensures { IfSome result (λ d. d < 16) }
{
    match b {
        b'0'..=b'9' => Some(u64::from(b - b'0')),
        b'A'..=b'F' => Some(u64::from(b - b'A') + 10),
        _ => None,
    }
}

// Where the next word starts, or the text's end: a '#' and the rest of its line are a comment.
fn word_start(text: &[u8], at: usize) -> usize
    ensures { (result < length text.now → at ≤ result) × (result ≤ length text.now) }
{
    let mut comment = false;
    for i in at..text.len() {
        let b = text[i];
        if comment {
            comment = b != b'\n';
        } else if digit(b).is_some() {
            return i;
        } else {
            comment = b == b'#';
        }
    }
    text.len()
}

// The next word of the text from `at` on.
pub fn next_word(text: &[u8], at: usize) -> Option<Word>
    ensures { IfSome result (λ w. (at < w.next) × (w.next ≤ length text.now)) }
{
    let start = word_start(text, at);
    let mut next = start;
    let mut value = 0u64;
    for i in start..text.len() {
        let Some(d) = digit(text[i]) else {
            break;
        };
        value = value % 0x1000_0000_0000_0000 * 16 + d;
        next = i + 1;
    }
    if start < next {
        Some(Word { value, next })
    } else {
        None
    }
}

// The same, and past the last word 0 each time. From there the text goes on at its end, so what no word stands in is gone over once.
pub fn read_word(text: &[u8], at: usize) -> Word
    ensures { (at < length text.now → at < result.next) × (at ≤ result.next) × (result.next ≤ max at (length text.now)) }
{
    next_word(text, at).unwrap_or(Word {
        value: 0,
        next: at.max(text.len()),
    })
}

// The word of the text from `at` on: 0 past the text's end.
pub fn word_at(text: &[u8], at: usize) -> u64 {
    read_word(text, at).value
}

// The same as a size.
pub fn size_at(text: &[u8], at: usize) -> usize {
    word_at(text, at) as usize
}

// The same as a float.
pub fn float_at(text: &[u8], at: usize) -> f64 {
    float_of(word_at(text, at))
}

// Where the text goes on after that word.
pub fn past(text: &[u8], at: usize) -> usize {
    read_word(text, at).next
}

// Where the text goes on after so many words from `at` on.
pub fn skip(text: &[u8], at: usize, count: usize) -> usize {
    let mut next = at;
    for _ in 0..count {
        next = past(text, next);
    }
    next
}

// The word that so many words stand before from `at` on, as a length: what it says where that is at most `most`, and else `most`.
pub fn length_at(text: &[u8], at: usize, before: usize, most: usize) -> usize
    ensures { result ≤ most }
{
    size_at(text, skip(text, at, before)).min(most)
}

// The float with these bits. Every NaN's pattern gives the one NaN that the square root gives.
pub fn float_of(bits: u64) -> f64 {
    if bits % 0x8000_0000_0000_0000 > 0x7ff0_0000_0000_0000 {
        return numbers::sqrt(-1.0);
    }
    f64::from_bits(bits)
}

// What a word is read as and written as.
pub trait Number: Copy {
    fn of_word(word: u64) -> Self;

    fn word(self) -> u64;
}

impl Number for u64 {
    fn of_word(word: u64) -> u64 {
        word
    }

    fn word(self) -> u64 {
        self
    }
}

// The low half of a word.
impl Number for u32 {
    fn of_word(word: u64) -> u32 {
        (word % 0x1_0000_0000) as u32
    }

    fn word(self) -> u64 {
        u64::from(self)
    }
}

impl Number for usize {
    fn of_word(word: u64) -> usize {
        word as usize
    }

    fn word(self) -> u64 {
        self as u64
    }
}

impl Number for f64 {
    fn of_word(word: u64) -> f64 {
        float_of(word)
    }

    fn word(self) -> u64 {
        bits::bits_of(self)
    }
}

// The first `count` numbers of out, or all where it has fewer, from the words of the text from `at` on,
// and where the text goes on. Past the text's end each word is 0.
pub fn read_numbers<T: Number>(text: &[u8], at: usize, out: &mut [T], count: usize) -> usize {
    let mut next = at;
    for i in 0..count.min(out.len()) {
        let word = read_word(text, next);
        out[i] = T::of_word(word.value);
        next = word.next;
    }
    next
}

// The changes of a slice that the text names, each a place and a word; where it goes on.
pub fn change<T: Number>(text: &[u8], at: usize, out: &mut [T], count: usize) -> usize {
    let mut next = at;
    for _ in 0..count {
        let place = read_word(text, next);
        let word = read_word(text, place.next);
        set(out, place.value as usize, word.value);
        next = word.next;
    }
    next
}

// Writes the word at that place, where the slice has it.
pub fn set<T: Number>(out: &mut [T], place: usize, word: u64) {
    if place < out.len() {
        out[place] = T::of_word(word);
    }
}

// What a slice holds as it is lent: words that count up from the first number's.
pub fn count_up<T: Number>(out: &mut [T], first: u64) {
    let mut word = first;
    for x in out {
        *x = T::of_word(word);
        word = word.wrapping_add(1);
    }
}

// The first k numbers, or all where there are fewer.
pub fn front<T>(s: &[T], k: usize) -> &[T] {
    &s[..k.min(s.len())]
}

// The digit of a value below 16, in capitals.
fn glyph(d: u8) -> u8
    requires { d < 16 }
{
    if d < 10 { b'0' + d } else { b'A' + (d - 10) }
}

// Writes the word as 16 digits and a space.
pub fn print_word(rt: &impl Print, value: u64) -> io::Result<()> {
    let mut out = [b' '; 17];
    let mut rest = value;
    for i in (0..16).rev() {
        out[i] = glyph((rest % 16) as u8);
        rest /= 16;
    }
    rt.write_all(&out)
}

// Writes the number as a word.
pub fn print_number<T: Number>(rt: &impl Print, x: T) -> io::Result<()> {
    print_word(rt, x.word())
}

// Writes each number of the slice.
pub fn print_numbers<T: Number>(rt: &impl Print, s: &[T]) -> io::Result<()> {
    for x in s {
        print_number(rt, *x)?;
    }
    Ok(())
}

// Ends the line.
pub fn end_line(rt: &impl Print) -> io::Result<()> {
    rt.write_all(b"\n")
}

// Writes an answer: its number and its place.
pub fn print_answer<T>(rt: &impl Print, answer: &Result<T, Refusal>) -> io::Result<()> {
    let reply = answers::number_of(answer);
    print_number(rt, reply.number)?;
    print_number(rt, reply.place)
}

// Writes an answer and the number that the call gives: 0 on a refusal.
pub fn print_count<T: Number>(rt: &impl Print, answer: Result<T, Refusal>) -> io::Result<()> {
    print_answer(rt, &answer)?;
    print_word(rt, answer.map_or(0, |count| count.word()))
}

// Writes 1 for yes and 0 for no.
pub fn print_yes(rt: &impl Print, yes: bool) -> io::Result<()> {
    print_word(rt, u64::from(yes))
}

// Writes how the sweeps went: those begun, 1 where the last one was quiet, and the pairs turned.
pub fn print_sweeps(rt: &impl Print, s: Sweeps) -> io::Result<()> {
    print_number(rt, s.begun)?;
    print_yes(rt, s.quiet)?;
    print_number(rt, s.turned)
}

// A digest of the numbers' words, in order, modulo 2^31 - 1.
pub fn digest<T: Number>(s: &[T]) -> u64 {
    let mut sum = 0u64;
    for x in s {
        sum = (sum * 31 + x.word() % 0x7fff_ffff) % 0x7fff_ffff;
    }
    sum
}

// The numbers, or their digest where there are 200 or more.
pub fn print_or_digest<T: Number>(rt: &impl Print, s: &[T]) -> io::Result<()> {
    if s.len() < 200 {
        return print_numbers(rt, s);
    }
    print_word(rt, digest(s))
}

// Writes one line for each case of the text: the closure is given a case's kind and where the text goes on after it,
// writes the case and answers where the next one may start. At most 10,000 cases are taken.
pub fn run<F: FnMut(u64, usize) -> io::Result<usize>>(
    rt: &impl Print,
    text: &[u8],
    mut case: F,
) -> io::Result<()>
    requires { F.IsAlwaysCallable case }
{
    let mut at = 0;
    for _ in 0..10000usize {
        let Some(kind) = next_word(text, at) else {
            return Ok(());
        };
        at = case(kind.value, kind.next)?;
        end_line(rt)?;
    }
    Ok(())
}
