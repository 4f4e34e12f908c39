// What the programs read with: the whole of an input, and of the lines of a list words, numbers and bytes in hex. Any text is read: a byte past the
// end counts as 0.
#![tactic(auto)]

ghost use Rattle.std.specs.Prelude.{◌≡◌, ◌==◌, ◌+◌, ◌-◌, ◌≤◌, ◌<◌, if◌then◌else◌, min, [], get_or, length, take, count_by, List, Bool, IfOk};
ghost use Rattle.std.specs.Fn.{FnReturnsAt};
ghost use Rattle.std.specs.Iterator.{YieldsFirstRef, item_count};
ghost use Rattle.std.specs.List.{AllZip, position, before_first, after_first};
ghost use Rattle.std.specs.Io.{ReadsAtMost};
ghost use Rattle.std.specs.Io.KnownBytes.{Consumes, IsAtEnd};
ghost use Rattle.output.specs.Bytes.{Wrote};
ghost use Rattle.texts.specs.Text.{place_of, push, number_in, nibble_of, byte_of, hex_in, lines_of};

use output::put1;
use std::io::Read;
use std::{fmt, io};

// Reads until `buf` is full or the input ends, and answers how many bytes it put at the start of `buf`. The only error is that of the first read that
// fails; it leaves the buffer's length. (`read_exact` refuses an input that ends early, and `read_to_end` needs a `Vec`.)
pub fn read_full<R: Read>(input: &mut R, buf: &mut [u8]) -> io::Result<usize>
    ensures keeps { length buf.new ≡ length buf.old }
    ensures count { ReadsAtMost result buf.new }
    ensures bytes { IfOk result (λ n. Consumes (R.remaining input.old) (R.remaining input.new) (take n buf.new)) }
    ensures end { IfOk result (λ n. n < length buf.new → IsAtEnd (R.remaining input.new)) }
{
    let mut done = 0;
    while done < buf.len() {
        let n = input.read(&mut buf[done..])?;
        if n == 0 {
            return Ok(done);
        }
        done += n;
    }
    Ok(done)
}

// The byte at a place.
pub fn at(s: &[u8], i: usize) -> u8
    ensures { result ≡ get_or s.now i 0 }
{
    s.get(i).copied().unwrap_or(0)
}

// One more, but never more than `most`.
pub fn step(i: usize, most: usize) -> usize
    ensures { result ≡ min (i + 1) most }
{
    i.saturating_add(1).min(most)
}

// `until`, `number` and `unhex` take places and not a slice: what they promise is of places past the end too, which no slice has.

// The first place from `from` on where `b` stands, or `to` where there is none before it.
pub fn until(s: &[u8], from: usize, to: usize, b: u8) -> usize
    ensures { (result ≡ place_of s.now b (to - from) from) × (from ≤ result) }
{
    (from..to).find(|&i| at(s, i) == b).unwrap_or(from.max(to))
}

// A number with one decimal digit more. What is no digit, and what would make it too long, changes nothing.
#[tactic(auto, using(crate::proofs::Laws::pushes))]
fn pushed(n: usize, digit: u8) -> usize
    ensures { result ≡ push n digit }
{
    match digit {
        b'0'..=b'9' if n < 1000000 => n * 10 + usize::from(digit - b'0'),
        _ => n,
    }
}

// The decimal number between two places.
pub fn number(s: &[u8], from: usize, to: usize) -> usize
    ensures { result ≡ number_in s.now (to - from) from 0 }
{
    (from..to).fold(0, |n, i| pushed(n, at(s, i)))
}

// The value of a hex digit, 0 for what is none.
#[tactic(auto, using(crate::proofs::Laws::nibbles))]
fn nibble(c: u8) -> u8
    ensures { (result ≡ nibble_of c) × (result < 16) }
{
    match c {
        b'0'..=b'9' => c - b'0',
        b'a'..=b'f' => c - b'a' + 10,
        _ => 0,
    }
}

// Two hex digits as a byte.
fn joined(high: u8, low: u8) -> u8
    ensures { result ≡ byte_of high low }
{
    nibble(high) * 16 + nibble(low)
}

// Puts the bytes whose hex digits stand between two places into `out` from `n` on, as far as they fit, and answers the place after them. A last digit
// that is alone is no byte.
pub fn unhex(s: &[u8], from: usize, to: usize, out: &mut [u8], n: usize) -> usize
    ensures { Wrote out.old n (hex_in (to - from) s.now from) out.new result }
{
    let mut m = n;
    for k in 0..to.saturating_sub(from) / 2 {
        let i = from + 2 * k;
        m = put1(out, m, joined(at(s, i), at(s, i + 1)));
    }
    m
}

// The first place of a byte.
fn place(s: &[u8], b: u8) -> Option<usize>
    ensures { result ≡ position (λ c. c == b) s.now }
{
    s.iter().position(|c| *c == b)
}

// What stands before the first `b`, and what stands behind it; all and nothing where there is none.
pub fn cut(s: &[u8], b: u8) -> (&[u8], &[u8])
    ensures before { result.0.now ≡ before_first (λ c. c == b) s.now }
    ensures behind { result.1.now ≡ after_first (λ c. c == b) s.now }
{
    match place(s, b) {
        Some(i) => (&s[..i], &s[i + 1..]),
        None => (s, &[]),
    }
}

// The decimal number of a word.
pub fn decimal(word: &[u8]) -> usize
    ensures { result ≡ number_in word.now (length word.now) 0 0 }
{
    number(word, 0, word.len())
}

// Puts the bytes of a word of hex digits into `out` from `n` on, as `unhex` does.
pub fn hex(word: &[u8], out: &mut [u8], n: usize) -> usize
    ensures { Wrote out.old n (hex_in (length word.now) word.now 0) out.new result }
{
    unhex(word, 0, word.len(), out, n)
}

// The word, or nothing where it is the `-` that stands for nothing.
pub fn written(word: &[u8]) -> &[u8]
    ensures { result.now ≡ if get_or word.now 0 0 == 45 then [] else word.now }
{
    if at(word, 0) == b'-' { &[] } else { word }
}

// How many cases a list has, and at how many of them the answer was right.
#[derive(Clone, Copy)]
pub struct Tally {
    pub cases: usize,
    pub right: usize,
}

impl fmt::Display for Tally {
    fn fmt<W: fmt::Write>(&self, f: &mut fmt::Formatter<W>) -> fmt::Result {
        write!(f, "{} cases, {}", self.cases, self.right)
    }
}

// The lines of a text, each without its end.
#[derive(Drop)]
struct Lines<'a>(&'a [u8]);

impl<'a> Iterator for Lines<'a> {
    type Item = &'a [u8];

    ghost next_gives = { YieldsFirstRef (λ s. lines_of s.0.now) };

    ghost remaining = { item_count (λ s. lines_of s.0.now) };

    fn next(&mut self) -> Option<&'a [u8]> {
        if self.0.is_empty() {
            return None;
        }
        let (line, behind) = cut(self.0, b'\n');
        self.0 = behind;
        Some(line)
    }
}

// Tries each line of a list.
pub fn try_each<F: Fn(&[u8]) -> bool>(list: &[u8], agrees: F) -> Tally
    requires { F.IsAlwaysCallable agrees }
    ensures cases { result.cases ≡ length (lines_of list.now) }
    ensures right { (answers : List Bool) × AllZip (FnReturnsAt F.Fn agrees) (lines_of list.now) answers × (result.right ≡ count_by (λ a. a) answers) }
{
    let mut t = Tally { cases: 0, right: 0 };
    for line in Lines(list) {
        t.cases += 1;
        if agrees(line) {
            t.right += 1;
        }
    }
    t
}
