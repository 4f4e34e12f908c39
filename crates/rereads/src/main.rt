// The program: the reading's cases on standard input, one a line: an image in the short form of host/README.md, the number of its refusal
// (0 where it is read) and the offset. It reads each image and tells how many cases there are and how many agree.
#![tactic(auto)]

use image::read_image;
use std::io;
use texts::{cut, decimal, hex, read_full, try_each, written};

// Has the bytes between two places of `out` stand there so many times, as far as they fit, and answers the place after them.
fn repeated(out: &mut [u8], from: usize, to: usize, times: usize) -> usize {
    let len = to.saturating_sub(from);
    let end = len
        .saturating_mul(times.saturating_sub(1))
        .saturating_add(to);
    for i in to..end.min(out.len()) {
        out[i] = out[i - len];
    }
    end
}

// One segment of an image: hex digits, and where `*` follows them the number of times.
fn segment(s: &[u8], out: &mut [u8], n: usize) -> usize {
    let (digits, times) = cut(s, b'*');
    let m = hex(digits, out, n);
    if digits.len() < s.len() {
        repeated(out, n, m, decimal(times))
    } else {
        m
    }
}

// The image of the segments of a word, and its length.
fn segments(word: &[u8], out: &mut [u8]) -> usize {
    let mut n = 0;
    for s in word.split(|b| *b == b'.') {
        n = segment(s, out, n);
    }
    n
}

// Whether the reading of an image answers what is expected.
fn agrees(img: &[u8], number: usize, offset: usize) -> bool {
    match read_image(img) {
        Ok(_) => number == 0 && offset == 0,
        // (a u64 of a usize has no From)
        Err(refused) => u64::from(refused.fault) == number as u64 && refused.offset == offset,
    }
}

// Whether the case on a line agrees.
fn case_agrees(line: &[u8]) -> bool {
    let (word, rest) = cut(line, b' ');
    let (number, offset) = cut(rest, b' ');
    // the longest image of the list is one field over the 65,536 bytes; a longer one would not agree, since it doesn't fit
    let mut img = [0u8; 65544];
    let len = segments(written(word), &mut img);
    img.get(..len)
        .is_some_and(|image| agrees(image, decimal(number), decimal(offset)))
}

fn main(rt: HostRuntime) -> io::Result<()> {
    let mut text = [0u8; 131072]; // a buffer beside its count, since there is no heap
    let n = read_full(&mut rt.stdin(), &mut text)?;
    let told = try_each(&text[..n], case_agrees);
    println!(rt; "{told} as document 01 says")
}
