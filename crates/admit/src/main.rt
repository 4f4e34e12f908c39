// The program: an image on standard input; `accepted`, `errors` or `refused`, a number, and the error fields on standard output.
#![tactic(auto)]

use checks::check;
use rules::Answer;
use std::fmt::Display;
use std::io;
use texts::read_full;

// A word and a number on a line.
fn line<N: Display + Drop>(rt: &impl Print, word: &[u8], n: N) -> io::Result<()> {
    rt.write_all(word)?;
    println!(rt; "{n}")
}

// The first bytes of a buffer.
fn write_part(rt: &impl Print, out: &[u8], bytes: usize) -> io::Result<()> {
    match out.get(..bytes) {
        Some(part) => rt.write_all(part),
        None => Ok(()),
    }
}

fn tell(rt: &impl Print, image: &[u8], out: &mut [u8]) -> io::Result<()> {
    match check(image, out) {
        Answer::Done { items, .. } => line(rt, b"accepted ", items),
        Answer::Errors { errors, bytes } => {
            line(rt, b"errors ", errors)?;
            write_part(rt, out, bytes)
        }
        refusal => line(rt, b"refused ", u64::from(refusal)),
    }
}

fn main(rt: HostRuntime) -> io::Result<()> {
    // one byte more than an image may have, so that a longer one is seen to be; a buffer beside its count, since there is no heap
    let mut image = [0u8; 65537];
    let n = read_full(&mut rt.stdin(), &mut image)?;
    let mut out = [0u8; 65536];
    tell(&rt, &image[..n], &mut out)
}
