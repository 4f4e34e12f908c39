// The program: the list of the Rust's answers on standard input, one case a line: an image in hex, the error fields up to recursion in hex
// (`-` for none) and the number of recursion groups. It checks each image and tells how many cases there are and how many agree.
#![tactic(auto)]

use checks::check;
use rules::Answer;
use std::io;
use texts::{at, cut, decimal, hex, read_full, try_each, written};
use walker::Reader;

// Whether from the reader to `end` stand just so many fields of recursion: error fields are headed as an image's fields are, so the image's reader
// reads them. What it reads goes on behind `end`, so that a last field that is too long is seen.
fn recursions(mut fields: Reader<'_>, end: usize, groups: usize) -> bool {
    for _ in 0..groups {
        if end <= fields.at || fields.tag() != 4 {
            return false;
        }
        fields = fields.next();
    }
    fields.at == end
}

// Whether the error fields written, the first `bytes` of `out`, are the first `n` bytes of `expected` and behind them fields of recursion. A byte past
// the end of `expected` counts as 0.
fn fields_agree(out: &[u8], bytes: usize, expected: &[u8], n: usize, groups: usize) -> bool {
    if bytes == 0 || bytes < n || out.len() < bytes {
        return false;
    }
    (0..n).all(|i| at(out, i) == at(expected, i))
        && recursions(Reader { image: out, at: n }, bytes, groups)
}

// Whether the check of an image answers what is expected.
fn agrees(image: &[u8], expected: &[u8], n: usize, groups: usize) -> bool {
    let mut out = [0u8; 65536];
    match check(image, &mut out) {
        Answer::Done { .. } => n == 0 && groups == 0,
        Answer::Errors { bytes, .. } => fields_agree(&out, bytes, expected, n, groups),
        _ => false,
    }
}

// Whether the case on a line agrees.
fn case_agrees(line: &[u8]) -> bool {
    let (image, rest) = cut(line, b' ');
    let (errors, groups) = cut(rest, b' ');
    let mut bytes = [0u8; 4096];
    let len = hex(written(image), &mut bytes, 0);
    let mut expected = [0u8; 4096];
    let n = hex(written(errors), &mut expected, 0);
    bytes
        .get(..len)
        .is_some_and(|image| agrees(image, &expected, n, decimal(groups)))
}

fn main(rt: HostRuntime) -> io::Result<()> {
    let mut text = [0u8; 262144]; // a buffer beside its count, since there is no heap
    let n = read_full(&mut rt.stdin(), &mut text)?;
    let told = try_each(&text[..n], case_agrees);
    println!(rt; "{told} as the Rust answered")
}
