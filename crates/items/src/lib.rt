// The items of an image: what stands at a place of a list of bytes, and the place after it, or why the image is refused. (Bytes, place and the count of names
// go as three, as in the definitions: what a reading promises is a `Read`, with the place after it.)
#![tactic(auto)]

ghost use Rattle.std.specs.Prelude.{◌≡◌, ℕ, ◌+◌, ◌-◌, ◌≤◌, ◌<◌, ◌^◌, min, length, get_or, eqb, leb, ltb, Result};
ghost use Rattle.rules.specs.declared.Fault.{Fault};
ghost use Rattle.rules.specs.declared.Fault.TheVariants.{BadItem};
ghost use Rattle.rules.specs.Basics.{pick};
ghost use Rattle.rules.specs.Items.{end, le2, le4, le8, byte, word2, word4, word8, span, name, flag, count, indexed, operand, named, opcode, leaf, expr, times};
ghost use Rattle.items.specs.Ends.{tested, rounds};

pub mod nodes; // nodes.rt: a node of an expression, by value

use rules::{Fault, Operand, Read};

// ---- numbers, little-endian: a function for each size, since each promises its own definition

pub fn get2(s: &[u8], at: usize) -> u64
    requires { at + 2 ≤ length s.now }
    ensures { (result ≡ le2 s.now at) × (result < 65536) }
{
    u64::from(u16::from_le_bytes([s[at], s[at + 1]]))
}

pub fn get4(s: &[u8], at: usize) -> u64
    requires { at + 4 ≤ length s.now }
    ensures { (result ≡ le4 s.now at) × (result < 4294967296) }
{
    u64::from(u32::from_le_bytes([s[at], s[at + 1], s[at + 2], s[at + 3]]))
}

pub fn get8(s: &[u8], at: usize) -> u64
    requires { at + 8 ≤ length s.now }
    ensures { result ≡ le8 s.now at }
{
    u64::from_le_bytes([
        s[at],
        s[at + 1],
        s[at + 2],
        s[at + 3],
        s[at + 4],
        s[at + 5],
        s[at + 6],
        s[at + 7],
    ])
}

// How many bytes there are from a place on.
pub fn left(s: &[u8], at: usize) -> usize
    ensures { result ≡ length s.now - at }
{
    s.len().saturating_sub(at)
}

// The place k bytes on, or the end where there are fewer.
pub fn along(s: &[u8], at: usize, k: usize) -> usize
    ensures { result ≡ min (at + k) (length s.now) }
{
    at.saturating_add(k).min(s.len())
}

// The byte at a place. Here and in the next three, bytes past the end count as 0.
pub fn byte_at(s: &[u8], at: usize) -> u64
    ensures { (result ≡ get_or s.now at 0) × (result < 256) }
{
    s.get(at).copied().map_or(0, u64::from)
}

// The number of two bytes at a place.
pub fn two_at(s: &[u8], at: usize) -> u64
    ensures { (result ≡ le2 s.now at) × (result < 65536) }
{
    if left(s, at) < 2 {
        return byte_at(s, at);
    }
    get2(s, at)
}

pub fn four_at(s: &[u8], at: usize) -> u64
    ensures { (result ≡ le4 s.now at) × (result < 4294967296) }
{
    let here = left(s, at);
    if 4 <= here {
        return get4(s, at);
    }
    if here < 3 {
        return two_at(s, at);
    }
    two_at(s, at) + 65536 * two_at(s, at + 2)
}

pub fn eight_at(s: &[u8], at: usize) -> u64
    ensures { result ≡ le8 s.now at }
{
    let here = left(s, at);
    if 8 <= here {
        return get8(s, at);
    }
    if here < 5 {
        return four_at(s, at);
    }
    four_at(s, at) + 4294967296 * four_at(s, at + 4)
}

// Where n bytes from a place on end, if there are as many.
fn fit(s: &[u8], at: usize, n: usize) -> Result<usize, Fault>
    ensures { result ≡ pick (leb n (length s.now - at)) (Ok (at + n)) (Err BadItem) }
{
    if left(s, at) < n {
        return Err(Fault::BadItem);
    }
    Ok(at + n)
}

// A number as an item: one byte, and no item where it doesn't fit. (A function for each size, since each promises its own definition.)
pub fn one(s: &[u8], at: usize) -> Read<u64>
    ensures { result ≡ byte s.now at }
{
    let next = fit(s, at, 1)?;
    Ok((byte_at(s, at), next))
}

pub fn two(s: &[u8], at: usize) -> Read<u64>
    ensures { result ≡ word2 s.now at }
{
    let next = fit(s, at, 2)?;
    Ok((two_at(s, at), next))
}

pub fn four(s: &[u8], at: usize) -> Read<u64>
    ensures { result ≡ word4 s.now at }
{
    let next = fit(s, at, 4)?;
    Ok((four_at(s, at), next))
}

pub fn eight(s: &[u8], at: usize) -> Read<u64>
    ensures { result ≡ word8 s.now at }
{
    let next = fit(s, at, 8)?;
    Ok((eight_at(s, at), next))
}

// ---- items that are judged

// What was read, if the number is below the limit.
fn below(read: (u64, usize), limit: u64, fault: Fault) -> Read<u64>
    ensures { result ≡ tested (ltb read.0 limit) fault read }
{
    if read.0 < limit { Ok(read) } else { Err(fault) }
}

pub fn span_at(s: &[u8], at: usize) -> Read<u64>
    ensures { result ≡ span s.now at }
{
    four(s, at)
}

// A name: a number below the count of names.
pub fn name_at(s: &[u8], at: usize, names: u64) -> Read<u64>
    ensures { result ≡ name names s.now at }
{
    below(two(s, at)?, names, Fault::BadName)
}

pub fn flag_at(s: &[u8], at: usize) -> Read<u64>
    ensures { result ≡ flag s.now at }
{
    below(one(s, at)?, 2, Fault::BadItem)
}

// A count byte: 32 at most.
pub fn count_at(s: &[u8], at: usize) -> Read<u64>
    ensures { result ≡ count s.now at }
{
    below(one(s, at)?, 33, Fault::TooMany)
}

pub fn opcode_at(s: &[u8], at: usize) -> Read<u64>
    ensures { result ≡ opcode s.now at }
{
    below(one(s, at)?, 16, Fault::BadItem)
}

// Flag 0 needs index 0.
fn allows(flag: u64, index: u64) -> bool
    ensures { result ≡ indexed flag index }
{
    flag != 0 || index == 0
}

// Span, name, flag, index.
pub fn operand_at(s: &[u8], at: usize, names: u64) -> Read<Operand>
    ensures { result ≡ operand names s.now at }
{
    let (span, at) = span_at(s, at)?;
    let (name, at) = name_at(s, at, names)?;
    let (flag, at) = flag_at(s, at)?;
    let (index, at) = eight(s, at)?;
    if !allows(flag, index) {
        return Err(Fault::BadItem);
    }
    let o = Operand {
        span,
        name,
        indexed: flag == 1,
        index,
    };
    Ok((o, at))
}

// ---- where items end

pub fn past<T: Copy>(read: Read<T>) -> Result<usize, Fault>
    ensures { result ≡ end read }
{
    Ok(read?.1)
}

// The data of a leaf with the opcode o.
pub fn leaf_end(s: &[u8], at: usize, names: u64, o: u64) -> Result<usize, Fault>
    ensures { result ≡ end (leaf names o s.now at) }
{
    match o {
        0 => Ok(at),
        1 => past(four(s, at)),
        2 => past(eight(s, at)),
        _ => past(name_at(s, at, names)),
    }
}

// An expression at most depth deep: one call for each operand. The depth is judged right after the opcode.
pub fn expr_end(s: &[u8], at: usize, names: u64, depth: usize) -> Result<usize, Fault>
    ensures { result ≡ end (expr names depth s.now at) }
{
    let (o, at) = opcode_at(s, at)?;
    if depth == 0 {
        return Err(Fault::TooMany);
    }
    let (_, at) = span_at(s, at)?;
    if o < 4 {
        return leaf_end(s, at, names, o);
    }
    let at = expr_end(s, at, names, depth - 1)?;
    if o < 9 {
        return expr_end(s, at, names, depth - 1);
    }
    Ok(at)
}

// A parameter or an argument of a gate.
pub fn named_end(s: &[u8], at: usize, names: u64) -> Result<usize, Fault>
    ensures { result ≡ end (named names s.now at) }
{
    let (_, at) = span_at(s, at)?;
    past(name_at(s, at, names))
}

pub fn operand_end(s: &[u8], at: usize, names: u64) -> Result<usize, Fault>
    ensures { result ≡ end (operand names s.now at) }
{
    past(operand_at(s, at, names))
}

// An expression of a field.
pub fn angle_end(s: &[u8], at: usize, names: u64) -> Result<usize, Fault>
    ensures { result ≡ end (expr names 64 s.now at) }
{
    expr_end(s, at, names, 64)
}

// ---- many of one kind

// So many items, each read where the one before it ended.
fn many<F: Fn(usize) -> Result<usize, Fault>>(
    at: usize,
    count: u64,
    item: F,
) -> Result<usize, Fault>
    requires { F.IsAlwaysCallable item }
    ensures { (e : ℕ → Result ℕ Fault) → ((m : ℕ) (r : Result ℕ Fault) → m < 2 ^ 64 → F.post item m r → r ≡ e m) → result ≡ rounds count e at }
{
    let mut here = at;
    for _ in 0..count {
        here = item(here)?;
    }
    Ok(here)
}

pub fn nameds_end(s: &[u8], at: usize, names: u64, count: u64) -> Result<usize, Fault>
    ensures { result ≡ end (times count (named names) s.now at) }
{
    many(at, count, |at| named_end(s, at, names))
}

pub fn operands_end(s: &[u8], at: usize, names: u64, count: u64) -> Result<usize, Fault>
    ensures { result ≡ end (times count (operand names) s.now at) }
{
    many(at, count, |at| operand_end(s, at, names))
}

pub fn angles_end(s: &[u8], at: usize, names: u64, count: u64) -> Result<usize, Fault>
    ensures { result ≡ end (times count (expr names 64) s.now at) }
{
    many(at, count, |at| angle_end(s, at, names))
}
