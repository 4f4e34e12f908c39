// Reads an image: the fields from the front, up to the first fault.
#![tactic(auto)]

ghost use Rattle.std.specs.Prelude.{◌≡◌, false, [], ◌&&◌, ◌+◌, ◌≤◌, ◌<◌, length, get_or, eqb, leb};
ghost use Rattle.rules.specs.Basics.{pick};
ghost use Rattle.rules.specs.Syntax.{cx};
ghost use Rattle.rules.specs.Items.{bind, end, times, count, operand};
ghost use Rattle.rules.specs.Reading.{same_bytes, among, fresh, include_field, reg_field, gate_lists, gate_field, u_field, pair_field, reset_field, barrier_field, call_lists, call_field, if_field, items, payload, is_reg, placed, within, next, load_at, field};
ghost use Rattle.image.specs.Table.{names_of, table, stirred, key_of, key_at, slot_of, Keyed, Marked, Notes};
ghost use Rattle.image.specs.Whole.{closed_of, Reads};

use items::{
    along, angle_end, angles_end, byte_at, count_at, eight, eight_at, flag_at, left, name_at,
    nameds_end, operand_end, operands_end, past, span_at, two_at,
};
use rules::{Counts, Fault};
use views::load;

// The places of the NAME fields that were met. (01 asks for this form, an array beside its count.)
#[derive(Clone, Copy)]
pub struct Names {
    pub at: [usize; 512],
    pub count: usize,
}

// Why an image is refused, and the offset of the field at fault.
#[derive(Clone, Copy, Debug, PartialEq, Eq)]
pub struct Refused {
    pub fault: Fault,
    pub offset: usize,
}

// What is known of an image that is read.
#[derive(Clone, Copy)]
pub struct Image {
    pub names: Names,
    pub counts: Counts,
}

// ---- the payload of each tag: where it ends, read from a place on

pub fn include_end(p: &[u8], at: usize, names: u64) -> Result<usize, Fault>
    ensures { result ≡ end (include_field names p.now at) }
{
    let (_, at) = span_at(p, at)?;
    past(name_at(p, at, names))
}

// QREG and CREG are read alike.
pub fn reg_end(p: &[u8], at: usize, names: u64) -> Result<usize, Fault>
    ensures { result ≡ end (reg_field names false p.now at) }
{
    let (_, at) = span_at(p, at)?; // of the declaration
    operand_end(p, at, names)
}

// The two counts of a gate, then its parameters and its arguments.
pub fn gate_lists_end(p: &[u8], at: usize, names: u64) -> Result<usize, Fault>
    ensures { result ≡ end (gate_lists names p.now at) }
{
    let (params, at) = count_at(p, at)?;
    let (args, at) = count_at(p, at)?;
    let at = nameds_end(p, at, names, params)?;
    nameds_end(p, at, names, args)
}

pub fn gate_end(p: &[u8], at: usize, names: u64) -> Result<usize, Fault>
    ensures { result ≡ end (gate_field names p.now at) }
{
    let (_, at) = span_at(p, at)?;
    let (_, at) = span_at(p, at)?;
    let (_, at) = name_at(p, at, names)?;
    let (_, at) = flag_at(p, at)?;
    gate_lists_end(p, at, names)
}

pub fn u_end(p: &[u8], at: usize, names: u64) -> Result<usize, Fault>
    ensures { result ≡ end (u_field names p.now at) }
{
    let (_, at) = span_at(p, at)?;
    let at = operand_end(p, at, names)?;
    let at = angle_end(p, at, names)?;
    let at = angle_end(p, at, names)?;
    angle_end(p, at, names)
}

// CX and MEASURE are read alike.
pub fn pair_end(p: &[u8], at: usize, names: u64) -> Result<usize, Fault>
    ensures { result ≡ end (pair_field names cx p.now at) }
{
    let (_, at) = span_at(p, at)?;
    let at = operand_end(p, at, names)?; // copy, or from
    operand_end(p, at, names) // xor, or to
}

pub fn reset_end(p: &[u8], at: usize, names: u64) -> Result<usize, Fault>
    ensures { result ≡ end (reset_field names p.now at) }
{
    let (_, at) = span_at(p, at)?;
    operand_end(p, at, names) // what is reset
}

// A count, and as many operands.
pub fn counted_end(p: &[u8], at: usize, names: u64) -> Result<usize, Fault>
    ensures { result ≡ end (bind (count p.now at) (λ k. times k (operand names) p.now)) }
{
    let (operands, at) = count_at(p, at)?;
    operands_end(p, at, names, operands)
}

pub fn barrier_end(p: &[u8], at: usize, names: u64) -> Result<usize, Fault>
    ensures { result ≡ end (barrier_field names p.now at) }
{
    let (_, at) = span_at(p, at)?;
    counted_end(p, at, names)
}

// The two counts of a call, of parameters and of operands; then the operands, and the parameters' expressions.
pub fn call_lists_end(p: &[u8], at: usize, names: u64) -> Result<usize, Fault>
    ensures { result ≡ end (call_lists names p.now at) }
{
    let (params, at) = count_at(p, at)?;
    let (args, at) = count_at(p, at)?;
    let at = operands_end(p, at, names, args)?;
    angles_end(p, at, names, params)
}

pub fn call_end(p: &[u8], at: usize, names: u64) -> Result<usize, Fault>
    ensures { result ≡ end (call_field names p.now at) }
{
    let (_, at) = span_at(p, at)?;
    let (_, at) = span_at(p, at)?;
    let (_, at) = name_at(p, at, names)?;
    call_lists_end(p, at, names)
}

pub fn if_end(p: &[u8], at: usize, names: u64) -> Result<usize, Fault>
    ensures { result ≡ end (if_field names p.now at) }
{
    let (_, at) = span_at(p, at)?;
    let at = operand_end(p, at, names)?;
    let (_, at) = span_at(p, at)?;
    past(eight(p, at))
}

// Where the items of a payload that is no name end.
pub fn items_end(p: &[u8], names: u64, tag: u64) -> Result<usize, Fault>
    ensures { result ≡ end (items names tag p.now 0) }
{
    match tag {
        2 => include_end(p, 0, names),
        3 => reg_end(p, 0, names),
        4 => reg_end(p, 0, names),
        5 => gate_end(p, 0, names),
        6 => Ok(0),
        16 => u_end(p, 0, names),
        17 => pair_end(p, 0, names),
        18 => pair_end(p, 0, names),
        19 => reset_end(p, 0, names),
        20 => barrier_end(p, 0, names),
        21 => call_end(p, 0, names),
        _ => if_end(p, 0, names),
    }
}

// ---- where a tag may stand, and how many there may be

// (Tags are the numbers that 01 calls them by: `views::Field` says why.) May the tag stand here? Declarations are 2 to 5, statements 16 to 22.
#[tactic(auto, unfolding(rules::specs::Reading::placed))]
pub fn placed_tag(c: Counts, t: u64) -> bool
    ensures { result ≡ placed c t }
{
    match t {
        1 => !c.begun,
        2..=5 => !c.body && c.ifs == 0,
        6 => c.body && c.ifs == 0,
        _ => 16 <= t && t <= 22,
    }
}

// Is one more of the tag within its limit?
#[tactic(auto, unfolding(rules::specs::Reading::within))]
pub fn within_tag(c: Counts, t: u64) -> bool
    ensures { result ≡ within c t }
{
    match t {
        1 => c.names < 512,
        3 | 4 => c.regs < 128,
        5 => c.gates < 128,
        22 => c.ifs < 16,
        _ => true,
    }
}

// Is a body open after the field? A gate's body flag is byte 10 of its payload.
fn body_then(c: Counts, tag: u64, p: &[u8]) -> bool
    ensures { result ≡ pick (eqb tag 5) (eqb (get_or p.now 10 0) 1) (pick (eqb tag 6) false c.body) }
{
    match tag {
        5 => byte_at(p, 10) == 1,
        6 => false,
        _ => c.body,
    }
}

// How many IFs in a row end with the field.
fn ifs_then(c: Counts, tag: u64) -> u64
    requires { c.ifs ≤ 16 }
    ensures { result ≡ pick (eqb tag 22) (c.ifs + 1) 0 }
{
    if tag == 22 { c.ifs + 1 } else { 0 }
}

// The counts after a field. Each is within its limit before it, so no sum wraps.
#[tactic(auto, unfolding(rules::specs::Reading::next))]
fn next_counts(c: Counts, tag: u64, p: &[u8]) -> Counts
    requires { (c.names ≤ 512) × (c.gates ≤ 128) × (c.regs ≤ 128) × (c.ifs ≤ 16) }
    ensures { result ≡ next c tag p.now }
{
    Counts {
        names: c.names + u64::from(tag == 1),
        gates: c.gates + u64::from(tag == 5),
        regs: c.regs + u64::from(tag == 3 || tag == 4),
        ifs: ifs_then(c, tag),
        body: body_then(c, tag, p),
        begun: tag != 1,
    }
}

// ---- names

// Are the two the same bytes?
pub fn same(x: &[u8], y: &[u8]) -> bool
    ensures { result ≡ same_bytes x.now y.now }
{
    x == y
}

// One step of a key: a number below 2^32 takes in another.
fn stir(h: u64, w: u64) -> u64
    requires { (h < 4294967296) × (w < 4294967296) }
    ensures { (result ≡ stirred h w) × (result < 4294967296) }
{
    (h * 2654435761 + w) % 4294967296
}

// The key of a name: a number made of all its bytes, eight at a time in two halves, so that names with different keys differ.
fn key(p: &[u8]) -> u64
    ensures { result ≡ key_of p.now }
{
    let mut a: u64 = 0;
    let mut b: u64 = 0;
    let mut at: usize = 0;
    for _ in 0..p.len() / 8 + 1 {
        let w = eight_at(p, at);
        a = stir(a, w % 4294967296);
        b = stir(b, w / 4294967296);
        at = along(p, at, 8);
    }
    a + 4294967296 * b
}

// The slot of a key, one of 8192.
fn slot(k: u64) -> usize
    ensures { (result ≡ slot_of k) × (result < 8192) }
{
    let x = stir(k % 4294967296, k / 4294967296);
    (stir(x, 0) / 524288) as usize
}

// The key of the name that stands at a place, 0 where no NAME does.
fn field_key(img: &[u8], at: usize) -> u64
    ensures { result ≡ key_at img.now at }
{
    if byte_at(img, at) == 1 {
        return key(load(img, at));
    }
    0
}

// The names that were met in an image, each with its key, and a mark in the slot of each key: a name whose slot has no mark is new.
// (A field's bytes and key go as two: of a field that is no NAME the key is 0 and not that of its bytes, so a struct of both would hold for NAMEs alone.
// Keys stand beside the places, since 01 asks for `Names` as it is.)
#[derive(Drop)]
struct Met<'a> {
    img: &'a [u8],
    names: Names,
    keys: [u64; 512],
    marks: [u8; 8192],
    ghost keyed: { Keyed img.now names.at keys names.count },
    ghost marked: { Marked keys marks names.count },
}

impl<'a> Met<'a> {
    fn none(img: &'a [u8]) -> Met<'a>
        ensures { (result.img ≡ img.entry) × (result.names ≡ table []) }
    {
        Met {
            img,
            names: Names {
                at: [0; 512],
                count: 0,
            },
            keys: [0; 512],
            marks: [0; 8192],
        }
    }

    // Is the name with the key k the ith of them? Bytes are compared where the keys are equal.
    fn is_at(&self, i: usize, p: &[u8], k: u64) -> bool
        requires { (i < self.now.names.count) × (k ≡ key_of p.now) }
        ensures { result ≡ same_bytes p.now (load_at self.now.img.now (get_or self.now.names.at i 0)) }
    {
        self.keys[i] == k && same(p, load(self.img, self.names.at[i]))
    }

    // Is it among them?
    fn lists(&self, p: &[u8], k: u64) -> bool
        requires { k ≡ key_of p.now }
        ensures { result ≡ among p.now (names_of self.now.img.now self.now.names) }
    {
        for i in 0..self.names.count {
            if self.is_at(i, p, k) {
                return true;
            }
        }
        false
    }

    // 1 to 64 bytes, unlike any earlier name.
    fn is_fresh(&self, p: &[u8], k: u64) -> bool
        requires { k ≡ key_of p.now }
        ensures { result ≡ fresh (names_of self.now.img.now self.now.names) p.now }
    {
        if p.len() < 1 || 64 < p.len() {
            return false;
        }
        self.marks[slot(k)] == 0 || !self.lists(p, k)
    }

    // One more NAME, at a place.
    fn note(&mut self, at: usize, k: u64)
        requires { k ≡ key_of (load_at self.old.img.now at) }
        ensures same { self.new.img ≡ self.old.img }
        ensures noted { Notes at k self.old.names self.old.keys self.old.marks self.new.names self.new.keys self.new.marks }
    {
        let n = self.names.count;
        if n < 512 {
            self.names.at[n] = at;
            self.keys[n] = k;
            self.marks[slot(k)] = 1;
            self.names.count = n + 1;
        }
    }
}

// ---- a field

// Where the payload ends, judged from its front.
fn payload_end(met: &Met<'_>, p: &[u8], k: u64, names: u64, tag: u64) -> Result<usize, Fault>
    requires { tag ≡ 1 → k ≡ key_of p.now }
    ensures { result ≡ end (payload names (names_of met.now.img.now met.now.names) tag p.now 0) }
{
    if tag != 1 {
        return items_end(p, names, tag);
    }
    if met.is_fresh(p, k) {
        Ok(p.len())
    } else {
        Err(Fault::BadName)
    }
}

// The place after the field at a place: header, tag, payload there, limit, items, nothing left over.
fn field_end(met: &Met<'_>, at: usize, c: Counts, k: u64) -> Result<usize, Fault>
    requires { k ≡ key_at met.now.img.now at }
    ensures { result ≡ end (field c (names_of met.now.img.now met.now.names) met.now.img.now at) }
{
    let img = met.img;
    if left(img, at) < 3 {
        return Err(Fault::Cut);
    }
    let tag = byte_at(img, at);
    if !placed_tag(c, tag) {
        return Err(Fault::BadTag);
    }
    let len = two_at(img, at + 1) as usize;
    if left(img, at + 3) < len {
        return Err(Fault::Cut);
    }
    if !within_tag(c, tag) {
        return Err(Fault::TooMany);
    }
    let p = load(img, at);
    let m = payload_end(met, p, k, c.names, tag)?;
    if m == p.len() {
        Ok(at + 3 + len)
    } else {
        Err(Fault::BadItem)
    }
}

// ---- the whole image

// The end of the image, at which no body and no IF may be open.
fn closed(c: Counts, names: Names, at: usize) -> Result<Image, Refused>
    ensures { result ≡ closed_of c names at }
{
    if c.body || 0 < c.ifs {
        return Err(Refused {
            fault: Fault::Cut,
            offset: at,
        });
    }
    Ok(Image { names, counts: c })
}

// Reads an image of any bytes.
pub fn read_image(img: &[u8]) -> Result<Image, Refused>
    ensures { Reads img.now result }
{
    if 65536 < img.len() {
        return Err(Refused {
            fault: Fault::TooLong,
            offset: 0,
        });
    }
    let mut c = Counts {
        names: 0,
        gates: 0,
        regs: 0,
        ifs: 0,
        body: false,
        begun: false,
    };
    let mut met = Met::none(img);
    let mut at = 0;
    // where the next field stands is known only when this one is read
    while at < img.len() {
        let k = field_key(img, at);
        let next = match field_end(&met, at, c, k) {
            Ok(next) => next,
            Err(fault) => return Err(Refused { fault, offset: at }),
        };
        let tag = byte_at(img, at);
        c = next_counts(c, tag, load(img, at));
        if tag == 1 {
            met.note(at, k);
        }
        at = next;
    }
    closed(c, met.names, at)
}
