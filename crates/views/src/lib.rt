// What stands at a place of an image that was read, read again: total functions, a byte past the end counting as 0.
#![tactic(auto)]

ghost use Rattle.std.specs.Prelude.{ℕ, List, ◌≡◌, ◌+◌, ◌-◌, ◌<◌, ◌≤◌, true, false, length, get_or, take, drop, eqb};
ghost use Rattle.std.specs.Iterator.{at_most, YieldsFirst};
ghost use Rattle.rules.specs.Checking.{size_of};
ghost use Rattle.rules.specs.Reading.{load_at};
ghost use Rattle.views.specs.View.{name_in, operand_in, named_in, row_in, params_in, args_in, next_in};
ghost use Rattle.views.specs.Steps.{then};
ghost use Rattle.views.specs.Fields.{Gives};
ghost use Rattle.views.specs.Rows.{Ends, operand_ends, named_ends};
ghost use Rattle.views.specs.Items.{names_left};

use items::{along, byte_at, eight_at, four_at, get2, get4, get8, left, two_at};
use rules::{Named, Operand};
use std::marker::PhantomData;

// A name by its number.
pub fn name(s: &[u8], at: usize) -> u64
    ensures { (result ≡ name_in s.now at) × (result < 512) }
{
    two_at(s, at) % 512
}

pub fn is_one(s: &[u8], at: usize) -> bool
    ensures { result ≡ eqb (get_or s.now at 0) 1 }
{
    byte_at(s, at) == 1
}

// One that is whole is read without a test for each byte, since a check is measured by it (README, "Run against the Rust, and speed").
pub fn operand(s: &[u8], at: usize) -> Operand
    ensures { result ≡ operand_in s.now at }
{
    if 15 <= left(s, at) {
        return Operand {
            span: get4(s, at),
            name: get2(s, at + 4) % 512,
            indexed: is_one(s, at + 6),
            index: get8(s, at + 7),
        };
    }
    Operand {
        span: four_at(s, at),
        name: name(s, along(s, at, 4)),
        indexed: is_one(s, along(s, at, 6)),
        index: eight_at(s, along(s, at, 7)),
    }
}

// The size that an operand declares of a register: its index, and 1 where there is none.
pub fn size_of(o: Operand) -> u64
    ensures { result ≡ size_of o }
{
    if o.indexed { o.index } else { 1 }
}

// The place after the field at a place, or the end of the image.
pub fn next(img: &[u8], at: usize) -> usize
    ensures { result ≡ next_in img.now at }
{
    let rest = left(img, at);
    if rest < 3 {
        return img.len();
    }
    let len = two_at(img, at + 1) as usize;
    if rest - 3 < len {
        img.len()
    } else {
        at + 3 + len
    }
}

// The payload of the field at a place, as far as there is one.
pub fn load<'a>(img: &'a [u8], at: usize) -> &'a [u8]
    ensures { result.now ≡ load_at img.now at }
{
    &img[along(img, at, 3)..next(img, at)]
}

// ---- fields, one after the other

// Is a body open after a field?
#[tactic(auto, unfolding(crate::specs::Steps::then))]
pub fn then_inside(inside: bool, tag: u64, p: &[u8]) -> bool
    ensures { result ≡ then inside tag p.now }
{
    if inside {
        tag != 6
    } else {
        tag == 5 && is_one(p, 10)
    }
}

// A field of an image: its tag, its payload, where it stands, and whether a body is open there. (The tag stays the number that 01 calls it by, in ranges
// too: any byte may stand there, and what the definitions say they say of any number.)
#[derive(Clone, Copy)]
pub struct Field<'a> {
    pub tag: u64,
    pub payload: &'a [u8],
    pub place: usize,
    pub inside: bool,
}

// The fields of an image from a place on.
#[derive(Clone, Copy)]
pub struct Fields<'a> {
    pub img: &'a [u8],
    pub at: usize,
    pub inside: bool,
}

impl<'a> Fields<'a> {
    // All the fields of an image.
    pub fn of(img: &'a [u8]) -> Fields<'a>
        ensures { result ≡ record { img = img.entry; at = 0; inside = false } }
    {
        Fields {
            img,
            at: 0,
            inside: false,
        }
    }

    // Those behind the field at a place, in its body.
    pub fn body(img: &'a [u8], place: usize) -> Fields<'a>
        ensures { result ≡ record { img = img.entry; at = next_in img.now place; inside = true } }
    {
        Fields {
            img,
            at: next(img, place),
            inside: true,
        }
    }
}

impl<'a> Iterator for Fields<'a> {
    type Item = Field<'a>;

    ghost next_gives = { Gives };

    ghost remaining = { λ s. at_most (length s.img.now - s.at) };

    fn next(&mut self) -> Option<Field<'a>> {
        let img = self.img;
        let place = self.at;
        if img.len() <= place {
            return None;
        }
        let f = Field {
            tag: byte_at(img, place),
            payload: load(img, place),
            place,
            inside: self.inside,
        };
        self.at = next(img, place);
        self.inside = then_inside(f.inside, f.tag, f.payload);
        Some(f)
    }
}

// ---- items in a row

// An item of a row: so many bytes, and what they say. Past the end all places read the same, so that a row may stop there.
pub trait Item: Copy {
    const WIDTH: usize;

    ghost WIDTH: { ℕ };

    ghost reads: { List ℕ → ℕ → Self };

    ghost ends: { Ends reads };

    fn read(s: &[u8], at: usize) -> Self
        ensures { result ≡ reads s.now at };

    // The k items from a place on.
    final fn row<'a>(bytes: &'a [u8], at: usize, k: u64) -> Row<'a, Self>
        ensures { (result.bytes ≡ bytes.entry) × (result.at ≡ at) × (result.left ≡ k) }
    {
        Row {
            bytes,
            at,
            left: k,
            item: PhantomData,
        }
    }
}

impl Item for Operand {
    const WIDTH: usize = 15;

    ghost WIDTH = { 15 };

    ghost reads = { operand_in };

    ghost ends = { operand_ends };

    fn read(s: &[u8], at: usize) -> Operand {
        operand(s, at)
    }
}

impl Item for Named {
    const WIDTH: usize = 6;

    ghost WIDTH = { 6 };

    ghost reads = { named_in };

    ghost ends = { named_ends };

    fn read(s: &[u8], at: usize) -> Named {
        Named {
            span: four_at(s, at),
            name: name(s, along(s, at, 4)),
        }
    }
}

// Items that stand one after the other.
#[derive(Clone, Copy)]
pub struct Row<'a, T> {
    pub bytes: &'a [u8],
    pub at: usize,
    pub left: u64,
    item: PhantomData<T>,
}

pub type Operands<'a> = Row<'a, Operand>;

pub type Nameds<'a> = Row<'a, Named>;

impl<'a> Row<'a, Named> {
    // The parameters of the gate whose header is p.
    pub fn params(p: &'a [u8]) -> Row<'a, Named>
        ensures row { names_left result ≡ params_in p.now }
        ensures count { result.left ≡ length (params_in p.now) }
        ensures near { (result.at ≤ 2000) × (result.left ≤ 255) }
    {
        Named::row(p, 13, byte_at(p, 11))
    }

    // Its arguments, which stand behind them.
    pub fn args(p: &'a [u8]) -> Row<'a, Named>
        ensures row { names_left result ≡ args_in p.now }
        ensures count { result.left ≡ length (args_in p.now) }
        ensures near { (result.at ≤ 2000) × (result.left ≤ 255) }
    {
        Named::row(p, 13 + 6 * byte_at(p, 11) as usize, byte_at(p, 12))
    }
}

impl<'a, T: Item> Iterator for Row<'a, T> {
    type Item = T;

    ghost next_gives = { YieldsFirst (λ s. row_in T.reads T.WIDTH s.left s.bytes.now s.at) };

    ghost remaining = { λ s. at_most s.left };

    fn next(&mut self) -> Option<T> {
        if self.left == 0 {
            return None;
        }
        let item = T::read(self.bytes, self.at);
        self.at = along(self.bytes, self.at, T::WIDTH);
        self.left -= 1;
        Some(item)
    }
}
