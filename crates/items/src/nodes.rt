// A node of an expression, by value. Its operands follow it in prefix order. (An opcode stays the number that 01 calls it by: any byte may stand there,
// and what the definitions say they say of any number.)
ghost use Rattle.std.specs.Prelude.{◌≡◌, ◌<◌};
ghost use Rattle.std.specs.Float.Ieee.{of_bits};
ghost use Rattle.std.specs.Float.{binary32};
ghost use Rattle.items.specs.Node.{operator, node_of, node_at, node_length, node_operands};

use crate::{along, byte_at, eight_at, four_at, two_at};

#[derive(Clone, Copy)]
pub enum Node {
    Pi,
    Real(f32),
    Int(u64),
    Var(u16),
    Add,
    Sub,
    Mul,
    Div,
    Pow,
    Neg,
    Sin,
    Cos,
    Tan,
    Exp,
    Ln,
    Sqrt,
}

// The float of a pattern. Every NaN's pattern gives the one NaN; `from_bits` takes none.
pub fn real_of(bits: u32) -> f32
    ensures { result ≡ of_bits binary32 bits }
{
    if bits % 0x8000_0000 > 0x7f80_0000 {
        return 0.0f32 / 0.0f32;
    }
    f32::from_bits(bits)
}

// The operator of an opcode from 4 on; an opcode over 15, which no expression that is read has, counts as Sqrt.
#[tactic(auto, unfolding(crate::specs::Node::operator))]
pub fn operator_of(o: u64) -> Node
    ensures { result ≡ operator o }
{
    match o {
        4 => Node::Add,
        5 => Node::Sub,
        6 => Node::Mul,
        7 => Node::Div,
        8 => Node::Pow,
        9 => Node::Neg,
        10 => Node::Sin,
        11 => Node::Cos,
        12 => Node::Tan,
        13 => Node::Exp,
        14 => Node::Ln,
        _ => Node::Sqrt,
    }
}

// The node with the opcode o whose data stands at a place.
#[tactic(auto, unfolding(crate::specs::Node::node_of))]
pub fn node_of(o: u64, s: &[u8], start: usize) -> Node
    ensures { result ≡ node_of o s.now start }
{
    match o {
        0 => Node::Pi,
        1 => Node::Real(real_of(four_at(s, start) as u32)),
        2 => Node::Int(eight_at(s, start)),
        3 => Node::Var(two_at(s, start) as u16),
        _ => operator_of(o),
    }
}

// The node at a place of any bytes; those past the end count as 0.
pub fn node_at(s: &[u8], at: usize) -> Node
    ensures { result ≡ node_at s.now at }
{
    let start = along(s, at, 5);
    node_of(byte_at(s, at), s, start)
}

// How many bytes a node with the opcode o takes: its first operand, if it has one, begins so far on.
#[tactic(auto, unfolding(crate::specs::Node::node_length))]
pub fn node_length(o: u64) -> usize
    ensures { result ≡ node_length o }
{
    match o {
        1 => 9,
        2 => 13,
        3 => 7,
        _ => 5,
    }
}

// How many operands a node with the opcode o has.
#[tactic(auto, unfolding(crate::specs::Node::node_operands))]
pub fn node_operands(o: u64) -> u64
    ensures { result ≡ node_operands o }
{
    match o {
        0..=3 => 0,
        4..=8 => 2,
        _ => 1,
    }
}
