// The entries of a run, each written to a lent buffer as far as it fits and counted whole.
#![tactic(auto, unfolding(rules::specs::Run::entry_field, rules::specs::Answers::flat))]

ghost use Rattle.std.specs.Prelude.{[], ◌∷◌, ◌++◌};
ghost use Rattle.rules.specs.Errors.{bytes4, tagged};
ghost use Rattle.rules.specs.Run.{cx_e, measure_e, barrier_end_e, opaque_e, if_e, if_end_e, bits_bytes, entry_field};
ghost use Rattle.output.specs.Writers.{Writes, Field, Puts};
ghost use Rattle.entries.specs.Kinds.{one_of};

use output::Writer;

// ---- entries of one bit, of two, and of none: CX and MEASURE apart, and the two ends, since each promises its own constructor

#[derive(Clone, Copy)]
pub enum Kind {
    U,
    Reset,
    Barrier,
}

pub fn put_one(w: &mut Writer, kind: Kind, qubit: u64)
    ensures { Puts entry_field w.old (one_of kind qubit ∷ []) w.new }
{
    let tag = match kind {
        Kind::U => 32,
        Kind::Reset => 35,
        Kind::Barrier => 36,
    };
    w.put_head(tag, 4);
    w.put4(qubit);
}

fn put_bits(w: &mut Writer, tag: u8, x: u64, y: u64)
    ensures { Field w.old (tagged tag (bytes4 x ++ bytes4 y)) w.new }
{
    w.put_head(tag, 8);
    w.put4(x);
    w.put4(y);
}

pub fn cx(w: &mut Writer, copy: u64, xor: u64)
    ensures { Puts entry_field w.old (cx_e copy xor ∷ []) w.new }
{
    put_bits(w, 33, copy, xor);
}

pub fn measure(w: &mut Writer, qubit: u64, bit: u64)
    ensures { Puts entry_field w.old (measure_e qubit bit ∷ []) w.new }
{
    put_bits(w, 34, qubit, bit);
}

pub fn barrier_end(w: &mut Writer)
    ensures { Puts entry_field w.old (barrier_end_e ∷ []) w.new }
{
    w.put_head(37, 0);
}

// ---- entries of more: a function for each, since each promises its own constructor

// The numbers of bits in a row.
fn put_row(w: &mut Writer, bits: &[u64])
    ensures { Writes w.old (bits_bytes bits.now) w.new }
{
    for &bit in bits {
        w.put4(bit);
    }
}

// A call of a gate without a body. (The length of a field takes two bytes: more qubits than 16,383, which no call has, do not show in it.)
pub fn opaque_call(w: &mut Writer, name: u64, qubits: &[u64])
    ensures { Puts entry_field w.old (opaque_e name qubits.now ∷ []) w.new }
{
    let few = qubits.len() % 16384;
    w.put_head(38, 2 + 4 * few as u64);
    w.put2(name);
    put_row(w, qubits);
}

pub fn if_begin(w: &mut Writer, bit: u64, width: u64, value: u64)
    ensures { Puts entry_field w.old (if_e bit width value ∷ []) w.new }
{
    w.put_head(39, 16);
    w.put4(bit);
    w.put4(width);
    w.put8(value);
}

pub fn if_end(w: &mut Writer)
    ensures { Puts entry_field w.old (if_end_e ∷ []) w.new }
{
    w.put_head(40, 0);
}
