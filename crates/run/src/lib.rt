// The run of a program that check finds no errors in, written as entries.
#![tactic(auto)]

ghost use Rattle.std.specs.Prelude.{◌≡◌, List, [], ◌∷◌, ◌++◌, map, true, false, ℕ, ◌<◌, length, get_or, take};
ghost use Rattle.rules.specs.Grouping.{stmt, decls};
ghost use Rattle.rules.specs.Checking.{quantum};
ghost use Rattle.rules.specs.Run.{Entry, entry_field, barrier_end_e, tops};
ghost use Rattle.views.specs.View.{operand_in, row_in, call_in, rest};
ghost use Rattle.output.specs.Writers.{Puts};
ghost use Rattle.asserts.specs.Sizes.{asked};
ghost use Rattle.tables.specs.Tables.{gate_in};
ghost use Rattle.counts.specs.Sums.{size_in};
ghost use Rattle.run.specs.Lines.{start_in, lane_of, lanes_in, two_of, one_turns, two_turns, barrier_row, called, walked, line, top_lines, plain_line, full, spread_in, names, gate_runs, runs, top_runs, Does};

use counts::{common_of, common_row, size_in, word_of};
use entries::{Kind, barrier_end, cx, if_begin, if_end, measure, opaque_call, put_one};
use items::{byte_at, eight_at};
use output::Writer;
use rules::Operand;
use tables::{find_gate, word};
use typing::is_stmt;
use views::{Fields, Item, Nameds, is_one, load, name, operand};

// ---- bits

// The bits that an operand names: the first, and how many.
#[derive(Clone, Copy)]
struct Wires {
    start: u64,
    size: u64,
}

impl Wires {
    // The bit in turn j: where there is but one, it repeats. A sum stops at the largest number.
    fn lane(self, j: u64) -> u64
        ensures { result ≡ lane_of self.start self.size j }
    {
        self.start
            .saturating_add(if self.size == 1 { 0 } else { j })
    }
}

// An entry of two bits: a measurement or a CX. (The flag says of the operands too which are classical, as `two_turns` has it.)
fn put_two(w: &mut Writer, measures: bool, x: u64, y: u64)
    ensures { Puts entry_field w.old (two_of measures x y ∷ []) w.new }
{
    if measures {
        measure(w, x, y);
    } else {
        cx(w, x, y);
    }
}

// ---- statements

// What names stand for: the sizes of registers and the first bits of names by tables, and over those the arguments of a gate's header, whose bits are
// qs. At the top level there is no header, in a body there are no tables.
#[derive(Clone, Copy)]
struct Frame<'a> {
    regs: &'a [u64],
    bits: &'a [u64],
    head: &'a [u8],
    qs: &'a [u64],
}

impl<'a> Frame<'a> {
    // The bit of a name: that of the latest argument with the name, or the table's. A header is gone through for each name, so that a call needs no
    // table of its own.
    fn bit(self, x: u64) -> u64
        ensures { result ≡ get_or (names self.entry) x 0 }
    {
        let mut bit = word_of(self.bits, x);
        for (i, arg) in Nameds::args(self.head).enumerate() {
            if arg.name == x {
                bit = word(self.qs, i);
            }
        }
        bit
    }

    // The first bit that an operand names.
    #[tactic(auto, unfolding(crate::specs::Lines::start_in))]
    fn start(self, o: Operand) -> u64
        ensures { result ≡ start_in (names self.entry) o }
    {
        let first = self.bit(o.name);
        first.saturating_add(if o.indexed { o.index } else { 0 })
    }

    fn wires(self, o: Operand, classical: bool) -> Wires
        ensures { (result.start ≡ start_in (names self.entry) o) × (result.size ≡ size_in self.entry.regs.now (asked classical o)) }
    {
        Wires {
            start: self.start(o),
            size: size_in(self.regs, o, classical),
        }
    }

    // An entry for each qubit of an operand.
    fn one(self, w: &mut Writer, kind: Kind, o: Operand)
        ensures { Puts entry_field w.old (one_turns kind (start_in (names self.entry) o) (size_in self.entry.regs.now (quantum o))) w.new }
    {
        let q = self.wires(o, false);
        for j in 0..q.size {
            put_one(w, kind, q.lane(j));
        }
    }

    // An entry for each pair of bits. (A flag, not a closure: it says besides that the second operand is classical.)
    fn two(self, w: &mut Writer, measures: bool, p: &[u8])
        ensures { Puts entry_field w.old (two_turns measures (start_in (names self.entry) (operand_in p.now 4)) (size_in self.entry.regs.now (quantum (operand_in p.now 4))) (start_in (names self.entry) (operand_in p.now 19)) (size_in self.entry.regs.now (asked measures (operand_in p.now 19)))) w.new }
    {
        let x = self.wires(operand(p, 4), false);
        let y = self.wires(operand(p, 19), measures);
        for j in 0..common_of(x.size, y.size) {
            put_two(w, measures, x.lane(j), y.lane(j));
        }
    }

    fn barrier(self, w: &mut Writer, p: &[u8])
        ensures { Puts entry_field w.old (barrier_row self.entry.regs.now (names self.entry) (map quantum (row_in operand_in 15 (get_or p.now 4 0) p.now 5)) ++ (barrier_end_e ∷ [])) w.new }
    {
        for o in Operand::row(p, 5, byte_at(p, 4)) {
            self.one(w, Kind::Barrier, o);
        }
        barrier_end(w);
    }

    // Any statement but a call and an IF, by its tag, a number as 01 has it (`views::Field`); for another field nothing.
    #[tactic(auto, unfolding(crate::specs::Lines::plain_line))]
    fn plain(self, w: &mut Writer, tag: u64, p: &[u8])
        ensures { Puts entry_field w.old (plain_line self.entry.regs.now (names self.entry) tag p.now) w.new }
    {
        match tag {
            16 => self.one(w, Kind::U, operand(p, 4)),
            17 => self.two(w, false, p),
            18 => self.two(w, true, p),
            19 => self.one(w, Kind::Reset, operand(p, 4)),
            20 => self.barrier(w, p),
            _ => {}
        }
    }

    // The bits of a call's k operands in turn j, to the front of a row. The row has room for any: no heap, and a count is one byte. It is lent, since a row
    // handed back would be copied, and stand twice on the stack of each call.
    fn lanes(self, row: &mut [u64; 256], p: &[u8], k: u64, j: u64)
        requires { k < 256 }
        ensures { take k row.new ≡ lanes_in self.entry.regs.now (names self.entry) j (map quantum (row_in operand_in 15 k p.now 12)) }
    {
        for (i, o) in Operand::row(p, 12, k).enumerate() {
            row[i] = self.wires(o, false).lane(j);
        }
    }
}

// ---- gates

// What is run: an image, its gates by their names, and by their numbers how many entries each has and where it stands.
#[derive(Clone, Copy)]
pub struct Program<'a> {
    pub img: &'a [u8],
    pub gates: &'a [u64],
    pub counts: &'a [u64],
    pub places: &'a [u64],
}

impl<'a> Program<'a> {
    // The gate that a call walks, if there is anything to walk.
    fn callee(self, x: u64) -> Option<u64>
        ensures { (f : ℕ → List Entry) → called (gate_in self.entry.gates.now x) self.entry.counts.now f ≡ walked result f }
    {
        match find_gate(self.gates, x) {
            Some(h) if word_of(self.counts, h.number) != 0 => Some(h.number),
            _ => None,
        }
    }

    // One run of a gate on the qubits of its arguments: the statements of its body, each once, or its one entry. The depth falls with each call.
    fn gate(self, w: &mut Writer, depth: usize, g: u64, qs: &[u64])
        ensures { Puts entry_field w.old (gate_runs self.entry depth g qs.now) w.new }
    {
        if depth == 0 {
            return;
        }
        let place = word_of(self.places, g) as usize;
        let head = load(self.img, place);
        if !is_one(head, 10) {
            opaque_call(w, name(head, 8), qs);
            return;
        }
        let frame = Frame {
            regs: &[],
            bits: &[],
            head,
            qs,
        };
        for f in Fields::body(self.img, place) {
            if f.tag == 6 {
                return;
            }
            if f.tag != 21 {
                frame.plain(w, f.tag, f.payload);
                continue;
            }
            if let Some(h) = self.callee(name(f.payload, 8)) {
                let k = byte_at(f.payload, 11);
                let mut row = [0; 256];
                frame.lanes(&mut row, f.payload, k, 0);
                self.gate(w, depth - 1, h, &row[..k as usize]);
            }
        }
    }
}

// ---- the top level

// A program, what names stand for at its top level, and how deep calls may go.
#[derive(Clone, Copy)]
struct Top<'a> {
    program: Program<'a>,
    frame: Frame<'a>,
    depth: usize,
}

impl<'a> Top<'a> {
    // A call of a gate, once for each turn.
    fn each_call(self, w: &mut Writer, p: &[u8], g: u64)
        ensures { Puts entry_field w.old (spread_in self.entry.frame.regs.now (names self.entry.frame) (map quantum (row_in operand_in 15 (get_or p.now 11 0) p.now 12)) (gate_runs self.entry.program self.entry.depth g)) w.new }
    {
        let k = byte_at(p, 11);
        for j in 0..common_row(p, 12, k, self.frame.regs) {
            let mut row = [0; 256];
            self.frame.lanes(&mut row, p, k, j);
            self.program.gate(w, self.depth, g, &row[..k as usize]);
        }
    }

    fn call(self, w: &mut Writer, p: &[u8])
        ensures { Puts entry_field w.old (runs self.entry (call_in p.now)) w.new }
    {
        if let Some(g) = self.program.callee(name(p, 8)) {
            self.each_call(w, p, g);
        }
    }

    // The statement that stands at a place, and the place after it. An IF's beginning, the statement right after it, and the IF's end.
    fn stmt(self, w: &mut Writer, at: usize) -> usize
        ensures { Does (top_runs self.entry (stmt (rest self.entry.program.img.now at))) self.entry.program.img.now at w.old w.new result }
    {
        let img = self.program.img;
        let mut fields = Fields {
            img,
            at,
            inside: false,
        };
        let Some(f) = fields.next() else {
            return img.len();
        };
        if f.tag == 22 {
            let o = operand(f.payload, 4);
            let bits = self.frame.wires(o, true);
            if_begin(w, bits.start, bits.size, eight_at(f.payload, 23));
            let after = self.stmt(w, fields.at);
            if_end(w);
            return after;
        }
        if f.tag == 21 {
            self.call(w, f.payload);
            return fields.at;
        }
        if is_stmt(f.tag) {
            self.frame.plain(w, f.tag, f.payload);
            return fields.at;
        }
        at
    }
}

// The run: the statements of the top level, in their order.
pub fn run_top(w: &mut Writer, program: Program, regs: &[u64], bits: &[u64], depth: usize)
    ensures { Puts entry_field w.old (top_lines (gate_runs program.entry depth) program.entry.gates.now program.entry.counts.now regs.now (full bits.now) (tops (decls false false (rest program.entry.img.now 0)))) w.new }
{
    let top = Top {
        program,
        frame: Frame {
            regs,
            bits,
            head: &[],
            qs: &[],
        },
        depth,
    };
    let mut fields = Fields::of(program.img);
    // an IF takes the statement behind it, so the place is set in the loop
    while let Some(f) = fields.next() {
        if !f.inside && is_stmt(f.tag) {
            fields.at = top.stmt(w, f.place);
        }
    }
}
