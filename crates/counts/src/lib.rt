// How many bits a program declares and where they begin, where its gates stand, and how many entries its run has: worked out without running it.
#![tactic(auto)]

ghost use Rattle.std.specs.Prelude.{◌≡◌, [], ◌∷◌, map, true, false, ◌+◌, ◌*◌, ◌<◌, ◌≤◌, min, get_or, set, eqb};
ghost use Rattle.rules.specs.Basics.{pick};
ghost use Rattle.rules.specs.Grouping.{stmts, decls};
ghost use Rattle.rules.specs.Checking.{quantum, registers, register};
ghost use Rattle.rules.specs.Run.{common, bits_of, tops};
ghost use Rattle.theorems.specs.Count.{sum, call_count, at};
ghost use Rattle.views.specs.View.{operand_in, row_in, barrier_in, call_in, stmt_in, next_in, rest};
ghost use Rattle.tables.specs.Tables.{gate_in};
ghost use Rattle.asserts.specs.Sizes.{asked};
ghost use Rattle.counts.specs.Sums.{size_in, sizes_in, stmt_sum, stmts_sum, field_sum, gate_sum, sum_fill};
ghost use Rattle.counts.specs.Starts.{reg_here, rows_of, start_fill, Enters};
ghost use Rattle.counts.specs.Places.{gate_list, Placed};

use asserts::size_of;
use items::byte_at;
use rules::{Operand, Reg};
use tables::{find_gate, store, word};
use typing::is_stmt;
use views::{Field, Fields, Item, is_one, load, name, operand, size_of as declared_size};

// ---- numbers no further than to 4,097, one more than any limit of a run

pub fn capped(a: u64, b: u64) -> u64
    ensures { result ≡ min 4097 (a + b) }
{
    a.saturating_add(b).min(4097)
}

fn capped_times(a: u64, b: u64) -> u64
    ensures { result ≡ min 4097 (a * b) }
{
    a.saturating_mul(b).min(4097)
}

// The word at a place of a table, 0 where there is none.
pub fn word_of(t: &[u64], i: u64) -> u64
    ensures { result ≡ get_or t.now i 0 }
{
    word(t, i as usize)
}

// ---- sizes

pub fn size_in(regs: &[u64], o: Operand, classical: bool) -> u64
    ensures { result ≡ size_in regs.now (asked classical o) }
{
    size_of(regs, o, classical).unwrap_or(1)
}

// The common size goes on with the next one as long as it is 1.
pub fn common_of(c: u64, n: u64) -> u64
    ensures { result ≡ pick (eqb c 1) n c }
{
    if c == 1 { n } else { c }
}

// The common size of k operands in a row, all quantum.
pub fn common_row(p: &[u8], from: usize, k: u64, regs: &[u64]) -> u64
    ensures { result ≡ common (sizes_in regs.now (map quantum (row_in operand_in 15 k p.now from))) }
{
    let mut c = 1;
    for o in Operand::row(p, from, k) {
        c = common_of(c, size_in(regs, o, false));
    }
    c
}

fn sum_row(p: &[u8], from: usize, k: u64, regs: &[u64]) -> u64
    ensures { result ≡ min 4097 (sum (sizes_in regs.now (map quantum (row_in operand_in 15 k p.now from)))) }
{
    let mut n = 0;
    for o in Operand::row(p, from, k) {
        n = capped(n, size_in(regs, o, false));
    }
    n
}

// ---- the entries of a statement

// What a count reads: gates and registers by their names, and the entries of each gate by its number.
#[derive(Clone, Copy)]
struct Tables<'a> {
    gates: &'a [u64],
    regs: &'a [u64],
    counts: &'a [u64],
}

impl<'a> Tables<'a> {
    #[tactic(auto, using(crate::proofs::Laws::common_one), unfolding(crate::specs::Sums::sizes_in))]
    fn one(self, p: &[u8]) -> u64
        ensures { result ≡ min 4097 (common (sizes_in self.entry.regs.now (asked false (operand_in p.now 4) ∷ []))) }
    {
        size_in(self.regs, operand(p, 4), false).min(4097)
    }

    #[tactic(auto, using(crate::proofs::Laws::common_two), unfolding(crate::specs::Sums::sizes_in))]
    fn two(self, p: &[u8], classical: bool) -> u64
        ensures { result ≡ min 4097 (common (sizes_in self.entry.regs.now (asked false (operand_in p.now 4) ∷ asked classical (operand_in p.now 19) ∷ []))) }
    {
        let m = size_in(self.regs, operand(p, 4), false);
        let n = size_in(self.regs, operand(p, 19), classical);
        common_of(m, n).min(4097)
    }

    #[tactic(auto, unfolding(crate::specs::Sums::stmt_sum, views::specs::View::barrier_in))]
    fn barrier(self, p: &[u8]) -> u64
        ensures { result ≡ min 4097 (stmt_sum self.entry.gates.now self.entry.regs.now (at self.entry.counts.now) (barrier_in p.now)) }
    {
        capped(sum_row(p, 5, byte_at(p, 4), self.regs), 1)
    }

    // The entries of one call of a gate by its name.
    fn name(self, x: u64) -> u64
        ensures { result ≡ call_count (gate_in self.entry.gates.now x) (at self.entry.counts.now) }
    {
        match find_gate(self.gates, x) {
            None => 0,
            Some(h) => word_of(self.counts, h.number),
        }
    }

    #[tactic(auto, unfolding(crate::specs::Sums::stmt_sum, views::specs::View::call_in))]
    fn call(self, p: &[u8]) -> u64
        ensures { result ≡ min 4097 (stmt_sum self.entry.gates.now self.entry.regs.now (at self.entry.counts.now) (call_in p.now)) }
    {
        let turns = common_row(p, 12, byte_at(p, 11), self.regs);
        capped_times(turns, self.name(name(p, 8)))
    }

    // Any statement but IF, by its tag, a number as 01 has it (`views::Field`).
    #[tactic(auto, unfolding(views::specs::View::stmt_in, views::specs::View::u_in, crate::specs::Sums::stmt_sum))]
    fn plain(self, tag: u64, p: &[u8]) -> u64
        ensures { result ≡ min 4097 (stmt_sum self.entry.gates.now self.entry.regs.now (at self.entry.counts.now) (stmt_in tag p.now)) }
    {
        match tag {
            16 | 19 => self.one(p),
            17 => self.two(p, false),
            18 => self.two(p, true),
            20 => self.barrier(p),
            _ => self.call(p),
        }
    }

    // What a field adds. An IF adds its beginning and its end: what it governs is the field after it.
    #[tactic(auto, unfolding(crate::specs::Sums::field_sum))]
    fn field(self, tag: u64, p: &[u8]) -> u64
        ensures { result ≡ min 4097 (field_sum self.entry.gates.now self.entry.regs.now (at self.entry.counts.now) tag p.now) }
    {
        if tag == 22 {
            2
        } else if is_stmt(tag) {
            self.plain(tag, p)
        } else {
            0
        }
    }

    // What a field adds at the top level.
    fn top(self, f: Field) -> u64
        ensures { result ≡ min 4097 (pick f.entry.inside 0 (field_sum self.entry.gates.now self.entry.regs.now (at self.entry.counts.now) f.entry.tag f.entry.payload.now)) }
    {
        if f.inside {
            0
        } else {
            self.field(f.tag, f.payload)
        }
    }
}

// The entries of the top level.
pub fn count_top(img: &[u8], gates: &[u64], regs: &[u64], counts: &[u64]) -> u64
    ensures { result ≡ min 4097 (stmts_sum gates.now regs.now (at counts.now) (tops (decls false false (rest img.now 0)))) }
{
    let t = Tables {
        gates,
        regs,
        counts,
    };
    let mut n = 0;
    for f in Fields::of(img) {
        n = capped(n, t.top(f));
    }
    n
}

// ---- the entries of a gate

// The statements of the body behind a place, up to its END. Every operand in it has size 1, so that no table of registers is needed.
fn count_body(img: &[u8], place: usize, gates: &[u64], counts: &[u64]) -> u64
    ensures { result ≡ min 4097 (stmts_sum gates.now [] (at counts.now) (stmts false (rest img.now (next_in img.now place)))) }
{
    let t = Tables {
        gates,
        regs: &[],
        counts,
    };
    let mut n = 0;
    for f in Fields::body(img, place) {
        if f.tag == 6 {
            return n;
        }
        n = capped(n, t.field(f.tag, f.payload));
    }
    n
}

// One run of the gate whose field stands at a place; an opaque gate's is one entry.
#[tactic(auto, unfolding(crate::specs::Sums::gate_sum))]
fn count_gate(img: &[u8], place: usize, gates: &[u64], counts: &[u64]) -> u64
    ensures { result ≡ min 4097 (gate_sum img.now gates.now (at counts.now) place) }
{
    if is_one(load(img, place), 10) {
        count_body(img, place, gates, counts)
    } else {
        1
    }
}

// The gates of an order, each by the counts so far: where callees come first, these are there.
pub fn count_gates(img: &[u8], gates: &[u64], places: &[u64], order: &[u64], counts: &mut [u64])
    ensures { counts.new ≡ sum_fill img.now gates.now places.now order.now counts.old }
{
    for g in order {
        let n = count_gate(img, word_of(places, *g) as usize, gates, counts);
        store(counts, *g as usize, n);
    }
}

// ---- passes over the declarations

fn register_of(p: &[u8], classical: bool) -> Reg
    ensures { result ≡ register classical (operand_in p.now 4) }
{
    let o = operand(p, 4);
    Reg {
        name: o.name,
        span: o.span,
        classical,
        size: declared_size(o),
    }
}

// The register that a field declares.
#[tactic(auto, unfolding(crate::specs::Starts::reg_here))]
fn reg_here(f: Field) -> Option<Reg>
    ensures { result ≡ reg_here f.entry.inside f.entry.tag f.entry.payload.now }
{
    if f.inside {
        return None;
    }
    match f.tag {
        3 => Some(register_of(f.payload, false)),
        4 => Some(register_of(f.payload, true)),
        _ => None,
    }
}

// How many bits of a kind a register has, if there is one.
#[tactic(auto, unfolding(rules::specs::Run::bits_of))]
fn bits_here(f: Option<Reg>, classical: bool) -> u64
    ensures { result ≡ bits_of classical (rows_of f) }
{
    match f {
        Some(r) if r.classical == classical => r.size,
        _ => 0,
    }
}

// The bits of a kind, over all the registers.
pub fn total_bits(img: &[u8], classical: bool) -> u64
    ensures { result ≡ min 4097 (bits_of classical (registers (decls false false (rest img.now 0)))) }
{
    let mut n = 0;
    for f in Fields::of(img) {
        n = capped(n, bits_here(reg_here(f), classical));
    }
    n
}

// How many bits of each kind stand before a place.
#[derive(Clone, Copy)]
pub struct Ends {
    pub quantum: u64,
    pub classical: u64,
}

impl Ends {
    // A register begins where those of its kind before it end.
    #[tactic(auto, unfolding(crate::specs::Starts::start_fill))]
    fn enter(&mut self, starts: &mut [u64], r: Reg)
        ensures { Enters starts.old self.old r starts.new self.new }
    {
        if r.classical {
            store(starts, r.name as usize, self.classical);
            self.classical = capped(self.classical, r.size);
        } else {
            store(starts, r.name as usize, self.quantum);
            self.quantum = capped(self.quantum, r.size);
        }
    }
}

// The first bit of each register, by its name.
pub fn fill_starts(img: &[u8], starts: &mut [u64])
    ensures { starts.new ≡ start_fill 0 0 (registers (decls false false (rest img.now 0))) starts.old }
{
    let mut ends = Ends {
        quantum: 0,
        classical: 0,
    };
    for f in Fields::of(img) {
        if let Some(r) = reg_here(f) {
            ends.enter(starts, r);
        }
    }
}

// Where the gates stand, in their order.
pub fn fill_places(img: &[u8], places: &mut [u64])
    ensures { Placed img.now (gate_list (decls false false (rest img.now 0))) places.new }
{
    let mut k = 0; // by hand: with `filter` and `enumerate` the proof did not close
    for f in Fields::of(img) {
        if !f.inside && f.tag == 5 {
            store(places, k, f.place as u64);
            k += 1;
        }
    }
}
