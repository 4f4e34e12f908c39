// The declarations of an image collected into tables by name, after typing.rs: collect_decls and collect_regs.
#![tactic(auto)]

ghost use Rattle.std.specs.Prelude.{◌≡◌, [], map, ℕ, ◌<◌, ◌≤◌, eqb};
ghost use Rattle.rules.specs.Errors.{Error};
ghost use Rattle.rules.specs.Reading.{is_reg};
ghost use Rattle.rules.specs.Checking.{argument, latest, repeats, redeclared};
ghost use Rattle.views.specs.Items.{names_left};
ghost use Rattle.output.specs.Writers.{Says};
ghost use Rattle.tables.specs.Tables.{reg_in};
ghost use Rattle.collect.specs.Collected.{reg_errors_by, kind_of, RegEntered, RegsDone, Tells, GateEntered, HeaderDone, GatesDone};

use items::four_at;
use output::Writer;
use rules::{Named, Operand, Reg};
use tables::{find_gate, find_reg, set_gate, set_reg, store};
use views::{Fields, Nameds, name, operand, size_of};

// ---- registers

// 6 where the name was declared before.
fn tell_again(w: &mut Writer, f: Option<Reg>, o: Operand, decl: u64)
    ensures { Says w.old (redeclared f o decl) w.new }
{
    if let Some(prev) = f {
        w.redefined_register(o, decl, prev.span);
    }
}

// 5 for size 0, then 6.
fn tell_register(w: &mut Writer, o: Operand, decl: u64, t: &[u64])
    ensures { Says w.old (reg_errors_by (reg_in t.now o.name) decl o) w.new }
{
    if size_of(o) == 0 {
        w.zero_size_register(o.span, decl);
    }
    tell_again(w, find_reg(t, o.name), o, decl);
}

// 1 for a quantum register, 2 for a classical one: a word of a table.
fn kind_of(tag: u64) -> u64
    ensures { result ≡ kind_of (eqb tag 4) }
{
    if tag == 4 { 2 } else { 1 }
}

pub fn is_reg(tag: u64) -> bool
    ensures { result ≡ is_reg tag }
{
    matches!(tag, 3 | 4)
}

// The registers by name, and how many register fields there are. (01 asks for this form, an array beside its count; so too below.)
#[derive(Clone, Copy)]
pub struct Regs {
    pub rows: [u64; 2048],
    pub count: usize,
}

impl Regs {
    // A register is entered after its errors are told; the later one wins.
    fn enter(&mut self, w: &mut Writer, tag: u64, p: &[u8])
        requires { self.old.count < 18446744073709551615 }
        ensures { RegEntered tag p.now self.old w.old self.new w.new }
    {
        let o = operand(p, 4);
        tell_register(w, o, four_at(p, 0), &self.rows);
        set_reg(&mut self.rows, o.name, kind_of(tag), o.span, size_of(o));
        self.count += 1;
    }
}

// The registers of the image, with their errors.
pub fn collect_regs(w: &mut Writer, img: &[u8]) -> Regs
    ensures { RegsDone img.now w.old w.new result }
{
    let mut regs = Regs {
        rows: [0; 2048],
        count: 0,
    };
    for f in Fields::of(img) {
        if !f.inside && is_reg(f.tag) {
            regs.enter(w, f.tag, f.payload);
        }
    }
    regs
}

// ---- headers

// The latest of some names that is x, as a body would see it: from the last one back, and of each the name alone, since a row is searched anew for each
// of its names.
fn earlier(seen: Nameds, x: u64) -> Option<Reg>
    requires { (seen.at ≤ 2000) × (seen.left ≤ 255) }
    ensures { result ≡ latest (map argument (names_left seen.entry)) x }
{
    for i in (0..seen.left).rev() {
        let at = seen.at + 6 * i as usize;
        if name(seen.bytes, at + 4) == x {
            return Some(Reg {
                name: x,
                span: four_at(seen.bytes, at),
                classical: false,
                size: 1,
            });
        }
    }
    None
}

// The repeated names of a row, each told with the span of the latest one before it.
fn tell_repeats<F: Fn(&mut Writer, Named, u64)>(w: &mut Writer, row: Nameds, tell: F)
    requires near { (row.at ≤ 2000) × (row.left ≤ 255) }
    requires may { F.IsAlwaysCallable tell }
    ensures { (kind : ℕ → ℕ → ℕ → ℕ → Error) (decl : ℕ) → Tells (F.post tell) kind decl → Says w.old (repeats kind decl [] (names_left row.entry)) w.new }
{
    let mut seen = row;
    seen.left = 0;
    for n in row {
        if let Some(prev) = earlier(seen, n.name) {
            tell(w, n, prev.span);
        }
        seen.left += 1;
    }
}

// The gates by name, the declaration span of each by number, and how many there are.
#[derive(Clone, Copy)]
pub struct Gates {
    pub rows: [u64; 2048],
    pub defs: [u64; 128],
    pub count: usize,
}

impl Gates {
    // A first entry: its repeated names are told, and it gets the next number.
    fn enter(&mut self, w: &mut Writer, p: &[u8])
        requires { self.old.count < 18446744073709551615 }
        ensures { GateEntered p.now self.old w.old self.new w.new }
    {
        let decl = four_at(p, 0);
        let params = Nameds::params(p);
        let args = Nameds::args(p);
        tell_repeats(
            w,
            args,
            |w, n, prev| w.redefined_argument(n.span, n.name, decl, prev),
        );
        tell_repeats(
            w,
            params,
            |w, n, prev| w.redefined_parameter(n.span, n.name, decl, prev),
        );
        set_gate(
            &mut self.rows,
            name(p, 8),
            self.count as u64 + 1,
            params.left,
            args.left,
            decl,
        );
        store(&mut self.defs, self.count, decl);
        self.count += 1;
    }

    // One header: 1 where the name was seen before, else a first entry.
    fn header(&mut self, w: &mut Writer, p: &[u8])
        requires { self.old.count < 18446744073709551615 }
        ensures { HeaderDone p.now self.old w.old self.new w.new }
    {
        let x = name(p, 8);
        match find_gate(&self.rows, x) {
            Some(h) => w.redefined_gate(four_at(p, 4), x, four_at(p, 0), h.decl),
            None => self.enter(w, p),
        }
    }
}

// The gates of the image, with the errors of their headers.
pub fn collect_decls(w: &mut Writer, img: &[u8]) -> Gates
    ensures { GatesDone img.now w.old w.new result }
{
    let mut gates = Gates {
        rows: [0; 2048],
        defs: [0; 128],
        count: 0,
    };
    for f in Fields::of(img) {
        if !f.inside && f.tag == 5 {
            gates.header(w, f.payload);
        }
    }
    gates
}
