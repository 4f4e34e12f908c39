// Tables by name number: four words a name, 512 names.
#![tactic(auto)]

ghost use Rattle.std.specs.Prelude.{◌≡◌, ◌+◌, ◌*◌, ◌<◌, length, get_or, set, eqb, [], ◌∷◌};
ghost use Rattle.tables.specs.Tables.{word, gate_in, reg_in, param_in, row_set, param_set};

use rules::{Header, Reg};

// What names stand for: a table of gates, and one of registers and parameters.
#[derive(Clone, Copy)]
pub struct Scope<'a> {
    pub gates: &'a [u64],
    pub regs: &'a [u64],
}

// ---- words

// The word at a place, 0 where the table has none.
pub fn word(t: &[u64], i: usize) -> u64
    ensures { result ≡ get_or t.now i 0 }
{
    t.get(i).copied().unwrap_or(0)
}

// A word stored, where the table has one. (By `get_mut` the proof did not close.)
pub fn store(t: &mut [u64], i: usize, v: u64)
    ensures { t.new ≡ set t.old i v }
{
    if i < t.len() {
        t[i] = v;
    }
}

// The word j of the name x.
fn word_at(t: &[u64], x: u64, j: u64) -> u64
    requires { (x < 512) × (j < 4) }
    ensures { result ≡ word t.now x j }
{
    word(t, (4 * x + j) as usize)
}

// ---- what a name means: a table is words, so that one kind of table serves both (a kind is 1 or 2 in it, and 0 means that there is none)

// What is known of a gate by its name.
pub fn find_gate(t: &[u64], x: u64) -> Option<Header>
    ensures { result ≡ gate_in t.now x }
{
    if 512 <= x {
        return None;
    }
    let n = word_at(t, x, 0);
    if n == 0 {
        return None;
    }
    Some(Header {
        number: n - 1,
        params: word_at(t, x, 1),
        args: word_at(t, x, 2),
        decl: word_at(t, x, 3),
    })
}

// What a name stands for: a register or an argument.
pub fn find_reg(t: &[u64], x: u64) -> Option<Reg>
    ensures { result ≡ reg_in t.now x }
{
    if 512 <= x {
        return None;
    }
    let kind = word_at(t, x, 0);
    if kind == 0 {
        return None;
    }
    Some(Reg {
        name: x,
        span: word_at(t, x, 1),
        classical: kind == 2,
        size: word_at(t, x, 2),
    })
}

pub fn is_param(t: &[u64], x: u64) -> bool
    ensures { result ≡ param_in t.now x }
{
    x < 512 && word_at(t, x, 3) == 1
}

// ---- rows set

// A gate's row: its number and one more, its counts, its declaration span.
pub fn set_gate(t: &mut [u64], x: u64, row: u64, params: u64, args: u64, decl: u64)
    ensures { t.new ≡ row_set t.old x (row ∷ params ∷ args ∷ decl ∷ []) }
{
    if 512 <= x {
        return;
    }
    let i = 4 * x as usize;
    store(t, i, row);
    store(t, i + 1, params);
    store(t, i + 2, args);
    store(t, i + 3, decl);
}

// A register's or an argument's row: 1 quantum or 2 classical, its span, its size.
pub fn set_reg(t: &mut [u64], x: u64, kind: u64, span: u64, size: u64)
    ensures { t.new ≡ row_set t.old x (kind ∷ span ∷ size ∷ []) }
{
    if 512 <= x {
        return;
    }
    let i = 4 * x as usize;
    store(t, i, kind);
    store(t, i + 1, span);
    store(t, i + 2, size);
}

// A parameter.
pub fn set_param(t: &mut [u64], x: u64)
    ensures { t.new ≡ param_set t.old x }
{
    if 512 <= x {
        return;
    }
    store(t, 4 * x as usize + 3, 1);
}
