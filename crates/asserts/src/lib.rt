// The checks of single parts of a statement, after typing.rs: each tells its errors and goes on.
// (The table and the span of the statement go as two, and so do an operand and the kind that is asked, as in the definitions: a struct of them would be
// made anew at each call and be no plainer, since the table is of registers here and of gates there.)
#![tactic(auto)]

ghost use Rattle.std.specs.Prelude.{◌≡◌, [], ◌∷◌, ◌++◌, map, ℕ, ◌+◌};
ghost use Rattle.rules.specs.Basics.{pick};
ghost use Rattle.rules.specs.Errors.{undefined_parameter, wrong_argument_arity, wrong_parameter_arity};
ghost use Rattle.rules.specs.Items.{le4};
ghost use Rattle.rules.specs.Checking.{quantum, classic, size, index_size, assert_reg, sized_errors, operand_errors, unfixed, fixed, differs, match_errors, expr_errors, exprs_errors, value_size, compare_errors, len_errors, arity_errors};
ghost use Rattle.views.specs.View.{expr_in, expr_past, exprs_in};
ghost use Rattle.views.specs.Items.{operands_left};
ghost use Rattle.output.specs.Writers.{Says};
ghost use Rattle.tables.specs.Tables.{gate_in, reg_in, param_in};
ghost use Rattle.asserts.specs.Sizes.{asked, size_left, leaf_errors};

use items::nodes::{Node, node_at, node_length};
use items::{along, byte_at, four_at};
use output::Writer;
use rules::{Header, Match, Operand, Reg};
use tables::{find_gate, find_reg, is_param};
use views::Operands;

// ---- operands

// The size that an operand has of a register that was found: none where the index lies outside.
fn size_in(r: Reg, o: Operand) -> Option<u64>
    ensures { (stmt : ℕ) → result ≡ size_left (index_size r stmt o) }
{
    if !o.indexed {
        Some(r.size)
    } else if o.index < r.size {
        Some(1)
    } else {
        None
    }
}

// The size of an operand, with nothing told: none after an error.
#[tactic(auto, unfolding(rules::specs::Checking::assert_reg))]
pub fn size_of(t: &[u64], o: Operand, classical: bool) -> Option<u64>
    ensures { (stmt : ℕ) → result ≡ size_left (assert_reg (reg_in t.now) stmt (asked classical o)) }
{
    let r = find_reg(t, o.name)?;
    if r.classical == classical {
        size_in(r, o)
    } else {
        None
    }
}

// The error of an index outside a register that was found, if it is one.
fn tell_index(w: &mut Writer, r: Reg, o: Operand, stmt: u64)
    ensures { Says w.old (sized_errors (index_size r stmt o)) w.new }
{
    if o.indexed && r.size <= o.index {
        w.invalid_register_index(o.name, o.index, r.size, o.span, r.span, stmt);
    }
}

// 15, then 14, then 13.
#[tactic(auto, unfolding(rules::specs::Checking::assert_reg))]
pub fn assert_reg(w: &mut Writer, t: &[u64], o: Operand, stmt: u64, classical: bool)
    ensures { Says w.old (sized_errors (assert_reg (reg_in t.now) stmt (asked classical o))) w.new }
{
    match find_reg(t, o.name) {
        None => w.undefined_register(o.name, o.span, stmt),
        Some(r) if r.classical == classical => tell_index(w, r, o, stmt),
        Some(r) => w.wrong_register_type(o.name, r.span, stmt, o.span, classical),
    }
}

// The errors of operands in a row, all quantum.
pub fn assert_regs(w: &mut Writer, os: Operands, t: &[u64], stmt: u64)
    ensures { Says w.old (operand_errors (reg_in t.now) stmt (map quantum (operands_left os.entry))) w.new }
{
    for o in os {
        assert_reg(w, t, o, stmt, false);
    }
}

// ---- matching

// What is fixed after an operand of size n: the first size that isn't 1, size 0 too.
fn fix(m: Match, n: u64, span: u64) -> Match
    ensures { result ≡ fixed m (size n) span }
{
    if m.size == 1 {
        Match { size: n, span }
    } else {
        m
    }
}

// 12 if over 1 and different from what is fixed.
fn differ(w: &mut Writer, m: Match, n: u64, span: u64, stmt: u64)
    ensures { Says w.old (differs m stmt (size n) span) w.new }
{
    if 1 < n && n != m.size {
        w.wrong_operand_size(stmt, span, n, m.span, m.size);
    }
}

// One operand's part in matching: what is fixed then.
fn match_operand(
    w: &mut Writer,
    m: Match,
    t: &[u64],
    o: Operand,
    classical: bool,
    stmt: u64,
) -> Match
    ensures now { result ≡ fixed m (assert_reg (reg_in t.now) stmt (asked classical o)) o.span }
    ensures said { Says w.old (differs result stmt (assert_reg (reg_in t.now) stmt (asked classical o)) o.span) w.new }
{
    let Some(n) = size_of(t, o, classical) else {
        return m;
    };
    let f = fix(m, n, o.span);
    differ(w, f, n, o.span, stmt);
    f
}

// Matching of two operands, the first quantum.
pub fn match_two(w: &mut Writer, t: &[u64], a: Operand, b: Operand, classical: bool, stmt: u64)
    ensures { Says w.old (match_errors (reg_in t.now) stmt unfixed (quantum a ∷ asked classical b ∷ [])) w.new }
{
    let m = match_operand(w, Match { size: 1, span: 0 }, t, a, false, stmt);
    match_operand(w, m, t, b, classical, stmt);
}

// Matching of operands in a row, all quantum.
pub fn match_row(w: &mut Writer, os: Operands, t: &[u64], stmt: u64)
    ensures { Says w.old (match_errors (reg_in t.now) stmt unfixed (map quantum (operands_left os.entry))) w.new }
{
    let mut m = Match { size: 1, span: 0 };
    for o in os {
        m = match_operand(w, m, t, o, false, stmt);
    }
}

// ---- calls

// 10, then 9, where the counts differ.
fn assert_len(w: &mut Writer, h: Header, stmt: u64, name: u64, params: u64, args: u64)
    ensures { Says w.old (len_errors h.params params (wrong_parameter_arity stmt h.decl name) ++ len_errors h.args args (wrong_argument_arity stmt h.decl name)) w.new }
{
    if h.params != params {
        w.wrong_parameter_arity(stmt, h.decl, name, h.params, params);
    }
    if h.args != args {
        w.wrong_argument_arity(stmt, h.decl, name, h.args, args);
    }
}

// 11, or 10 then 9.
pub fn assert_def(
    w: &mut Writer,
    t: &[u64],
    stmt: u64,
    span: u64,
    name: u64,
    params: u64,
    args: u64,
)
    ensures { Says w.old (arity_errors (gate_in t.now name) stmt span name params args) w.new }
{
    match find_gate(t, name) {
        None => w.undefined_gate(span, name, stmt),
        Some(h) => assert_len(w, h, stmt, name, params, args),
    }
}

// ---- comparisons

// The exponent of the least power of two not below the value, 64 if that is 2^64.
fn value_size(v: u64) -> u64
    ensures { result ≡ value_size v }
{
    match v.checked_next_power_of_two() {
        Some(p) => u64::from(p.ilog2()),
        None => 64,
    }
}

// 8 if the value is 2^n or more; from size 64 on none is.
fn assert_value(w: &mut Writer, n: u64, o: Operand, span: u64, value: u64, stmt: u64)
    ensures { Says w.old (compare_errors (size n) stmt o span value) w.new }
{
    if n < 64 && 1 << n <= value {
        w.invalid_comparison_size(o.span, span, stmt, n, value_size(value));
    }
}

// 8, if the classical operand has a size.
pub fn assert_scalar_size(w: &mut Writer, t: &[u64], o: Operand, span: u64, value: u64, stmt: u64)
    ensures { Says w.old (compare_errors (assert_reg (reg_in t.now) stmt (classic o)) stmt o span value) w.new }
{
    if let Some(n) = size_of(t, o, true) {
        assert_value(w, n, o, span, value, stmt);
    }
}

// ---- expressions

// 7 unless a parameter.
fn check_var(w: &mut Writer, p: &[u8], at: usize, name: u64, t: &[u64], stmt: u64)
    ensures { Says w.old (pick (param_in t.now name) [] (undefined_parameter name stmt (le4 p.now (at + 1)) ∷ [])) w.new }
{
    if !is_param(t, name) {
        w.undefined_parameter(name, stmt, four_at(p, along(p, at, 1)));
    }
}

// A node without operands.
fn check_leaf(w: &mut Writer, p: &[u8], at: usize, t: &[u64], stmt: u64)
    ensures { Says w.old (leaf_errors (param_in t.now) stmt p.now at) w.new }
{
    if let Node::Var(x) = node_at(p, at) {
        check_var(w, p, at, u64::from(x) % 512, t, stmt);
    }
}

// The nodes of an expression at most depth deep, in prefix order: one call for each operand. The place after them.
pub fn check_expr(w: &mut Writer, p: &[u8], at: usize, depth: usize, t: &[u64], stmt: u64) -> usize
    ensures said { Says w.old (expr_errors (param_in t.now) stmt (expr_in depth p.now at)) w.new }
    ensures past { result ≡ expr_past depth p.now at }
{
    if depth == 0 || p.len() <= at {
        return at;
    }
    let o = byte_at(p, at);
    if o < 4 {
        check_leaf(w, p, at, t, stmt);
        return along(p, at, node_length(o));
    }
    let second = check_expr(w, p, along(p, at, 5), depth - 1, t, stmt);
    if 9 <= o {
        return second;
    }
    check_expr(w, p, second, depth - 1, t, stmt)
}

// k expressions in a row.
pub fn check_exprs(w: &mut Writer, p: &[u8], from: usize, k: u64, t: &[u64], stmt: u64)
    ensures { Says w.old (exprs_errors (param_in t.now) stmt (exprs_in k p.now from)) w.new }
{
    let mut at = from;
    for _ in 0..k {
        at = check_expr(w, p, at, 64, t, stmt);
    }
}
