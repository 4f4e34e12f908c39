// Statements, after typing.rs: check_stmt.
#![tactic(auto)]

ghost use Rattle.std.specs.Prelude.{◌≡◌, [], ◌∷◌};
ghost use Rattle.rules.specs.Items.{le4};
ghost use Rattle.rules.specs.Reading.{is_stmt};
ghost use Rattle.rules.specs.Syntax.{reset};
ghost use Rattle.rules.specs.Checking.{stmt_errors, quantum, matched};
ghost use Rattle.views.specs.View.{operand_in, u_in, barrier_in, call_in, stmt_in};
ghost use Rattle.output.specs.Writers.{Says};
ghost use Rattle.tables.specs.Tables.{scope_in, reg_in};
ghost use Rattle.asserts.specs.Sizes.{asked};
ghost use Rattle.typing.specs.Checked.{Done};

use asserts::{
    assert_def, assert_reg, assert_regs, assert_scalar_size, check_exprs, match_row, match_two,
};
use items::{byte_at, eight_at, four_at};
use output::Writer;
use rules::Operand;
use tables::Scope;
use views::{Item, load, name, next, operand};

// ---- statements

fn check_u(w: &mut Writer, p: &[u8], scope: Scope)
    ensures { Says w.old (stmt_errors (scope_in scope.entry.gates.now scope.entry.regs.now) (u_in p.now)) w.new }
{
    let span = four_at(p, 0);
    assert_reg(w, scope.regs, operand(p, 4), span, false);
    check_exprs(w, p, 19, 3, scope.regs, span);
}

// CX and MEASURE: two operands, of which the first is quantum.
fn check_pair(w: &mut Writer, p: &[u8], scope: Scope, classical: bool)
    ensures { Says w.old (matched (reg_in scope.entry.regs.now) (le4 p.now 0) (quantum (operand_in p.now 4) ∷ asked classical (operand_in p.now 19) ∷ [])) w.new }
{
    let span = four_at(p, 0);
    let a = operand(p, 4);
    let b = operand(p, 19);
    assert_reg(w, scope.regs, a, span, false);
    assert_reg(w, scope.regs, b, span, classical);
    match_two(w, scope.regs, a, b, classical, span);
}

#[tactic(auto, unfolding(rules::specs::Checking::stmt_errors, tables::specs::Tables::scope_in, rules::specs::Checking::operand_errors))]
fn check_reset(w: &mut Writer, p: &[u8], scope: Scope)
    ensures { Says w.old (stmt_errors (scope_in scope.entry.gates.now scope.entry.regs.now) (reset (le4 p.now 0) (operand_in p.now 4))) w.new }
{
    assert_reg(w, scope.regs, operand(p, 4), four_at(p, 0), false);
}

#[tactic(auto, unfolding(rules::specs::Checking::stmt_errors, tables::specs::Tables::scope_in, views::specs::View::barrier_in))]
fn check_barrier(w: &mut Writer, p: &[u8], scope: Scope)
    ensures { Says w.old (stmt_errors (scope_in scope.entry.gates.now scope.entry.regs.now) (barrier_in p.now)) w.new }
{
    let row = Operand::row(p, 5, byte_at(p, 4));
    assert_regs(w, row, scope.regs, four_at(p, 0));
}

fn check_call(w: &mut Writer, p: &[u8], scope: Scope)
    ensures { Says w.old (stmt_errors (scope_in scope.entry.gates.now scope.entry.regs.now) (call_in p.now)) w.new }
{
    let span = four_at(p, 0);
    let gate = name(p, 8);
    let params = byte_at(p, 10);
    let args = byte_at(p, 11);
    let row = Operand::row(p, 12, args);
    assert_def(w, scope.gates, span, four_at(p, 4), gate, params, args);
    assert_regs(w, row, scope.regs, span);
    match_row(w, row, scope.regs, span);
    check_exprs(w, p, 12 + 15 * args as usize, params, scope.regs, span);
}

// Any statement but IF, by its tag, a number as 01 has it (`views::Field`).
#[tactic(auto, unfolding(views::specs::View::stmt_in, rules::specs::Checking::stmt_errors, tables::specs::Tables::scope_in))]
fn check_plain(w: &mut Writer, tag: u64, p: &[u8], scope: Scope)
    ensures { Says w.old (stmt_errors (scope_in scope.entry.gates.now scope.entry.regs.now) (stmt_in tag p.now)) w.new }
{
    match tag {
        16 => check_u(w, p, scope),
        17 => check_pair(w, p, scope, false),
        18 => check_pair(w, p, scope, true),
        19 => check_reset(w, p, scope),
        20 => check_barrier(w, p, scope),
        _ => check_call(w, p, scope),
    }
}

pub fn is_stmt(tag: u64) -> bool
    ensures { result ≡ is_stmt tag }
{
    (16..=22).contains(&tag)
}

// The statement that stands at a place, and the place after it. An IF's governs the field right after it: first its operand, then that statement, then its value.
pub fn check_stmt(w: &mut Writer, img: &[u8], at: usize, scope: Scope) -> usize
    ensures { Done scope.entry.gates.now scope.entry.regs.now img.now at w.old w.new result }
{
    if img.len() <= at {
        return img.len();
    }
    let tag = byte_at(img, at);
    let p = load(img, at);
    let behind = next(img, at);
    if tag == 22 {
        let span = four_at(p, 0);
        let o = operand(p, 4);
        assert_reg(w, scope.regs, o, span, true);
        let after = check_stmt(w, img, behind, scope);
        assert_scalar_size(w, scope.regs, o, four_at(p, 19), eight_at(p, 23), span);
        return after;
    }
    if is_stmt(tag) {
        check_plain(w, tag, p, scope);
        return behind;
    }
    at
}
