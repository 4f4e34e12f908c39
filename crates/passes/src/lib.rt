// The passes over gate bodies and over the program, after typing.rs: check_gates and check_defs.
#![tactic(auto)]

ghost use Rattle.std.specs.Prelude.{◌≡◌, false};
ghost use Rattle.rules.specs.Grouping.{stmts, decls};
ghost use Rattle.rules.specs.Checking.{stmts_errors, top_errors};
ghost use Rattle.views.specs.View.{rest, next_in};
ghost use Rattle.views.specs.Items.{names_left};
ghost use Rattle.output.specs.Writers.{Says};
ghost use Rattle.tables.specs.Tables.{scope_in};
ghost use Rattle.passes.specs.Passes.{ArgsSet, ParamsSet, BodyChecked, DefsSaid};

use output::Writer;
use tables::{Scope, set_param, set_reg};
use typing::{check_stmt, is_stmt};
use views::{Field, Fields, Nameds, then_inside};

// ---- top-level statements

// The top-level statements, in their order, each with what its IFs govern.
pub fn check_gates(w: &mut Writer, img: &[u8], scope: Scope)
    ensures { Says w.old (top_errors (scope_in scope.entry.gates.now scope.entry.regs.now) (decls false false (rest img.now 0))) w.new }
{
    let mut fields = Fields::of(img);
    // an IF takes the statement behind it, so the place is set in the loop; so too below
    while let Some(f) = fields.next() {
        if !f.inside && is_stmt(f.tag) {
            fields.at = check_stmt(w, img, f.place, scope);
        }
    }
}

// ---- bodies

// The statements of the body behind a place, up to its END.
fn check_body(w: &mut Writer, img: &[u8], place: usize, scope: Scope)
    ensures { Says w.old (stmts_errors (scope_in scope.entry.gates.now scope.entry.regs.now) (stmts false (rest img.now (next_in img.now place)))) w.new }
{
    let mut body = Fields::body(img, place);
    while let Some(f) = body.next() {
        if f.tag == 6 {
            return;
        }
        if is_stmt(f.tag) {
            body.at = check_stmt(w, img, f.place, scope);
        }
    }
}

// The arguments of a gate as a body sees them: quantum, of size 1, the later span where a name repeats.
fn enter_args(t: &mut [u64], args: Nameds)
    ensures { ArgsSet t.old (names_left args.entry) t.new }
{
    for a in args {
        set_reg(t, a.name, 1, a.span, 1);
    }
}

// The parameters of a gate.
fn enter_params(t: &mut [u64], params: Nameds)
    ensures { ParamsSet t.old (names_left params.entry) t.new }
{
    for p in params {
        set_param(t, p.name);
    }
}

// The body behind a header, with the names of its own header.
fn check_def(w: &mut Writer, img: &[u8], header: Field, gates: &[u64])
    ensures { BodyChecked gates.now img.now header.entry.place header.entry.payload.now w.old w.new }
{
    let mut regs = [0; 2048];
    enter_args(&mut regs, Nameds::args(header.payload));
    enter_params(&mut regs, Nameds::params(header.payload));
    check_body(w, img, header.place, Scope { gates, regs: &regs });
}

// The bodies, in declaration order, first entries or not.
pub fn check_defs(w: &mut Writer, img: &[u8], gates: &[u64])
    ensures { DefsSaid gates.now img.now w.old w.new }
{
    for f in Fields::of(img) {
        if !f.inside && then_inside(false, f.tag, f.payload) {
            check_def(w, img, f, gates);
        }
    }
}
