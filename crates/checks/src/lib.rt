// The check of an image: its errors told in 01's order, counted first and written second.
#![tactic(auto)]

ghost use Rattle.std.specs.Prelude.{List, ℕ};
ghost use Rattle.rules.specs.Grouping.{Reading, read};
ghost use Rattle.rules.specs.Answers.{Result, check_read, check as checked};
ghost use Rattle.checks.specs.Told.{Local, All};
ghost use Rattle.checks.specs.Served.{Gives, Serves, Passes, check_refusal};

use calls::check_recursion;
use collect::{Gates, collect_decls, collect_regs};
use image::{Refused, read_image};
use output::{Sink, Writer};
use passes::{check_defs, check_gates};
use rules::Answer;
use tables::Scope;

// ---- services

// What a service does with an image of any bytes: a refusal of the reading is its answer, whichever service it is.
pub trait Service {
    // What it answers by the rules, with the buffer after it.
    ghost answers: { Reading → List ℕ → Result };

    // The answer for an image that is read.
    fn answer(image: &[u8], out: &mut [u8]) -> Answer
        ensures { Serves answers image.now out.old out.new result };

    ghost refusal: { Passes answers };

    final fn serve(image: &[u8], out: &mut [u8]) -> Answer
        ensures { Gives (answers (read image.now) out.old) out.new result }
    {
        match read_image(image) {
            Err(Refused { fault, offset }) => Answer::Refused { fault, offset },
            Ok(_) => Self::answer(image, out),
        }
    }
}

// ---- the errors

// The errors up to recursion: gate headers, registers, top-level statements, bodies; and the gates.
pub fn check_local(w: &mut Writer, img: &[u8]) -> Gates
    ensures { Local img.now w.old w.new result }
{
    let gates = collect_decls(w, img);
    let regs = collect_regs(w, img);
    let scope = Scope {
        gates: &gates.rows,
        regs: &regs.rows,
    };
    check_gates(w, img, scope);
    check_defs(w, img, &gates.rows);
    gates
}

// All errors of an image that is read.
pub fn tell_errors(w: &mut Writer, img: &[u8]) -> Gates
    ensures { All img.now w.old w.new result }
{
    let gates = check_local(w, img);
    check_recursion(w, img, &gates.rows, &gates.defs, gates.count);
    gates
}

// ---- the service

// Check: the list of errors.
pub struct Checker;

impl Service for Checker {
    ghost answers = { check_read };

    // A refusal leaves the lent buffer as it is, so the errors are written to one of our own first, as far as they fit there, and go from there
    // to the lent one; where they do not fit, they are told a second time.
    fn answer(image: &[u8], out: &mut [u8]) -> Answer {
        let mut held = [0; 81920];
        let mut w = Writer::on(&mut held);
        tell_errors(&mut w, image);
        let Sink { items, bytes } = w.sink;
        if out.len() < bytes {
            return Answer::Room { items, bytes };
        }
        if items == 0 {
            return Answer::Done { items, bytes };
        }
        if 81920 < bytes {
            tell_errors(&mut Writer::on(out), image);
        } else {
            out[..bytes].copy_from_slice(&held[..bytes]);
        }
        Answer::Errors {
            errors: items,
            bytes,
        }
    }

    ghost refusal = { check_refusal };
}

// Checks an image of any bytes. (README names it, and its kin of order and expand.)
#[tactic(auto, unfolding(rules::specs::Answers::check))]
pub fn check(image: &[u8], out: &mut [u8]) -> Answer
    ensures { Gives (checked image.now out.old) out.new result }
{
    Checker::serve(image, out)
}
