// The service expand: the run of a program without errors, written as entries.
#![tactic(auto)]

ghost use Rattle.rules.specs.Answers.{expand_read, expand as expanded};
ghost use Rattle.checks.specs.Served.{Gives, expand_refusal};

use checks::Service;
use collect::collect_regs;
use expand::expand_admitted;
use orders::place_gates;
use output::Writer;
use rules::Answer;
use tables::Scope;

// Expand: the entries of the run.
pub struct Expander;

impl Service for Expander {
    ghost answers = { expand_read };

    fn answer(image: &[u8], out: &mut [u8]) -> Answer {
        let ready = place_gates(image);
        if 0 < ready.errors {
            return Answer::Rejected;
        }
        // its registers again: without errors nothing is told
        let regs = collect_regs(&mut Writer::on(&mut []), image);
        let scope = Scope {
            gates: &ready.heads,
            regs: &regs.rows,
        };
        let row = ready.order.as_slice();
        expand_admitted(image, scope, row, out)
    }

    ghost refusal = { expand_refusal };
}

// Expands an image of any bytes.
#[tactic(auto, unfolding(rules::specs::Answers::expand))]
pub fn expand(image: &[u8], out: &mut [u8]) -> Answer
    ensures { Gives (expanded image.now out.old) out.new result }
{
    Expander::serve(image, out)
}
