// Expand, for a program that check finds no errors in: 9, then 10, then 11, and otherwise the run. A refused call changes no byte.
#![tactic(auto)]

ghost use Rattle.rules.specs.Run.{entry_field};
ghost use Rattle.output.specs.Sinks.{Put, start};
ghost use Rattle.run.specs.Lines.{full};
ghost use Rattle.expand.specs.Expanding.{writes, Answers, Lays, Counts};

use counts::{count_gates, count_top, fill_places, fill_starts, total_bits};
use output::{Sink, Writer};
use rules::Answer;
use run::{Program, run_top};
use tables::Scope;

// The run, written from the front of a buffer on.
fn write(program: Program, regs: &[u64], starts: &[u64], depth: usize, out: &mut [u8]) -> Sink
    ensures { Put entry_field out.old start (writes program.entry.img.now program.entry.gates.now regs.now program.entry.places.now program.entry.counts.now (full starts.now) depth) out.new result }
{
    let mut w = Writer::on(out);
    run_top(&mut w, program, regs, starts, depth);
    w.sink
}

// Counted first, over an empty buffer, and then written, if there is room.
fn lay_run(program: Program, regs: &[u64], depth: usize, out: &mut [u8]) -> Answer
    ensures { Lays program.entry.img.now program.entry.gates.now regs.now program.entry.places.now program.entry.counts.now depth out.old result out.new }
{
    let mut starts = [0; 512];
    fill_starts(program.img, &mut starts);
    let Sink { items, bytes } = write(program, regs, &starts, depth, &mut []);
    if out.len() < bytes {
        return Answer::Room { items, bytes };
    }
    let Sink { items, bytes } = write(program, regs, &starts, depth, out);
    Answer::Done { items, bytes }
}

// With room for a count of each gate.
fn expand_counting(
    img: &[u8],
    scope: Scope,
    order: &[u64],
    counts: &mut [u64],
    out: &mut [u8],
) -> Answer
    ensures { Counts img.now scope.entry.gates.now scope.entry.regs.now order.now counts.old out.old result out.new }
{
    if 4096 < total_bits(img, false) || 4096 < total_bits(img, true) {
        return Answer::Machine;
    }
    let mut places = [0; 128];
    fill_places(img, &mut places);
    count_gates(img, scope.gates, &places, order, counts);
    if 4096 < count_top(img, scope.gates, scope.regs, counts) {
        return Answer::Entries;
    }
    let program = Program {
        img,
        gates: scope.gates,
        counts,
        places: &places,
    };
    lay_run(program, scope.regs, order.len(), out)
}

// The program is the one that the image spells, the tables are its gates and its registers by their names, and the order is that of its gates,
// 128 at most.
pub fn expand_admitted(img: &[u8], scope: Scope, order: &[u64], out: &mut [u8]) -> Answer
    ensures { Answers img.now scope.entry.gates.now scope.entry.regs.now order.now out.old result out.new }
{
    let n = order.len();
    if 128 < n {
        return Answer::Entries;
    }
    let mut counts = [0; 128];
    expand_counting(img, scope, order, &mut counts[..n], out)
}
