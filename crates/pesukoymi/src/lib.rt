// The boundary: what a host calls. An answer goes as 24 bytes into a slice of the caller's: 01's table number, then the two values.
#![tactic(auto)]

ghost use Rattle.std.specs.Prelude.{◌≡◌};
ghost use Rattle.rules.specs.Answers.{values, answer_bytes, check as checked, order as ordered, expand as expanded};
ghost use Rattle.output.specs.Writers.{Writes};
ghost use Rattle.pesukoymi.specs.Boundary.{Called};

use checks::check;
use expands::expand;
use orders::order;
use output::Writer;
use rules::Answer;

// The two values of an answer.
fn values_of(a: Answer) -> (u64, u64)
    ensures { result ≡ values a }
{
    match a {
        Answer::Done { items, bytes } => (items as u64, bytes as u64),
        Answer::Errors { errors, bytes } => (errors as u64, bytes as u64),
        Answer::Refused { offset, .. } => (offset as u64, 0),
        Answer::Room { items, bytes } => (items as u64, bytes as u64),
        Answer::Rejected | Answer::Machine | Answer::Entries => (0, 0),
    }
}

fn put_answer(w: &mut Writer, a: Answer)
    ensures { Writes w.old (answer_bytes a) w.new }
{
    let (first, second) = values_of(a);
    w.put8(u64::from(a));
    w.put8(first);
    w.put8(second);
}

// Check, for a host. (The three go through the functions that README names, each with its own promise. An answer slice of fewer than 24 bytes: nothing is
// changed at all.)
pub fn pesukoymi_check(image: &[u8], out: &mut [u8], answer: &mut [u8])
    ensures { Called (checked image.now out.old) out.old answer.old out.new answer.new }
{
    if 24 <= answer.len() {
        put_answer(&mut Writer::on(answer), check(image, out));
    }
}

// Order, for a host.
pub fn pesukoymi_order(image: &[u8], out: &mut [u8], answer: &mut [u8])
    ensures { Called (ordered image.now out.old) out.old answer.old out.new answer.new }
{
    if 24 <= answer.len() {
        put_answer(&mut Writer::on(answer), order(image, out));
    }
}

// Expand, for a host.
pub fn pesukoymi_expand(image: &[u8], out: &mut [u8], answer: &mut [u8])
    ensures { Called (expanded image.now out.old) out.old answer.old out.new answer.new }
{
    if 24 <= answer.len() {
        put_answer(&mut Writer::on(answer), expand(image, out));
    }
}
