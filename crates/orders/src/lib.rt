// The service order: the gates of a program without errors, callees first, one byte each.
#![tactic(auto)]

ghost use Rattle.std.specs.Prelude.{◌≡◌, map, take};
ghost use Rattle.rules.specs.Answers.{order_read, order as ordered};
ghost use Rattle.output.specs.Writers.{Writes};
ghost use Rattle.checks.specs.Served.{Gives, order_refusal};
ghost use Rattle.orders.specs.Listing.{low, Readied};

use calls::call_order;
use checks::{Service, tell_errors};
use graph::Gates;
use output::Writer;
use rules::Answer;

// The first n of a list, and all of it where n is larger.
pub fn front<'a>(list: &'a [u64], n: usize) -> &'a [u64]
    ensures { result.now ≡ take n list.now }
{
    list.get(..n).unwrap_or(list)
}

// The gates of a list, one byte each.
fn put_gates(w: &mut Writer, list: &[u64])
    ensures { Writes w.old (map low list.now) w.new }
{
    for &g in list {
        w.put1((g % 256) as u8);
    }
}

// Of an image that is read: how many errors it has, its gates by name, and its gates in order.
#[derive(Clone, Copy)]
pub struct Ready {
    pub errors: usize,
    pub heads: [u64; 2048],
    pub order: Gates,
}

pub fn place_gates(image: &[u8]) -> Ready
    ensures { Readied image.now result }
{
    let mut w = Writer::on(&mut []);
    let gates = tell_errors(&mut w, image);
    Ready {
        errors: w.sink.items,
        heads: gates.rows,
        order: call_order(image, &gates.rows, gates.count),
    }
}

// Order: the list of gates.
pub struct Orderer;

impl Service for Orderer {
    ghost answers = { order_read };

    fn answer(image: &[u8], out: &mut [u8]) -> Answer {
        let ready = place_gates(image);
        if 0 < ready.errors {
            return Answer::Rejected;
        }
        let row = front(&ready.order.gates, ready.order.count);
        let n = row.len();
        if out.len() < n {
            return Answer::Room { items: n, bytes: n };
        }
        put_gates(&mut Writer::on(out), row);
        Answer::Done { items: n, bytes: n }
    }

    ghost refusal = { order_refusal };
}

// Orders the gates of an image of any bytes.
#[tactic(auto, unfolding(rules::specs::Answers::order))]
pub fn order(image: &[u8], out: &mut [u8]) -> Answer
    ensures { Gives (ordered image.now out.old) out.new result }
{
    Orderer::serve(image, out)
}
