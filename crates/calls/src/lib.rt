// The calls of an image as a graph, the recursion errors, and the order of the gates.
#![tactic(auto)]

ghost use Rattle.std.specs.Prelude.{◌≡◌, ℕ, List, [], ◌∷◌, ◌≤◌, ◌<◌, T};
ghost use Rattle.rules.specs.Syntax.{Gate};
ghost use Rattle.rules.specs.Errors.{pair_bytes};
ghost use Rattle.rules.specs.Graph.{reaches, leaders as leaders_of};
ghost use Rattle.rules.specs.Order.{order as order_of};
ghost use Rattle.rules.specs.Calls.{Call, stmt_calls, edge, group_error, recursion_errors};
ghost use Rattle.theorems.specs.Words.{Within};
ghost use Rattle.views.specs.View.{name_in, call_in};
ghost use Rattle.output.specs.Writers.{Writes, Says};
ghost use Rattle.graph.specs.Rows.{listed};
ghost use Rattle.calls.specs.Collecting.{Numbered, named, calls_in, Added, Has};
ghost use Rattle.calls.specs.Telling.{span_by, pairs_by, Defined, Shown};

use graph::{Gates, Graph};
use items::four_at;
use output::Writer;
use tables::{find_gate, store, word};
use views::{Fields, name};

// ---- the graph

// The number of the gate that a GATE or a CALL names, if there is one.
fn number_of(p: &[u8], gates: &[u64]) -> Option<usize>
    ensures { result ≡ named gates.now (name_in p.now 8) }
{
    find_gate(gates, name(p, 8)).map(|h| h.number as usize)
}

// The calls met so far, and the span of the earliest call of each gate by each, 128 to a row, where there is room for all.
#[derive(Drop)]
struct Calls<'a> {
    graph: Graph,
    spans: &'a mut [u64],
}

impl Calls<'_> {
    // One call more; its span where it is the first of its kind.
    fn add(&mut self, from: usize, to: usize, span: u64)
        ensures same { self.new.spans.ghost_name ≡ self.old.spans.ghost_name }
        ensures added { Added (record { from = from; to = to; span = span } ∷ []) self.old self.new }
    {
        if from < 128 && to < 128 && !self.graph.calls(from, to) {
            store(self.spans, 128 * from + to, span);
            self.graph.link(from, to);
        }
    }

    // The CALL with the payload p, by the gate with a number: it counts even when its arity is wrong. A name that is no gate's is no call.
    fn meet(&mut self, p: &[u8], gates: &[u64], from: usize)
        ensures same { self.new.spans.ghost_name ≡ self.old.spans.ghost_name }
        ensures added { (n : ℕ) (gs : List Gate) → Numbered gates.now n gs → Added (stmt_calls gs from (call_in p.now)) self.old self.new }
    {
        if let Some(to) = number_of(p, gates) {
            self.add(from, to, four_at(p, 0));
        }
    }
}

// The calls in the bodies of an image, and the spans of the earliest ones where there is room for all. In a body each CALL counts, whether an IF governs it
// or not. A gate seen before has the number of its first entry, so its calls count as that one's.
pub fn collect_calls(img: &[u8], gates: &[u64], n: usize, spans: &mut [u64]) -> Graph
    ensures { (gs : List Gate) → Numbered gates.now n gs → Has (calls_in gs img.now) result.rows spans.new }
{
    let mut calls = Calls {
        graph: Graph::new(),
        spans,
    };
    let mut from = 0;
    for f in Fields::of(img) {
        if f.inside {
            if f.tag == 21 {
                calls.meet(f.payload, gates, from);
            }
        } else if f.tag == 5 {
            from = number_of(f.payload, gates).unwrap_or(n);
        }
    }
    calls.graph
}

// ---- the errors

// What the errors are told from: the calls between n gates, the gates' declaration spans by number, and the spans of the earliest calls.
#[derive(Clone, Copy)]
struct Tables<'a> {
    n: usize,
    graph: &'a Graph,
    defs: &'a [u64],
    spans: &'a [u64],
}

impl Tables<'_> {
    // The span of the earliest call of h by g.
    #[tactic(auto, unfolding(crate::specs::Telling::span_by))]
    fn span_of(&self, g: usize, h: usize) -> u64
        ensures { result ≡ span_by self.now.spans.now g h }
    {
        if g < 128 && h < 128 {
            return word(self.spans, 128 * g + h);
        }
        0
    }

    // For each gate of a cycle that starts at g, its definition span and the span of the earliest call from the gate before.
    fn put_pairs(&self, w: &mut Writer, g: usize, cycle: &[u64])
        ensures { Writes w.old (pair_bytes (pairs_by self.now.defs.now self.now.spans.now g cycle.now)) w.new }
    {
        let mut from = g;
        for &h in cycle {
            let to = h as usize;
            w.put4(word(self.defs, to));
            w.put4(self.span_of(from, to));
            from = to;
        }
    }

    // The error of the group whose lowest gate is g.
    fn tell_group(&self, w: &mut Writer, g: usize)
        ensures same { w.new.out.ghost_name ≡ w.old.out.ghost_name }
        ensures says { (gs : List Gate) (cs : List Call) → Shown gs cs self.now → g < self.now.n → T (reaches self.now.n (edge cs) g g) → Says w.old (group_error gs cs g ∷ []) w.new }
    {
        let cycle = self.graph.cycle(self.n, g);
        w.put_head(4, 8 * cycle.count as u64);
        self.put_pairs(w, g, cycle.as_slice());
    }

    // The errors of the groups whose lowest gates are listed.
    fn tell_groups(&self, w: &mut Writer, lowest: &[u64])
        ensures same { w.new.out.ghost_name ≡ w.old.out.ghost_name }
        ensures says { (gs : List Gate) (cs : List Call) → Shown gs cs self.now → lowest.now ≡ leaders_of self.now.n (edge cs) → Says w.old (recursion_errors gs cs) w.new }
    {
        for &g in lowest {
            self.tell_group(w, g as usize);
        }
    }
}

// The groups are told by the graph collected anew, with the spans.
fn tell_recursion(w: &mut Writer, img: &[u8], gates: &[u64], defs: &[u64], n: usize, lowest: &[u64])
    ensures same { w.new.out.ghost_name ≡ w.old.out.ghost_name }
    ensures says { (gs : List Gate) → Numbered gates.now n gs → Defined defs.now n gs → Within n (edge (calls_in gs img.now)) → lowest.now ≡ leaders_of n (edge (calls_in gs img.now)) → Says w.old (recursion_errors gs (calls_in gs img.now)) w.new }
{
    let mut spans = [0; 16384];
    let graph = collect_calls(img, gates, n, &mut spans);
    let tables = Tables {
        n,
        graph: &graph,
        defs,
        spans: &spans,
    };
    tables.tell_groups(w, lowest);
}

// The recursion of the n gates of a table, with their declaration spans by number. (The image and the tables go apart, as the promise names them.)
pub fn check_recursion(w: &mut Writer, img: &[u8], gates: &[u64], defs: &[u64], n: usize)
    ensures same { w.new.out.ghost_name ≡ w.old.out.ghost_name }
    ensures says { (gs : List Gate) → Numbered gates.now n gs → Defined defs.now n gs → Within n (edge (calls_in gs img.now)) → Says w.old (recursion_errors gs (calls_in gs img.now)) w.new }
{
    let graph = collect_calls(img, gates, n, &mut []);
    let lowest = graph.leaders(n);
    if lowest.count != 0 {
        tell_recursion(w, img, gates, defs, n, lowest.as_slice());
    }
}

// The n gates of a table, callees first.
pub fn call_order(img: &[u8], gates: &[u64], n: usize) -> Gates
    ensures { (gs : List Gate) → Numbered gates.now n gs → n ≤ 128 → Within n (edge (calls_in gs img.now)) → listed result ≡ order_of n (edge (calls_in gs img.now)) }
{
    let graph = collect_calls(img, gates, n, &mut []);
    graph.order(n)
}
