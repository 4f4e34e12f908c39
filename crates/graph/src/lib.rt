// Groups, cycles and the order of a graph of calls.
#![tactic(auto)]

ghost use Rattle.std.specs.Prelude.{◌≡◌, ◌&&◌, [], ◌<◌, ◌≤◌, T, eqb, ltb, length, get_or};
ghost use Rattle.rules.specs.Basics.{first};
ghost use Rattle.rules.specs.Graph.{reaches, leaders as leaders_of, cycle as cycle_of};
ghost use Rattle.rules.specs.Order.{order as order_of};
ghost use Rattle.graph.specs.Rows.{row_of, calls as calls_in, linked, listed, NoCalls, OneMore, Passed, Reached, lowest_by, Spread, Lapped, below, next_by, Marks, ready_by};

mod gates; // gates.rt: gates in a row
pub mod sets; // sets.rt: sets of gates

pub use gates::Gates;
use sets::Set;

// ---- the graph

// For each of 128 gates the set of those that it calls.
#[derive(Clone, Copy)]
pub struct Graph {
    pub rows: [Set; 128],
    ghost wide: { length rows ≡ 128 },
}

impl Graph {
    // No gate calls one.
    pub fn new() -> Graph
        ensures { NoCalls result.rows }
    {
        Graph {
            rows: [Set::EMPTY; 128],
        }
    }

    // The gates that u calls; none where it is not below 128.
    fn row(&self, u: usize) -> Set
        ensures { result ≡ row_of self.now.rows u }
    {
        if u < 128 {
            return self.rows[u];
        }
        Set::EMPTY
    }

    // u calls w, where both are below 128.
    pub fn calls(&self, u: usize, w: usize) -> bool
        ensures { result ≡ (ltb u 128 && calls_in self.now.rows u w) }
    {
        self.row(u).contains(w)
    }

    // One call more; nothing where a gate is not below 128.
    pub fn link(&mut self, u: usize, w: usize)
        ensures { OneMore u w self.old.rows self.new.rows }
    {
        if u < 128 {
            self.rows[u] = self.row(u).with(w);
        }
    }

    // Gate k may be passed through: a gate that reaches it reaches what it reaches.
    fn pass(&mut self, n: usize, k: usize)
        requires { n ≤ 128 }
        ensures { Passed k n self.old.rows self.new.rows }
    {
        let through = self.row(k);
        for i in 0..n {
            let reached = self.row(i);
            if reached.contains(k) {
                self.rows[i] = reached.union(through);
            }
        }
    }

    // g and h reach each other.
    fn joins(&self, g: usize, h: usize) -> bool
        ensures { result ≡ (calls_in self.now.rows g h && calls_in self.now.rows h g) }
    {
        self.calls(g, h) && self.calls(h, g)
    }

    // In a table of who reaches whom: g is the lowest gate of a group with a cycle.
    fn leads(&self, g: usize) -> bool
        ensures { result ≡ lowest_by self.now.rows g }
    {
        self.calls(g, g) && !(0..g).any(|h| self.joins(g, h))
    }

    // u calls w, and away is k there.
    fn steps(&self, away: &[usize; 128], u: usize, k: usize, w: usize) -> bool
        ensures { result ≡ (calls_in self.now.rows u w && eqb (get_or away.now w 0) k) }
    {
        w < 128 && away[w] == k && self.calls(u, w)
    }

    // g is not placed while each gate that it calls is.
    fn is_ready(&self, placed: Set, g: usize) -> bool
        ensures { result ≡ ready_by self.now.rows placed g }
    {
        !placed.contains(g) && self.row(g).is_inside(placed)
    }

    // The lowest gates of the groups with a cycle, in rising order.
    pub fn leaders(&self, n: usize) -> Gates
        ensures { n ≤ 128 → listed result ≡ leaders_of n (linked n self.now.rows) }
    {
        if n <= 128 {
            return Part { graph: self, n }.leaders();
        }
        Gates::new()
    }

    // The cycle that is shown for a gate that reaches itself.
    pub fn cycle(&self, n: usize, g: usize) -> Gates
        ensures { n ≤ 128 → g < n → T (reaches n (linked n self.now.rows) g g) → listed result ≡ cycle_of n (linked n self.now.rows) g }
    {
        if n <= 128 && g < n {
            let part = Part { graph: self, n };
            return part.trace(g, &part.lap(g));
        }
        Gates::new()
    }

    // The gates, callees first.
    pub fn order(&self, n: usize) -> Gates
        ensures { n ≤ 128 → listed result ≡ order_of n (linked n self.now.rows) }
    {
        if n <= 128 {
            return Part { graph: self, n }.order();
        }
        Gates::new()
    }
}

// ---- its first gates

// The calls between the first n gates of a graph.
#[derive(Clone, Copy)]
struct Part<'a> {
    graph: &'a Graph,
    n: usize,
    ghost few: { n ≤ 128 },
}

// A shortest cycle through a gate: how many calls it has, and for each gate that is nearer to that one, one more than the calls to it; 0 for others.
#[derive(Clone, Copy)]
struct Lap {
    calls: usize,
    away: [usize; 128],
}

impl Part<'_> {
    // Who reaches whom by one call or more.
    fn closed(&self) -> Graph
        ensures { Reached self.now.n (linked self.now.n self.now.graph.now.rows) result.rows }
    {
        let mut reach = *self.graph;
        for k in 0..self.n {
            reach.pass(self.n, k);
        }
        reach
    }

    fn leaders(&self) -> Gates
        ensures { listed result ≡ leaders_of self.now.n (linked self.now.n self.now.graph.now.rows) }
    {
        let reach = self.closed();
        let mut list = Gates::new();
        for u in 0..self.n {
            if reach.leads(u) {
                list.push(u);
            }
        }
        list
    }

    // ---- the cycle

    // The gates one call further away: those not near that call one that is.
    fn further(&self, near: Set, k: usize, away: &mut [usize; 128]) -> Set
        requires { k < self.now.n }
        ensures { Spread k self.now.graph.now.rows near self.now.n away.old away.new result }
    {
        let mut r = near;
        for u in 0..self.n {
            // (few rows meet what is near, so that is asked first)
            if self.graph.row(u).meets(near) && !near.contains(u) {
                away[u] = k + 1;
                r = r.with(u);
            }
        }
        r
    }

    // A shortest cycle through g, and the gates nearer to g than its length.
    fn lap(&self, g: usize) -> Lap
        requires { g < self.now.n }
        ensures { Lapped self.now.n (linked self.now.n self.now.graph.now.rows) g result.calls result.away }
    {
        let out = self.graph.row(g);
        let mut near = Set::EMPTY.with(g);
        let mut away = [0; 128];
        away[g] = 1;
        for k in 1..self.n {
            if out.meets(near) {
                return Lap { calls: k, away };
            }
            near = self.further(near, k, &mut away);
        }
        Lap {
            calls: self.n,
            away,
        }
    }

    // The lowest gate that u calls and at which away is k.
    fn next_gate(&self, away: &[usize; 128], u: usize, k: usize) -> Option<usize>
        ensures { u < self.now.n → result ≡ below self.now.n (next_by self.now.n (linked self.now.n self.now.graph.now.rows) away.now u k) }
    {
        (0..self.n).find(|&w| self.graph.steps(away, u, k, w))
    }

    // The gates of the cycle through g, by the distances to g.
    fn trace(&self, g: usize, lap: &Lap) -> Gates
        requires { (g < self.now.n) × Lapped self.now.n (linked self.now.n self.now.graph.now.rows) g lap.now.calls lap.now.away }
        ensures { T (reaches self.now.n (linked self.now.n self.now.graph.now.rows) g g) → listed result ≡ cycle_of self.now.n (linked self.now.n self.now.graph.now.rows) g }
    {
        let mut list = Gates::new();
        let mut u = g;
        for i in 0..lap.calls {
            let Some(w) = self.next_gate(&lap.away, u, lap.calls - i) else {
                return list;
            };
            list.push(w);
            u = w;
        }
        list
    }

    // ---- the order

    // The lowest gate that is ready.
    fn lowest(&self, placed: Set) -> Option<usize>
        ensures { result ≡ below self.now.n (first self.now.n (ready_by self.now.graph.now.rows placed)) }
    {
        (0..self.n).find(|&g| self.graph.is_ready(placed, g))
    }

    fn order(&self) -> Gates
        ensures { listed result ≡ order_of self.now.n (linked self.now.n self.now.graph.now.rows) }
    {
        let mut list = Gates::new();
        let mut placed = from_on(self.n);
        for _ in 0..self.n {
            let Some(u) = self.lowest(placed) else {
                return list;
            };
            list.push(u);
            placed = placed.with(u);
        }
        list
    }
}

// The gates from n on.
fn from_on(n: usize) -> Set
    ensures { Marks n [] result }
{
    let mut r = Set::EMPTY;
    for u in n..128 {
        r = r.with(u);
    }
    r
}
