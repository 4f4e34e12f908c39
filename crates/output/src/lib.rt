// Fields written to a lent buffer as far as they fit, and counted whole: the same methods count first, over an empty buffer, and write second.
#![tactic(auto, unfolding(rules::specs::Errors::error_field, rules::specs::Answers::flat))]

ghost use Rattle.std.specs.Prelude.{◌≡◌, [], ◌∷◌, ◌++◌};
ghost use Rattle.rules.specs.Errors.{bytes2, bytes4, bytes8, bit, operand_bytes, tagged, redefined_gate, redefined_argument, redefined_parameter, zero_size_register, redefined_register, undefined_parameter, invalid_comparison_size, wrong_argument_arity, wrong_parameter_arity, undefined_gate, wrong_operand_size, invalid_register_index, wrong_register_type, undefined_register};
ghost use Rattle.output.specs.Bytes.{Wrote};
ghost use Rattle.output.specs.Writers.{Writes, Field, Says};
ghost use Rattle.output.specs.Sinks.{start};

use rules::Operand;

// What was written so far: how many fields, and how many bytes, also those that found no room.
#[derive(Clone, Copy)]
pub struct Sink {
    pub items: usize,
    pub bytes: usize,
}

// One byte at a place of a buffer, where there is room for it, and the place after it. (A place stops at the largest number, which no buffer reaches.)
pub fn put1(out: &mut [u8], at: usize, b: u8) -> usize
    ensures { Wrote out.old at (b ∷ []) out.new result }
{
    if at < out.len() {
        out[at] = b;
    }
    at.saturating_add(1)
}

// A lent buffer, and what was written to it.
#[derive(Drop)]
pub struct Writer<'a> {
    pub out: &'a mut [u8],
    pub sink: Sink,
}

impl<'a> Writer<'a> {
    // At the front of a buffer, with nothing written yet.
    pub fn on(out: &'a mut [u8]) -> Writer<'a>
        ensures same { result.out.ghost_name ≡ out.entry.ghost_name }
        ensures held { result.out.now ≡ out.old }
        ensures none { result.sink ≡ start }
    {
        Writer {
            out,
            sink: Sink { items: 0, bytes: 0 },
        }
    }

    // ---- bytes: a method for each size, since each promises the size's own definition

    // One byte more.
    pub fn put1(&mut self, b: u8)
        ensures { Writes self.old (b ∷ []) self.new }
    {
        self.sink.bytes = put1(self.out, self.sink.bytes, b);
    }

    // Bytes in a row. (The place is kept in hand: stored and loaded again at each byte, it would have each byte wait for the one before.)
    fn put(&mut self, bytes: &[u8])
        ensures { Writes self.old bytes.now self.new }
    {
        let out = &mut *self.out;
        let mut at = self.sink.bytes;
        for &b in bytes {
            at = put1(out, at, b);
        }
        self.sink.bytes = at;
    }

    pub fn put2(&mut self, v: u64)
        ensures { Writes self.old (bytes2 v) self.new }
    {
        self.put(&v.to_le_bytes()[..2]);
    }

    pub fn put4(&mut self, v: u64)
        ensures { Writes self.old (bytes4 v) self.new }
    {
        self.put(&v.to_le_bytes()[..4]);
    }

    pub fn put8(&mut self, v: u64)
        ensures { Writes self.old (bytes8 v) self.new }
    {
        self.put(&v.to_le_bytes());
    }

    pub fn put_flag(&mut self, v: bool)
        ensures { Writes self.old (bit v ∷ []) self.new }
    {
        self.put1(u8::from(v));
    }

    fn put_operand(&mut self, o: Operand)
        ensures { Writes self.old (operand_bytes o) self.new }
    {
        self.put4(o.span);
        self.put2(o.name);
        self.put_flag(o.indexed);
        self.put8(o.index);
    }

    // ---- fields

    // A field's tag and length. The field is counted here, once for all its bytes.
    pub fn put_head(&mut self, tag: u8, len: u64)
        ensures { Field self.old (tag ∷ bytes2 len) self.new }
    {
        self.put1(tag);
        self.put2(len);
        self.sink.items = self.sink.items.saturating_add(1);
    }

    fn put_named(&mut self, tag: u8, span: u64, name: u64, decl: u64, prev: u64)
        ensures { Field self.old (tagged tag (bytes4 span ++ (bytes2 name ++ (bytes4 decl ++ bytes4 prev)))) self.new }
    {
        self.put_head(tag, 14);
        self.put4(span);
        self.put2(name);
        self.put4(decl);
        self.put4(prev);
    }

    fn put_arity(&mut self, tag: u8, stmt: u64, def: u64, name: u64, arity: u64, actual: u64)
        ensures { Field self.old (tagged tag (bytes4 stmt ++ (bytes4 def ++ (bytes2 name ++ (bytes8 arity ++ bytes8 actual))))) self.new }
    {
        self.put_head(tag, 26);
        self.put4(stmt);
        self.put4(def);
        self.put2(name);
        self.put8(arity);
        self.put8(actual);
    }

    // ---- the errors, in the order of their kinds: a method for each, since each promises its own constructor

    pub fn redefined_gate(&mut self, span: u64, name: u64, decl: u64, prev: u64)
        ensures { Says self.old (redefined_gate span name decl prev ∷ []) self.new }
    {
        self.put_named(1, span, name, decl, prev);
    }

    pub fn redefined_argument(&mut self, span: u64, name: u64, decl: u64, prev: u64)
        ensures { Says self.old (redefined_argument span name decl prev ∷ []) self.new }
    {
        self.put_named(2, span, name, decl, prev);
    }

    pub fn redefined_parameter(&mut self, span: u64, name: u64, decl: u64, prev: u64)
        ensures { Says self.old (redefined_parameter span name decl prev ∷ []) self.new }
    {
        self.put_named(3, span, name, decl, prev);
    }

    pub fn zero_size_register(&mut self, reg: u64, decl: u64)
        ensures { Says self.old (zero_size_register reg decl ∷ []) self.new }
    {
        self.put_head(5, 8);
        self.put4(reg);
        self.put4(decl);
    }

    pub fn redefined_register(&mut self, reg: Operand, decl: u64, prev: u64)
        ensures { Says self.old (redefined_register reg decl prev ∷ []) self.new }
    {
        self.put_head(6, 23);
        self.put_operand(reg);
        self.put4(decl);
        self.put4(prev);
    }

    pub fn undefined_parameter(&mut self, name: u64, stmt: u64, span: u64)
        ensures { Says self.old (undefined_parameter name stmt span ∷ []) self.new }
    {
        self.put_head(7, 10);
        self.put2(name);
        self.put4(stmt);
        self.put4(span);
    }

    pub fn invalid_comparison_size(
        &mut self,
        reg: u64,
        value: u64,
        stmt: u64,
        reg_size: u64,
        value_size: u64,
    )
        ensures { Says self.old (invalid_comparison_size reg value stmt reg_size value_size ∷ []) self.new }
    {
        self.put_head(8, 28);
        self.put4(reg);
        self.put4(value);
        self.put4(stmt);
        self.put8(reg_size);
        self.put8(value_size);
    }

    pub fn wrong_argument_arity(&mut self, stmt: u64, def: u64, name: u64, arity: u64, actual: u64)
        ensures { Says self.old (wrong_argument_arity stmt def name arity actual ∷ []) self.new }
    {
        self.put_arity(9, stmt, def, name, arity, actual);
    }

    pub fn wrong_parameter_arity(&mut self, stmt: u64, def: u64, name: u64, arity: u64, actual: u64)
        ensures { Says self.old (wrong_parameter_arity stmt def name arity actual ∷ []) self.new }
    {
        self.put_arity(10, stmt, def, name, arity, actual);
    }

    pub fn undefined_gate(&mut self, span: u64, name: u64, stmt: u64)
        ensures { Says self.old (undefined_gate span name stmt ∷ []) self.new }
    {
        self.put_head(11, 10);
        self.put4(span);
        self.put2(name);
        self.put4(stmt);
    }

    pub fn wrong_operand_size(
        &mut self,
        stmt: u64,
        span: u64,
        size: u64,
        match_span: u64,
        match_size: u64,
    )
        ensures { Says self.old (wrong_operand_size stmt span size match_span match_size ∷ []) self.new }
    {
        self.put_head(12, 28);
        self.put4(stmt);
        self.put4(span);
        self.put8(size);
        self.put4(match_span);
        self.put8(match_size);
    }

    pub fn invalid_register_index(
        &mut self,
        name: u64,
        index: u64,
        size: u64,
        reg: u64,
        def: u64,
        stmt: u64,
    )
        ensures { Says self.old (invalid_register_index name index size reg def stmt ∷ []) self.new }
    {
        self.put_head(13, 30);
        self.put2(name);
        self.put8(index);
        self.put8(size);
        self.put4(reg);
        self.put4(def);
        self.put4(stmt);
    }

    pub fn wrong_register_type(&mut self, name: u64, def: u64, stmt: u64, reg: u64, classical: bool)
        ensures { Says self.old (wrong_register_type name def stmt reg classical ∷ []) self.new }
    {
        self.put_head(14, 15);
        self.put2(name);
        self.put4(def);
        self.put4(stmt);
        self.put4(reg);
        self.put_flag(classical);
    }

    pub fn undefined_register(&mut self, name: u64, reg: u64, stmt: u64)
        ensures { Says self.old (undefined_register name reg stmt ∷ []) self.new }
    {
        self.put_head(15, 10);
        self.put2(name);
        self.put4(reg);
        self.put4(stmt);
    }
}
