// Gates in a row: a contract says `take count gates`, which is `listed` of specs/Rows.antt. (01 asks for this form, an array beside its count.)
ghost use Rattle.std.specs.Prelude.{◌≡◌, ◌+◌, ◌<◌, ◌≤◌, [], ◌∷◌, ◌++◌, take};

#[derive(Clone, Copy)]
pub struct Gates {
    pub gates: [u64; 128],
    pub count: usize,
    ghost fits: { count ≤ 128 },
}

impl Gates {
    pub(crate) fn new() -> Gates
        ensures { (result.count ≡ 0) × (take result.count result.gates ≡ []) }
    {
        Gates {
            gates: [0; 128],
            count: 0,
        }
    }

    pub(crate) fn push(&mut self, g: usize)
        requires { self.old.count < 128 }
        ensures { (self.new.count ≡ self.old.count + 1) × (take self.new.count self.new.gates ≡ take self.old.count self.old.gates ++ (g ∷ [])) }
    {
        self.gates[self.count] = g as u64;
        self.count += 1;
    }

    pub fn as_slice(&self) -> &[u64]
        ensures { result.now ≡ take self.now.count self.now.gates }
    {
        &self.gates[..self.count]
    }
}
