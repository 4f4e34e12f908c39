// Sets of gates below 128, as the binary digits of a number.
ghost use Rattle.std.specs.Prelude.{◌≡◌, ◌&&◌, ◌||◌, not, ℕ, ◌<◌, eqb};
ghost use Rattle.rules.specs.Basics.{any};
ghost use Rattle.graph.specs.Sets.{holds};

#[derive(Clone, Copy)]
pub struct Set {
    pub gates: u128,
}

impl Set {
    pub const EMPTY: Set = Set { gates: 0 };

    // By a shift of the half that has the digit: a u64 is shifted by one instruction, a u128 by several.
    pub fn contains(self, j: usize) -> bool
        ensures { result ≡ holds self j }
    {
        if j < 64 {
            return ((self.gates % 0x1_0000_0000_0000_0000) as u64 >> j) % 2 == 1;
        }
        j < 128 && ((self.gates >> 64) as u64 >> (j - 64)) % 2 == 1
    }

    // One gate more, by a shift within its half.
    pub fn with(self, j: usize) -> Set
        ensures { (k : ℕ) → k < 128 → holds result k ≡ (eqb j k || holds self k) }
    {
        if j < 64 {
            return Set {
                gates: self.gates | (1u64 << j) as u128,
            };
        }
        if j < 128 {
            return Set {
                gates: self.gates | ((1u64 << (j - 64)) as u128) << 64,
            };
        }
        self
    }

    pub fn union(self, other: Set) -> Set
        ensures { (k : ℕ) → holds result k ≡ (holds self k || holds other k) }
    {
        Set {
            gates: self.gates | other.gates,
        }
    }

    // The two have a gate in common.
    pub fn meets(self, other: Set) -> bool
        ensures { result ≡ any 128 (λ k. holds self k && holds other k) }
    {
        self.gates & other.gates != 0
    }

    // Each gate of the set is one of the other.
    pub fn is_inside(self, other: Set) -> bool
        ensures { result ≡ not (any 128 (λ k. holds self k && not (holds other k))) }
    {
        self.gates | other.gates == other.gates
    }
}
