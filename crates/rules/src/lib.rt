// The types that the rules and the code share, and the number that 01 gives an answer and a refusal.
#![tactic(auto)]

// A register, or one bit of it: its name by number, and its index where it has one. (A flag beside the index and no Option: of bytes that are no image
// `views` `operand_in` gives any pair of them, and `operand_bytes` writes both.)
#[derive(Clone, Copy)]
pub struct Operand {
    pub span: u64,
    pub name: u64,
    pub indexed: bool,
    pub index: u64,
}

// A parameter or an argument of a gate.
#[derive(Clone, Copy)]
pub struct Named {
    pub span: u64,
    pub name: u64,
}

// Why an image is refused. `specs/Answers.antt` gives 01's number of each.
#[derive(Clone, Copy, Debug, PartialEq, Eq)]
pub enum Fault {
    TooLong,
    Cut,
    BadTag,
    BadItem,
    BadName,
    TooMany,
}

// What was read and the place after it, or why it can't be.
pub type Read<T> = Result<(T, usize), Fault>;

// What the fields before a place leave: the counts of names, gate definitions and registers, of the IFs right before the place,
// whether a body is open, and whether a field that is no NAME was met.
#[derive(Clone, Copy)]
pub struct Counts {
    pub names: u64,
    pub gates: u64,
    pub regs: u64,
    pub ifs: u64,
    pub body: bool,
    pub begun: bool,
}

// The first entry of a gate's name: its number, its counts of parameters and arguments, and its declaration span.
#[derive(Clone, Copy)]
pub struct Header {
    pub number: u64,
    pub params: u64,
    pub args: u64,
    pub decl: u64,
}

// What a name stands for where a statement stands: a register, or an argument of a gate.
#[derive(Clone, Copy)]
pub struct Reg {
    pub name: u64,
    pub span: u64,
    pub classical: bool,
    pub size: u64,
}

// What matching has fixed: a size and its span; size 1 where nothing is yet.
#[derive(Clone, Copy)]
pub struct Match {
    pub size: u64,
    pub span: u64,
}

// What a service answers. `specs/Answers.antt` gives the table's number and the two values of each.
#[derive(Clone, Copy)]
pub enum Answer {
    Done { items: usize, bytes: usize },
    Errors { errors: usize, bytes: usize },
    Refused { fault: Fault, offset: usize },
    Rejected,
    Machine,
    Entries,
    Room { items: usize, bytes: usize },
}

// 01's number of a refusal.
impl From<Fault> for u64 {
    ghost use Rattle.std.specs.Prelude.{◌≡◌};
    ghost use Rattle.rules.specs.Answers.{fault_number};

    ghost from_gives = { λ fault n. n ≡ fault_number fault };

    fn from(fault: Fault) -> u64 {
        match fault {
            Fault::TooLong => 2,
            Fault::Cut => 3,
            Fault::BadTag => 4,
            Fault::BadItem => 5,
            Fault::BadName => 6,
            Fault::TooMany => 7,
        }
    }
}

// 01's number of an answer.
impl From<Answer> for u64 {
    ghost use Rattle.std.specs.Prelude.{◌≡◌};
    ghost use Rattle.rules.specs.Answers.{number};

    ghost from_gives = { λ answer n. n ≡ number answer };

    fn from(answer: Answer) -> u64 {
        match answer {
            Answer::Done { .. } => 0,
            Answer::Errors { .. } => 1,
            Answer::Refused { fault, .. } => u64::from(fault),
            Answer::Rejected => 8,
            Answer::Machine => 9,
            Answer::Entries => 10,
            Answer::Room { .. } => 11,
        }
    }
}
