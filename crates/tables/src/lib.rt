// The kinds of number, both kinds of table and the refusals that every call speaks of (docs/RULES.md, "Tables" and "Refusals").

#![tactic(auto)]

ghost use Rattle.std.specs.Prelude.{◌<◌, ◌≡◌};
ghost use Rattle.tables.specs.Pattern.{zero_pattern, pushed};
ghost use Rattle.tables.specs.Refusal.{number};

mod checks;
mod right;
mod table;

pub use checks::{check_document, check_pattern};
pub use right::{RightDocument, RightPattern};

// The most steps that a pattern has, and the most nodes of a document.
pub const STEPS: usize = 64;

pub const NODES: usize = 2048;

// The number of a step in a pattern.
// kept: two tuple structs that are alike, here and below (docs/DECISIONS.md, "Forms"), so that no step's number is taken for a node's.
#[derive(Clone, Copy, PartialEq, Eq)]
pub struct StepNo(pub u8);

// The number of a node in a document.
#[derive(Clone, Copy, PartialEq, Eq)]
pub struct NodeNo(pub u16);

// A pattern: the first `count` entries of the three arrays are its steps, the others are not read.
// kept: arrays of 64 with a count beside them, since every such table may be handed to a call: a count past 64 is refused by `check_pattern`, and what stands
// past the steps is not looked at (`Clean`, and the program `corners`). Three arrays and not one of structs: no plainer, since the definitions speak of
// columns (`table_of`).
// kept: an axis is a number, and so wherever one is handed on: every byte may be handed to a call, `check_pattern` refuses those past 1, and the definitions
// speak of numbers.
#[derive(Clone, Copy)]
pub struct Pattern {
    pub parent: [StepNo; STEPS],
    pub axis: [u8; STEPS],
    pub label: [u16; STEPS],
    pub count: usize,
    pub output: StepNo,
}

impl Pattern {
    // One step more, after the others.
    pub fn push(&mut self, parent: StepNo, axis: u8, label: u16)
        requires { self.old.count < 64 }
        ensures { self.new ≡ pushed self.old parent axis label }
    {
        let s = self.count;
        self.parent[s] = parent;
        self.axis[s] = axis;
        self.label[s] = label;
        self.count = s + 1;
    }
}

// A document as it is lent: the parents and the labels of its nodes.
#[derive(Clone, Copy)]
pub struct Lists<'a> {
    pub parents: &'a [u16],
    pub labels: &'a [u16],
}

// The reasons for which a call refuses. `number` of specs/Refusal.antt gives each its number, `u8::from` the same in code.
#[derive(Clone, Copy, PartialEq, Eq)]
pub enum Refusal {
    Version,
    Length,
    BadPattern,
    BadDocument,
    Room,
    Start,
    OtherLabel,
    TooLarge,
    NoLabel,
}

impl From<Refusal> for u8 {
    ghost from_gives = { λ r n. n ≡ number r };

    fn from(r: Refusal) -> u8 {
        match r {
            Refusal::Version => 1,
            Refusal::Length => 2,
            Refusal::BadPattern => 3,
            Refusal::BadDocument => 4,
            Refusal::Room => 5,
            Refusal::Start => 6,
            Refusal::OtherLabel => 7,
            Refusal::TooLarge => 8,
            Refusal::NoLabel => 9,
        }
    }
}

// The pattern of no steps: nothing but zeros. Every pattern that is made is filled in from it.
pub fn no_pattern() -> Pattern
    ensures { result ≡ zero_pattern }
{
    Pattern {
        parent: [StepNo(0); STEPS],
        axis: [0; STEPS],
        label: [0; STEPS],
        count: 0,
        output: StepNo(0),
    }
}
