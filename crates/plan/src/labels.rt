// The steps of a pattern by their label: which label fits is decided here alone.
ghost use Rattle.std.specs.Prelude.{◌≡◌};
ghost use Rattle.tables.specs.Bits.{Marks};
ghost use Rattle.tables.specs.Pattern.{Shape, shape_of};
ghost use Rattle.plan.specs.Steps.{OfLabel, no_labels, Labelled};

use crate::one_bit;
use tables::{RightPattern, StepNo};

// The values of a byte.
pub const BYTE: usize = 256;

// The steps by the low byte and by the high byte of their label.
#[derive(Drop)]
pub struct Labels {
    low: [u64; BYTE],
    high: [u64; BYTE],
}

impl Labels {
    // No step.
    pub fn none() -> Labels
        ensures { result ≡ no_labels }
    {
        Labels {
            low: [0; BYTE],
            high: [0; BYTE],
        }
    }

    // The steps of p come to none.
    pub fn fill(&mut self, p: RightPattern<'_>)
        requires { self.old ≡ no_labels }
        ensures { Labelled (shape_of p.entry.table.now) self.new }
    {
        let labels = &p.table.label[..p.table.count];
        for (s, label) in labels.iter().enumerate() {
            let [low, high] = label.to_le_bytes();
            let own = one_bit(StepNo(s as u8));
            self.low[usize::from(low)] |= own;
            self.high[usize::from(high)] |= own;
        }
    }

    // The steps that fit a row of this label by their label.
    pub fn of(&self, label: u16) -> u64
        ensures { (A : Shape) → Labelled A self.now → Marks result (OfLabel A label) }
    {
        let [low, high] = label.to_le_bytes();
        self.low[usize::from(low)] & self.high[usize::from(high)]
    }
}
