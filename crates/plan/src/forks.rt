// The steps of a pattern that have other child steps than the step just after them.
ghost use Rattle.std.specs.Prelude.{◌≡◌, ◌≤◌, ℕ, length};
ghost use Rattle.tables.specs.Bits.{Marks};
ghost use Rattle.plan.specs.Leading.{Groups, Reached};

use crate::one_bit;
use tables::{STEPS, StepNo};

// Such a step, as a bit, and these child steps, as bits.
#[derive(Clone, Copy)]
pub struct Fork {
    step: u64,
    later: u64,
}

// The first `count` entries.
#[derive(Drop)]
pub struct Forks {
    list: [Fork; STEPS],
    count: usize,
    ghost few: { count ≤ 64 },
}

impl Forks {
    pub fn none() -> Forks
        ensures { result.count ≡ 0 }
    {
        Forks {
            list: [Fork { step: 0, later: 0 }; STEPS],
            count: 0,
        }
    }

    // From the child steps of each step: those that have others than those of `next`, with these others.
    pub fn fill(&mut self, children: &[u64], next: u64)
        requires { length children.now ≤ 64 }
        ensures { Groups children.now next (length children.now) self.new.count self.new.list }
    {
        let mut count = 0;
        for (s, steps) in children.iter().enumerate() {
            let later = steps ^ (steps & next);
            if later != 0 {
                self.list[count] = Fork {
                    step: one_bit(StepNo(s as u8)),
                    later,
                };
                count += 1;
            }
        }
        self.count = count;
    }

    // The steps whose later child steps are among those of m.
    pub fn reached(&self, m: u64) -> u64
        ensures { Marks result (Reached self.now.list m self.now.count) }
    {
        let mut x: u64 = 0;
        for fork in &self.list[..self.count] {
            if m & fork.later != 0 {
                x |= fork.step;
            }
        }
        x
    }
}
