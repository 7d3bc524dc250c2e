// The edges of a pattern: which steps hang on which, and how.
ghost use Rattle.std.specs.Prelude.{◌≡◌, ℕ, get_or};
ghost use Rattle.tables.specs.Bits.{Marks};
ghost use Rattle.tables.specs.Tree.{Child};
ghost use Rattle.tables.specs.Pattern.{Shape, shape_of};
ghost use Rattle.plan.specs.Steps.{SetsOf, Missing};
ghost use Rattle.plan.specs.Leading.{ToParent, no_edges};

use crate::one_bit;
use tables::{RightPattern, STEPS, StepNo};

// Steps of a pattern past step 0: those of each axis, and those that hang on the step just before them; and the steps on which another than the next hangs.
#[derive(Clone, Copy, Default)]
pub struct Sets {
    pub child: u64,
    pub descendant: u64,
    pub next: u64,
    pub forked: u64,
}

impl Sets {
    // The steps that have no place below a row: c has the steps with a place at a child edge of it, d those with one anywhere below.
    pub fn missing(self, c: u64, d: u64) -> u64
        ensures { (A : Shape) → SetsOf A self → Marks result (Missing A c d) }
    {
        let all = self.child | self.descendant;
        let have = (c & self.child) | (d & self.descendant);
        all ^ (all & have)
    }
}

// The sets; the child steps of each step; and the parent of each, as a set.
#[derive(Drop)]
pub struct Edges {
    pub sets: Sets,
    pub children: [u64; STEPS],
    pub parents: [u64; STEPS],
}

impl Edges {
    // No edge.
    pub fn none() -> Edges
        ensures { result ≡ no_edges }
    {
        Edges {
            sets: Sets::default(),
            children: [0; STEPS],
            parents: [0; STEPS],
        }
    }

    // The edges of p come to none.
    pub fn fill(&mut self, p: RightPattern<'_>)
        requires { self.old ≡ no_edges }
        ensures sets { SetsOf (shape_of p.entry.table.now) self.new.sets }
        ensures down { (s : ℕ) → Marks (get_or self.new.children s 0) (Child (shape_of p.entry.table.now).tree s) }
        ensures up { (t : ℕ) → Marks (get_or self.new.parents t 0) (ToParent (shape_of p.entry.table.now) t) }
    {
        let mut sets = self.sets;
        // kept: past step 0, over two arrays of p into two others by number; enumerate, skip and zip would hide that
        for t in 1..p.table.count {
            let parent = p.table.parent[t];
            let own = one_bit(StepNo(t as u8));
            let up = one_bit(parent);
            let over = usize::from(parent.0);
            self.children[over] |= own;
            self.parents[t] = up;
            if p.table.axis[t] == 0 {
                sets.child |= own;
            } else {
                sets.descendant |= own;
            }
            if over + 1 == t {
                sets.next |= own;
            } else {
                sets.forked |= up;
            }
        }
        self.sets = sets;
    }
}
