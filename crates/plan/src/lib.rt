// What a pass over rows looks up of a pattern, filled once for a call: which steps fit a label, and to which steps a set of steps leads. The steps are bits.
// An inner crate: its functions are there for the calls on Answers and Containment alone, and ask for what these have checked.

#![tactic(auto)]

ghost use Rattle.std.specs.Prelude.{◌≡◌, ◌↔◌, ℕ, ◌<◌, ◌^◌, T};
ghost use Rattle.tables.specs.Bits.{bit, Marks};
ghost use Rattle.tables.specs.Tree.{Child};
ghost use Rattle.tables.specs.Pattern.{Shape, shape_of};
ghost use Rattle.placing.specs.Placement.{LabelFits};
ghost use Rattle.plan.specs.Steps.{no_labels, SetsOf, Lacking, FitsBy};
ghost use Rattle.plan.specs.Leading.{ToParent, Led, no_table, Spread};
ghost use Rattle.plan.specs.Plans.{TablePlan, GroupPlan, DownPlan};

mod byte_table;
mod edges;
mod forks;
mod labels;

use byte_table::ByteTable;
pub use byte_table::TABLE;
use edges::Edges;
pub use edges::Sets;
use forks::Forks;
pub use labels::BYTE;
use labels::Labels;
use tables::{RightPattern, StepNo};

// The number with bit s alone.
// kept: that a step is below 64 is asked for, here and wherever a step is a bit: a StepNo may be any byte, and 255 is the parent of step 0.
pub fn one_bit(s: StepNo) -> u64
    requires { s.0 < 64 }
    ensures { result ≡ 2 ^ s.0 }
{
    1 << s.0
}

// Does x have bit s?
pub fn has_bit(x: u64, s: StepNo) -> bool
    requires { s.0 < 64 }
    ensures { T result ↔ (bit x s.0 ≡ 1) }
{
    (x >> s.0) % 2 == 1
}

// What the pass from the last node to the first looks up.
#[derive(Drop)]
pub struct UpwardPlan {
    labels: Labels,
    sets: Sets,
    parents: ByteTable,
}

impl UpwardPlan {
    // The plan of no pattern.
    // kept: filled where it stands, since a plan that a call makes and hands back is copied twice, 40 KB of each Answers call.
    pub fn none() -> UpwardPlan
        ensures { (result.labels ≡ no_labels) × (result.parents ≡ no_table) }
    {
        UpwardPlan {
            labels: Labels::none(),
            sets: Sets::default(),
            parents: ByteTable::none(),
        }
    }

    // The plan of p comes to that of no pattern.
    pub fn fill(&mut self, p: RightPattern<'_>)
        requires { (self.old.labels ≡ no_labels) × (self.old.parents ≡ no_table) }
        ensures { TablePlan (shape_of p.entry.table.now) self.new }
    {
        let mut edges = Edges::none();
        edges.fill(p);
        self.labels.fill(p);
        self.sets = edges.sets;
        self.parents.fill(&edges.parents[..p.table.count]);
    }

    // The steps of `mask` that have a child step with no place, by the table of parents: where none of them is forked each can lack the next step alone, and a
    // shift finds them.
    fn lacking(&self, mask: u64, c: u64, d: u64) -> u64
        ensures { (A : Shape) → SetsOf A self.now.sets → Spread (ToParent A) A.tree.size self.now.parents.entries
            → Lacking A mask c d result }
    {
        let lost = self.sets.missing(c, d);
        if mask & self.sets.forked != 0 {
            return self.parents.look_up(lost);
        }
        (lost & self.sets.next) >> 1
    }

    // The steps that fit at a row of this label: c has the steps that fit at a child edge of the row, d those that fit anywhere below it.
    pub fn fits(&self, label: u16, c: u64, d: u64) -> u64
        ensures { (A : Shape) → TablePlan A self.now → Marks result (FitsBy A (λ s. LabelFits (A.label s) label) c d) }
    {
        let mask = self.labels.of(label);
        mask ^ (mask & self.lacking(mask, c, d))
    }
}

// The same by forks, where a table would cost more than the few rows that look it up.
#[derive(Drop)]
pub struct GroupedPlan {
    labels: Labels,
    sets: Sets,
    forks: Forks,
}

impl GroupedPlan {
    // The plan of no pattern.
    pub fn none() -> GroupedPlan
        ensures { result.labels ≡ no_labels }
    {
        GroupedPlan {
            labels: Labels::none(),
            sets: Sets::default(),
            forks: Forks::none(),
        }
    }

    // The plan of p comes to that of no pattern.
    pub fn fill(&mut self, p: RightPattern<'_>)
        requires { self.old.labels ≡ no_labels }
        ensures { GroupPlan (shape_of p.entry.table.now) self.new }
    {
        let mut edges = Edges::none();
        edges.fill(p);
        self.labels.fill(p);
        self.sets = edges.sets;
        let children = &edges.children[..p.table.count];
        self.forks.fill(children, edges.sets.next);
    }

    // The steps that fit at a row of this label, by what fits below it, as `UpwardPlan::fits` takes it.
    pub fn fits(&self, label: u16, c: u64, d: u64) -> u64
        ensures { (A : Shape) → GroupPlan A self.now → Marks result (FitsBy A (λ s. LabelFits (A.label s) label) c d) }
    {
        let mask = self.labels.of(label);
        if mask == 0 {
            return 0;
        }
        let lost = self.sets.missing(c, d);
        mask ^ (mask & (((lost & self.sets.next) >> 1) | self.forks.reached(lost)))
    }
}

// What the pass from the first node to the last looks up.
#[derive(Drop)]
pub struct DownwardPlan {
    pub sets: Sets,
    children: ByteTable,
}

impl DownwardPlan {
    // The plan of no pattern.
    pub fn none() -> DownwardPlan
        ensures { result.children ≡ no_table }
    {
        DownwardPlan {
            sets: Sets::default(),
            children: ByteTable::none(),
        }
    }

    // The plan of p comes to that of no pattern.
    pub fn fill(&mut self, p: RightPattern<'_>)
        requires { self.old.children ≡ no_table }
        ensures { DownPlan (shape_of p.entry.table.now) self.new }
    {
        let mut edges = Edges::none();
        edges.fill(p);
        self.sets = edges.sets;
        self.children.fill(&edges.children[..p.table.count]);
    }

    // The child steps of the steps of x: where none of these is forked, a shift finds them.
    pub fn led(&self, x: u64) -> u64
        ensures { (A : Shape) → DownPlan A self.now → ((s : ℕ) → bit x s ≡ 1 → s < A.tree.size) → Marks result
            (Led (Child A.tree) x) }
    {
        let mut r = (x << 1) & self.sets.next;
        if x & self.sets.forked != 0 {
            r = self.children.look_up(x);
        }
        r
    }
}
