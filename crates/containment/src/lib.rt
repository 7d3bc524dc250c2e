// Containment of one pattern in another (docs/RULES.md, "Containment").

#![tactic(auto)]

ghost use Rattle.std.specs.Prelude.{ℕ, ◌⊎◌, ◌↔◌, false, T, get_or};
ghost use Rattle.tables.specs.Pattern.{shape_of};
ghost use Rattle.containment.specs.Mapping.{Equal};
ghost use Rattle.containment.specs.Containment.{DecidesContainment};
ghost use Rattle.containment.specs.Equality.{DecidesEquality};
ghost use Rattle.containment.specs.Witness.{Stands};
ghost use Rattle.containment.specs.inner.Results.{FreshOrNone};

mod choosing;
mod comparing;
mod witness;

use tables::{NodeNo, Pattern, Refusal, RightPattern, STEPS, StepNo};

// Contained; or apart: how many nodes the witness has, and which of them is the answer node.
#[derive(Clone, Copy)]
pub enum Containment {
    Contained,
    Apart { nodes: usize, answer: NodeNo },
}

// The answer, and beside it the mapping, all zero where the answer is not `Contained`.
// kept: the mapping beside the enum and not in its case, since a pair apart has a mapping too, of zeros (docs/DECISIONS.md, "Forms").
#[derive(Clone, Copy)]
pub struct ContainmentAnswer {
    pub answer: Containment,
    pub mapping: [StepNo; STEPS],
}

// Marks the labels of p below 256 in a table.
fn mark_labels(p: RightPattern<'_>, used: &mut [bool; 256])
    ensures { (k : ℕ) → T (get_or used.new k false) → T (get_or used.old k false) ⊎ Stands (shape_of p.entry.table.now) k }
{
    for label in &p.table.label[..p.table.count] {
        let l = usize::from(*label);
        // kept: a test and a place: `get_mut` tells what the table is after it by the kit's own names only (tried: the proof did not close)
        if l < 256 {
            used[l] = true;
        }
    }
}

// The smallest label that no step of a or b has; none where every label is at some step. Labels that are marked need no search.
// kept: a loop that counts the label by hand, left by `continue` with a label and `break` with a value (docs/DECISIONS.md, "Forms").
fn fresh(a: RightPattern<'_>, b: RightPattern<'_>) -> Option<u16>
    ensures { FreshOrNone (shape_of a.entry.table.now) (shape_of b.entry.table.now) result }
{
    let mut used = [false; 256];
    mark_labels(a, &mut used);
    mark_labels(b, &mut used);
    let firsts = &a.table.label[..a.table.count];
    let seconds = &b.table.label[..b.table.count];
    let mut l: u16 = 0;
    'labels: loop {
        if l == 65535 {
            break None;
        }
        l += 1;
        if l < 256 && used[usize::from(l)] {
            continue 'labels;
        }
        for first in firsts {
            if *first == l {
                continue 'labels;
            }
        }
        for second in seconds {
            if *second == l {
                continue 'labels;
            }
        }
        break Some(l);
    }
}

// Do a and b have the same answers on every document? For the crates above: asks for what they have checked.
pub fn same(a: RightPattern<'_>, b: RightPattern<'_>) -> bool
    ensures { T result ↔ Equal (shape_of a.entry.table.now) (shape_of b.entry.table.now) }
{
    comparing::within(a, b) && comparing::within(b, a)
}

// Do a and b have the same answers on every document? That is, is each contained in the other? Refused by BadPattern if a breaks the rules, then if b does.
pub fn equal(a: &Pattern, b: &Pattern) -> Result<bool, Refusal>
    ensures { DecidesEquality a.now b.now result }
{
    let a = tables::check_pattern(a)?;
    let b = tables::check_pattern(b)?;
    Ok(same(a, b))
}

// The same as `contains`, where a and b obey the rules. For the crates above: asks for what they have checked.
pub fn contains_right(
    a: RightPattern<'_>,
    b: RightPattern<'_>,
    parents: &mut [u16],
    labels: &mut [u16],
) -> Result<ContainmentAnswer, Refusal>
    ensures { DecidesContainment a.entry.table.now b.entry.table.now parents.old labels.old result parents.new labels.new }
{
    let label = fresh(a, b).ok_or(Refusal::NoLabel)?;
    let m = witness::node_count(a);
    if parents.len() < m || labels.len() < m {
        return Err(Refusal::Room);
    }
    if let Some(mapping) = comparing::smallest_mapping(a, b) {
        return Ok(ContainmentAnswer {
            answer: Containment::Contained,
            mapping,
        });
    }
    let nodes = witness::write_witness(a, label, parents, labels);
    let answer = witness::own_node(a, a.table.output);
    Ok(ContainmentAnswer {
        answer: Containment::Apart { nodes, answer },
        mapping: [StepNo(0); STEPS],
    })
}

// Is a contained in b? Contained, with the smallest mapping of b into a, and both lists as they were. Or apart, with a witness: a document, its parents and
// labels at the front of the two lists, which keep all entries past its nodes, and a node of it that a answers and b does not. Refused, with both lists as
// they were, by BadPattern if a breaks the rules, then if b does; by NoLabel if no label is free for the witness; by Room if a list has fewer entries than
// the witness has nodes, even where the answer would be contained.
pub fn contains(
    a: &Pattern,
    b: &Pattern,
    parents: &mut [u16],
    labels: &mut [u16],
) -> Result<ContainmentAnswer, Refusal>
    ensures { DecidesContainment a.now b.now parents.old labels.old result parents.new labels.new }
{
    let a = tables::check_pattern(a)?;
    let b = tables::check_pattern(b)?;
    contains_right(a, b, parents, labels)
}
