// The first pass over the nodes (docs/RULES.md, "Answers"), which marks the steps that fit at each of them; the marks of start nodes, and the answer list's
// entries. An inner crate: its functions are there for the Answers call alone, and ask for what it has checked.

#![tactic(auto)]

ghost use Rattle.std.specs.Prelude.{◌≡◌, ◌↔◌, ℕ, ◌+◌, ◌*◌, ◌≤◌, ◌<◌, T, length, get_or};
ghost use Rattle.tables.specs.Document.{Document, node_count, of_lists};
ghost use Rattle.tables.specs.Pattern.{Shape, shape_of};
ghost use Rattle.placing.specs.Answer.{In, StartList};
ghost use Rattle.plan.specs.Plans.{TablePlan};
ghost use Rattle.marking.specs.Entries.{HandedUp, Fitted, Marked, Noted};

use plan::UpwardPlan;
use tables::{NodeNo, RightDocument, RightPattern, StepNo};

// Node i gets its first entry and the seed; its parent p gathers what fits at i and below it.
// kept: the seed as a number: both forms of the call write it, and the passes are one for both. Beside `hand_up` of `mappings`, which writes two lists where
// this writes two places of one: over a closure each would still say where.
fn hand_up(work: &mut [u64], i: NodeNo, p: NodeNo, fit: u64, below: u64, seed: u64)
    requires { (p.0 < i.0) × (2 * i.0 + 1 < length work.old) }
    ensures { HandedUp work.old i.0 p.0 fit below seed work.new }
{
    let own = 2 * usize::from(i.0);
    let over = 2 * usize::from(p.0);
    work[own] = fit;
    work[own + 1] = seed;
    work[over] |= fit;
    work[over + 1] = work[over + 1] | fit | below;
}

// Is the list strictly ascending, with every entry below n? One look at each entry, up to the first that is wrong: a list may be long where n is small.
pub fn starts_right(starts: &[u16], n: usize) -> bool
    ensures { (d : Document) → node_count d ≡ n → T result ↔ StartList d starts.now }
{
    let Some(first) = starts.first() else {
        return true;
    };
    usize::from(*first) < n && starts.is_sorted_by(|a, b| a < b && usize::from(*b) < n)
}

// Marks the start nodes in a list whose second entries are zero.
pub fn mark_starts(starts: &[u16], work: &mut [u64])
    requires { (k : ℕ) → k < length starts.now → 2 * get_or starts.now k 0 + 1 < length work.old }
    ensures marks { (i : ℕ) → In starts.now i → Marked work.new i }
    ensures others { (q : ℕ) → ((i : ℕ) → In starts.now i → q ≡ 2 * i + 1 → ⊥) → get_or work.new q 0 ≡ get_or work.old q
        0 }
{
    for start in starts {
        let node = NodeNo(*start);
        work[2 * usize::from(node.0) + 1] = 1;
    }
}

// All turns of the first pass, over a list whose entries for the nodes are zero.
// kept: the entries are asked to be zero, which `fit_nodes` sees to: the list is lent, and both entries of a node stand beside each other in it. Beside
// `fit_steps` of `mappings`: the laws of a turn are shared (`Rising`), and what is left is a loop of three lines over other stores.
fn fit_turns(plan: &UpwardPlan, d: RightDocument<'_>, seed: u64, work: &mut [u64])
    requires room { 2 * length d.lists.parents.now ≤ length work.old }
    requires zeros { (q : ℕ) → q < 2 * length d.lists.parents.now → get_or work.old q 0 ≡ 0 }
    ensures { (A : Shape) → TablePlan A plan.now → Fitted A (of_lists d.entry.lists) seed work.old work.new }
{
    let parents = d.lists.parents;
    let labels = d.lists.labels;
    // kept: from the last node to the second, over two lists and by number into a third; enumerate, skip, zip and rev would hide that
    for i in (1..parents.len()).rev() {
        let below = work[2 * i + 1];
        let fit = plan.fits(labels[i], work[2 * i], below);
        hand_up(work, NodeNo(i as u16), NodeNo(parents[i]), fit, below, seed);
    }
    work[0] = plan.fits(labels[0], work[0], work[1]);
    work[1] = seed;
}

// The first pass: which steps fit at each node, with the seed in every second entry.
pub fn fit_nodes(p: RightPattern<'_>, d: RightDocument<'_>, seed: u64, work: &mut [u64])
    requires { 2 * length d.lists.parents.now ≤ length work.old }
    ensures { Fitted (shape_of p.entry.table.now) (of_lists d.entry.lists) seed work.old work.new }
{
    let mut plan = UpwardPlan::none();
    plan.fill(p);
    work[..2 * d.lists.parents.len()].fill(0);
    fit_turns(&plan, d, seed, work);
}

// Node i in the answer list: put at place c and counted where it is an answer.
// kept: the list and the count of what it holds: the list is lent by the caller of `answers`, who is told what becomes of all its entries.
pub fn note(list: &mut [u16], c: usize, i: NodeNo, whole: u64, output: StepNo) -> usize
    requires { (c < length list.old) × (c < 65536) × (output.0 < 64) }
    ensures { Noted whole output.0 i.0 c list.old result list.new }
{
    if plan::has_bit(whole, output) {
        list[c] = i.0;
        return c + 1;
    }
    c
}
