// The second pass over the nodes (docs/RULES.md, "Answers"): from the first to the last, which steps stand at each of them in a whole placement, and the
// answers.
ghost use Rattle.std.specs.Prelude.{◌≡◌, List, ℕ, ◌+◌, ◌*◌, ◌≤◌, ◌<◌, length, get_or};
ghost use Rattle.tables.specs.Bits.{bit, Marks};
ghost use Rattle.tables.specs.Document.{of_lists};
ghost use Rattle.tables.specs.Pattern.{Shape, shape_of};
ghost use Rattle.plan.specs.Plans.{DownPlan};
ghost use Rattle.marking.specs.Entries.{Marked};
ghost use Rattle.answers.specs.Answers.{Found};
ghost use Rattle.answers.specs.inner.Standing.{Ready, PassedOn, Downward};
ghost use Rattle.answers.specs.Working.{PlacedAt};

use plan::DownwardPlan;
use tables::{NODES, NodeNo, RightDocument, RightPattern, StepNo};

// What the parent of node i allows; node 0 has no parent.
fn above(allowed: &[u64; NODES], d: RightDocument<'_>, i: NodeNo) -> u64
    requires { i.0 < length d.lists.parents.now }
    ensures none { i.0 ≡ 0 → result ≡ 0 }
    ensures given { 0 < i.0 → result ≡ get_or allowed.now (get_or d.entry.lists.parents.now i.0 0) 0 }
{
    if i == NodeNo(0) {
        return 0;
    }
    let p = NodeNo(d.lists.parents[usize::from(i.0)]);
    allowed[usize::from(p.0)]
}

// What the children of a node may take, where `whole` stands at the node and `over` was allowed to it.
// kept: that the plan is A's stands in the promise, here and below. `none` has no pattern yet and `fill` gives one, so a ghost field would be an option that
// each promise has to take apart.
fn pass_on(plan: &DownwardPlan, whole: u64, over: u64) -> u64
    ensures { (A : Shape) → DownPlan A plan.now → ((s : ℕ) → bit whole s ≡ 1 → s < A.tree.size) → Marks result
        (PassedOn A whole over) }
{
    plan.led(whole) | (over & plan.sets.descendant)
}

// The turn of node i in the second pass: the steps that stand there in a whole placement.
fn place_turn(
    plan: &DownwardPlan,
    d: RightDocument<'_>,
    i: NodeNo,
    work: &mut [u64],
    allowed: &mut [u64; NODES],
) -> u64
    requires { (i.0 < length d.lists.parents.now) × (2 * i.0 + 1 < length work.old) }
    ensures { (A : Shape) (before : List ℕ) → DownPlan A plan.now → Downward A (of_lists d.entry.lists) (Marked before)
        i.0 before work.old allowed.old → Downward A (of_lists d.entry.lists) (Marked before) (i.0 + 1) before
        work.new allowed.new × Marks result (PlacedAt A (of_lists d.entry.lists) (Marked before) i.0) }
{
    let over = above(allowed, d, i);
    let row = usize::from(i.0);
    let whole = work[2 * row] & (over | work[2 * row + 1]);
    work[2 * row + 1] = whole;
    allowed[row] = pass_on(plan, whole, over);
    whole
}

// All turns of the second pass, with the plan of the pattern whose output step is `output`.
fn place_turns(
    plan: &DownwardPlan,
    d: RightDocument<'_>,
    output: StepNo,
    work: &mut [u64],
    list: &mut [u16],
) -> usize
    requires output { output.0 < 64 }
    requires room { (length d.lists.parents.now ≤ length list.old) × (2 * length d.lists.parents.now ≤ length work.old) }
    ensures { (A : Shape) → DownPlan A plan.now → A.output ≡ output.0 → Ready A (of_lists d.entry.lists) work.old
        → Found A (of_lists d.entry.lists) (Marked work.old) list.old work.old result list.new
        work.new }
{
    let mut allowed = [0; NODES];
    let n = d.lists.parents.len() as u16;
    let mut c = 0;
    // kept: the counter is what a turn takes, the node's number, and reads nothing here
    for i in 0..n {
        let node = NodeNo(i);
        let whole = place_turn(plan, d, node, work, &mut allowed);
        c = marking::note(list, c, node, whole, output);
    }
    c
}

// The second pass: which steps stand at each node in a whole placement, and the answers. A second entry of 1 marks a start node.
pub(crate) fn place_nodes(
    p: RightPattern<'_>,
    d: RightDocument<'_>,
    work: &mut [u64],
    list: &mut [u16],
) -> usize
    requires { (length d.lists.parents.now ≤ length list.old) × (2 * length d.lists.parents.now ≤ length work.old) }
    ensures { Ready (shape_of p.entry.table.now) (of_lists d.entry.lists) work.old → Found (shape_of p.entry.table.now)
        (of_lists d.entry.lists) (Marked work.old) list.old work.old result list.new work.new }
{
    let mut plan = DownwardPlan::none();
    plan.fill(p);
    place_turns(&plan, d, p.table.output, work, list)
}
