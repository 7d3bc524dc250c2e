// The witness document of a pattern, written into two lists (docs/RULES.md, "Containment").
ghost use Rattle.std.specs.Prelude.{◌≡◌, ◌++◌, ◌+◌, ◌≤◌, ◌<◌, length, drop};
ghost use Rattle.tables.specs.Column.{node_no};
ghost use Rattle.tables.specs.Pattern.{shape_of};
ghost use Rattle.containment.specs.Witness.{descendants, own_node_of, witness_size, witness_of};
ghost use Rattle.containment.specs.inner.Results.{StepWrote};

use tables::{NodeNo, RightPattern, STEPS, StepNo};

// How many of the first k steps have axis descendant.
// kept: a pattern and a number: how many of its first steps are meant, and no list's length.
fn descendants_before(a: RightPattern<'_>, k: usize) -> usize
    requires { k ≤ a.table.now.count }
    ensures { result ≡ descendants (shape_of a.entry.table.now) k }
{
    let mut d = 0;
    for axis in &a.table.axis[..k] {
        d += usize::from(*axis);
    }
    d
}

// How many nodes the witness of a has.
pub(crate) fn node_count(a: RightPattern<'_>) -> usize
    ensures { result ≡ witness_size (shape_of a.entry.table.now) }
{
    let n = a.table.count;
    n + descendants_before(a, n)
}

// The node written for step s.
pub(crate) fn own_node(a: RightPattern<'_>, s: StepNo) -> NodeNo
    requires { s.0 < a.table.now.count }
    ensures { result ≡ node_no (own_node_of (shape_of a.entry.table.now) s.0) }
{
    let k = usize::from(s.0);
    NodeNo((k + descendants_before(a, k + 1)) as u16)
}

// The nodes of one step from place m on: a fresh node of label l first, where the axis is descendant, then the step's own. The place after them.
// kept: the two lists and the place in them, since they are lent by the caller of `contains`, who is told what becomes of all their entries. And one look at
// the axis, which is data of the step.
fn write_step(
    axis: u8,
    hook: NodeNo,
    label: u16,
    l: u16,
    m: usize,
    parents: &mut [u16],
    labels: &mut [u16],
) -> usize
    requires { (m < 65535) × (axis ≤ 1) × (m + axis < length parents.old) × (m + axis < length labels.old) }
    ensures { StepWrote axis hook label l m parents.old labels.old result parents.new labels.new }
{
    parents[m] = hook.0;
    if axis == 0 {
        labels[m] = label;
        return m + 1;
    }
    let fresh = NodeNo(m as u16);
    labels[m] = l;
    parents[m + 1] = fresh.0;
    labels[m + 1] = label;
    m + 2
}

// The witness of a with the fresh label l at the front of both lists; its node count.
// kept: each step is found by the node that the loop wrote for its parent: so no chain.
pub(crate) fn write_witness(
    a: RightPattern<'_>,
    l: u16,
    parents: &mut [u16],
    labels: &mut [u16],
) -> usize
    requires { (witness_size (shape_of a.table.now) ≤ length parents.old) × (witness_size (shape_of a.table.now) ≤ length labels.old) }
    ensures count { result ≡ witness_size (shape_of a.entry.table.now) }
    ensures parents { parents.new ≡ (witness_of (shape_of a.entry.table.now) l).parents ++ drop result parents.old }
    ensures labels { labels.new ≡ (witness_of (shape_of a.entry.table.now) l).labels ++ drop result labels.old }
{
    let p = a.table;
    let mut nodes = [NodeNo(0); STEPS];
    let mut m = 0;
    for s in 0..p.count {
        // the parent of the first node: that of the parent step, for step 0 the mark
        let hook = if s == 0 {
            NodeNo(65535)
        } else {
            nodes[usize::from(p.parent[s].0)]
        };
        m = write_step(p.axis[s], hook, p.label[s], l, m, parents, labels);
        nodes[s] = NodeNo((m - 1) as u16);
    }
    m
}
