// Which steps of one pattern, B, fit at each step of another, A, and which of those a step of B goes to first (docs/RULES.md, "Mappings"): the steps of B are
// bits. An inner crate: its functions are there for containment alone, and ask for what it has checked.

#![tactic(auto)]

ghost use Rattle.std.specs.Prelude.{◌≡◌, ◌↔◌, ℕ, ◌<◌, ◌≤◌, ◌^◌, T, get_or};
ghost use Rattle.tables.specs.Bits.{bit, Marks};
ghost use Rattle.tables.specs.Pattern.{Shape, shape_of};
ghost use Rattle.plan.specs.Steps.{mask_for, FitsBy};
ghost use Rattle.plan.specs.Plans.{GroupPlan};
ghost use Rattle.plan.specs.Rising.{entries, Turned};
ghost use Rattle.mappings.specs.Fits.{RightIn, FitTable, Picks, StepsOf, ImageAt};

use plan::GroupedPlan;
use tables::{Pattern, RightPattern, STEPS, StepNo};

// What of f goes up along an edge of this axis to the steps of axis child: all of it along a child edge.
// kept: one look at the axis of a step, which is data of it, here, in `first_steps` and in `goes`: nothing to hand over.
fn along(axis: u8, f: u64) -> u64
    ensures { result ≡ mask_for axis f 0 }
{
    if axis == 0 { f } else { 0 }
}

// The steps of b that fit at a step of this label, the output step, as the bit `output`, only where `last` says so.
// kept: a flag, since a closure for the one step that differs would hide that it is the output step.
// kept: that the plan is B's stands in the promise: as in `pass_on` of answers, a ghost field would be an option that each promise has to take apart.
fn fits(plan: &GroupedPlan, output: u64, label: u16, last: bool, c: u64, d: u64) -> u64
    ensures { (B : Shape) → GroupPlan B plan.now → output ≡ 2 ^ B.output → Marks result (FitsBy B (RightIn B label last) c d) }
{
    let x = plan.fits(label, c, d);
    if last {
        return x;
    }
    x ^ (x & output)
}

// Step i gets what fits at it, f; its parent p gathers f below it, and g, what of f fits along a child edge.
fn hand_up(fit: &mut [u64; STEPS], under: &mut [u64; STEPS], i: StepNo, p: StepNo, f: u64, g: u64)
    requires { (p.0 < i.0) × (i.0 < 64) }
    ensures { Turned i.0 p.0 f g (get_or under.old i.0 0) (entries fit.old) (entries under.old) (entries fit.new)
        (entries under.new) }
{
    let own = usize::from(i.0);
    let over = usize::from(p.0);
    fit[own] = f;
    fit[over] |= g;
    under[over] = under[over] | f | under[own];
}

// Which steps of b fit at each step of a: what is looked up of b is filled first, then a pass goes from the last step of a to the first.
// kept: each step reads what the loop gathered for it from the later ones, by number, in both tables and three arrays of the pattern: so no chain.
pub fn fit_steps(a: RightPattern<'_>, b: RightPattern<'_>) -> [u64; STEPS]
    ensures { FitTable (shape_of b.entry.table.now) (shape_of a.entry.table.now) result }
{
    let mut plan = GroupedPlan::none();
    plan.fill(b);
    let p = a.table;
    let own = usize::from(p.output.0);
    let output = plan::one_bit(b.table.output);
    let mut fit = [0; STEPS];
    let mut under = [0; STEPS];
    for i in (1..p.count).rev() {
        let f = fits(&plan, output, p.label[i], i == own, fit[i], under[i]);
        let g = along(p.axis[i], f);
        hand_up(&mut fit, &mut under, StepNo(i as u8), p.parent[i], f, g);
    }
    fit[0] = fits(&plan, output, p.label[0], 0 == own, fit[0], under[0]);
    fit
}

// How many of the first steps of a may take step 0 of a pattern, whose axis is `axis`.
fn first_steps(a: &Pattern, axis: u8) -> usize
    requires { 0 < a.now.count }
    ensures { let A = shape_of a.now in (j : ℕ) → (j < result) ↔ ((j < A.tree.size) × (axis ≡ 0 → (j ≡ 0) × (A.axis 0 ≡ 0))) }
{
    if axis != 0 {
        a.count
    } else if a.axis[0] == 0 {
        1
    } else {
        0
    }
}

// The smallest step of a that may take step 0 of a pattern, whose axis is `axis`, by the table.
pub fn first_image(a: &Pattern, axis: u8, fit: &[u64; STEPS]) -> Option<StepNo>
    requires { (0 < a.now.count) × (a.now.count ≤ 64) }
    ensures { let A = shape_of a.now in
        Picks (λ j. ((j < A.tree.size) × (axis ≡ 0 → (j ≡ 0) × (A.axis 0 ≡ 0))) × (bit (get_or fit.now j 0) 0 ≡ 1)) result }
{
    let firsts = &fit[..first_steps(a, axis)];
    let s = firsts
        .iter()
        .position(|steps| plan::has_bit(*steps, StepNo(0)))?;
    Some(StepNo(s as u8))
}

// May step s of a take a step of this axis, where the parent step of that is at q and s is below q?
fn goes(a: &Pattern, axis: u8, q: StepNo, s: StepNo) -> bool
    requires { s.0 < 64 }
    ensures { let A = shape_of a.now in T result ↔ (axis ≡ 0 → (A.tree.parent s.0 ≡ q.0) × (A.axis s.0 ≡ 0)) }
{
    let row = usize::from(s.0);
    axis != 0 || (a.parent[row] == q && a.axis[row] == 0)
}

// The smallest step of a that may take step t of a pattern, of this axis, by the table, where the parent step of t is at q. What is below q stands in one run
// after q: where any step of it may take t, the first after q that fits is not past the run.
// kept: a loop over the number of the step: with `find` over the numbers the test has each behind a reference, and a `map` behind it makes the step.
// kept: a table of 64 steps at most, and not one that obeys the rules: no more is asked than the search needs.
// kept: t is below 64: a StepNo may be any byte, and 255 is the parent of step 0.
pub fn next_image(a: &Pattern, fit: &[u64; STEPS], t: StepNo, axis: u8, q: StepNo) -> Option<StepNo>
    requires { (a.now.count ≤ 64) × (t.0 < 64) × (q.0 < a.now.count) }
    ensures { (A : Shape) → StepsOf A a.now → ((j : ℕ) × ImageAt A fit.now t.0 axis q.0 j) → Picks (ImageAt A fit.now t.0 axis q.0) result }
{
    let at = usize::from(q.0);
    for s in at + 1..a.count {
        let step = StepNo(s as u8);
        if plan::has_bit(fit[s], t) && goes(a, axis, q, step) {
            return Some(step);
        }
    }
    None
}
