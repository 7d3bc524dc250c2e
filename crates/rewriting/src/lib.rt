// Rewriting a query by a view (docs/RULES.md, "Rewriting").

#![tactic(auto)]

ghost use Rattle.std.specs.Prelude.{ℕ, ◌+◌, ◌-◌, ◌≤◌, ◌<◌, ◌≡◌, ◌↔◌, T, length, get_or, IfSome, IfNone};
ghost use Rattle.tables.specs.Tree.{From};
ghost use Rattle.tables.specs.Pattern.{Shape, shape_of, pattern_of};
ghost use Rattle.tables.specs.declared.Pattern.{Pattern};
ghost use Rattle.containment.specs.Mapping.{Equal};
ghost use Rattle.joining.specs.Join.{join_of, Joinable};
ghost use Rattle.rewriting.specs.Candidate.{main_path, cut_step, Cut};
ghost use Rattle.rewriting.specs.Rewriting.{Serves, Rewrites};
ghost use Rattle.rewriting.specs.inner.Tried.{Tries};

use tables::{Pattern, Refusal, RightPattern, StepNo};

// The steps that a query or a view for rewriting may have.
const MOST: usize = 32;

// How many steps the main path has.
// kept: a loop that climbs, as in `main_step` and `agree`, each step found by the one before it: no collection is gone over. Up to step 0 here, so many steps
// in `main_step`.
fn main_length(p: RightPattern<'_>) -> usize
    ensures { result ≡ length (main_path (shape_of p.entry.table.now)) }
{
    let mut s = p.table.output;
    let mut k = 1;
    while s != StepNo(0) {
        s = p.table.parent[usize::from(s.0)];
        k += 1;
    }
    k
}

// The step of the main path that is `up` steps above its end.
fn main_step(p: RightPattern<'_>, up: usize) -> StepNo
    requires { up < length (main_path (shape_of p.table.now)) }
    ensures { result.0 ≡ get_or (main_path (shape_of p.entry.table.now))
        (length (main_path (shape_of p.entry.table.now)) - 1 - up) 0 }
{
    let mut s = p.table.output;
    for _k in 0..up {
        s = p.table.parent[usize::from(s.0)];
    }
    s
}

// How many steps are step c or below it: they stand in one run, which ends before the first later step that hangs before c.
// kept: a loop over the number of the step. Tried by `position` over the later parents: the proof didn't close, since no fact says that the array behind the
// reference in a `RightPattern` has 64 entries, which `None` needs: the rows end there, and not before.
fn cut_size(p: RightPattern<'_>, c: StepNo) -> usize
    requires { c.0 < p.table.now.count }
    ensures { ((u : ℕ) → From (shape_of p.entry.table.now).tree c.0 u → u < c.0 + result)
        × ((t : ℕ) → t < result → From (shape_of p.entry.table.now).tree c.0 (c.0 + t)) }
{
    let row = usize::from(c.0);
    for u in row + 1..p.table.count {
        if p.table.parent[u].0 < c.0 {
            return u - row;
        }
    }
    p.table.count - row
}

// Step c of a pattern, which is on its main path, with all steps below it, as a compensation: zeros past its steps.
fn cut(q: RightPattern<'_>, c: StepNo) -> Pattern
    requires { From (shape_of q.table.now).tree c.0 (shape_of q.table.now).output }
    ensures { (C : Shape) × Cut (shape_of q.entry.table.now) c.0 C × (result ≡ pattern_of C) }
{
    let n = cut_size(q, c);
    let row = usize::from(c.0);
    let mut p = tables::no_pattern();
    p.output = StepNo(q.table.output.0 - c.0);
    p.push(StepNo(255), 0, q.table.label[row]);
    // kept: over the number of the step, which finds it in three arrays of the pattern; skip, take and zip would hide that
    for t in row + 1..row + n {
        p.push(
            StepNo(q.table.parent[t].0 - c.0),
            q.table.axis[t],
            q.table.label[t],
        );
    }
    p
}

// Do the main paths of a query, from step c up, and of a view have the same labels and axes? Where they do not, nothing serves.
fn agree(q: RightPattern<'_>, v: RightPattern<'_>, c: StepNo) -> bool
    requires { (length (main_path (shape_of v.table.now)) ≤ length (main_path (shape_of q.table.now)))
        × (c.0 ≡ cut_step (shape_of q.table.now) (shape_of v.table.now)) }
    ensures { (T result → (shape_of v.entry.table.now).label (shape_of v.entry.table.now).output ≡ (shape_of q.entry.table.now).label c.0)
        × ((E : Pattern) → Serves q.entry.table.now v.entry.table.now E → T result) }
{
    let mut s = c;
    let mut t = v.table.output;
    loop {
        let a = usize::from(s.0);
        let b = usize::from(t.0);
        if q.table.label[a] != v.table.label[b] || q.table.axis[a] != v.table.axis[b] {
            return false;
        }
        if b == 0 {
            return true;
        }
        s = q.table.parent[a];
        t = v.table.parent[b];
    }
}

// The candidate for a query by a view: the query's cut at the step of its main path that is as deep as the view's output step, where there is such a step
// and it has the label of that one. None, too, where the main paths differ up to there.
fn candidate(q: RightPattern<'_>, v: RightPattern<'_>) -> Option<Pattern>
    ensures { Tries q.entry.table.now v.entry.table.now result }
{
    let k = main_length(v);
    let n = main_length(q);
    if n < k {
        return None;
    }
    let c = main_step(q, n - k);
    if !agree(q, v, c) {
        return None;
    }
    Some(cut(q, c))
}

// Is the join of a view and a compensation, which can be joined, equal to a query?
fn serves(q: RightPattern<'_>, v: &Pattern, e: &Pattern) -> bool
    requires { Joinable v.now e.now }
    ensures { T result ↔ Equal (shape_of (join_of v.now e.now)) (shape_of q.entry.table.now) }
{
    let j = joining::join_table(v, e);
    containment::same(q, RightPattern { table: &j })
}

// Rewriting where the query and the view obey the rules. For the crates above: asks for what they have checked.
pub fn rewrite_right(q: RightPattern<'_>, v: RightPattern<'_>) -> Result<Option<Pattern>, Refusal>
    ensures { Rewrites q.entry.table.now v.entry.table.now result }
{
    if MOST < q.table.count || MOST < v.table.count {
        return Err(Refusal::TooLarge);
    }
    let Some(e) = candidate(q, v) else {
        return Ok(None);
    };
    if !serves(q, v.table, &e) {
        return Ok(None);
    }
    Ok(Some(e))
}

// The compensation that serves a query by a view: the candidate, where there is one and its join with the view is equal to the query. Otherwise none
// serves. Refused by BadPattern for the query, BadPattern for the view or TooLarge, the first that applies.
pub fn rewrite(q: &Pattern, v: &Pattern) -> Result<Option<Pattern>, Refusal>
    ensures { Rewrites q.now v.now result }
{
    rewrite_right(tables::check_pattern(q)?, tables::check_pattern(v)?)
}
