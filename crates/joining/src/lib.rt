// Joining a compensation to a view (docs/RULES.md, "Join").

#![tactic(auto)]

ghost use Rattle.std.specs.Prelude.{◌+◌, ◌≤◌, ◌≡◌};
ghost use Rattle.joining.specs.Join.{renumber, join_of, Joinable, Joins};

use tables::{Pattern, Refusal, STEPS, StepNo};

// The number that step s of a view has in a join that takes `more` steps after the view's output step o.
fn renumbered(s: StepNo, o: StepNo, more: usize) -> StepNo
    requires { s.0 + more ≤ 255 }
    ensures { result.0 ≡ renumber o.0 more s.0 }
{
    // kept: numbers are compared, here and in `cut_size`. Tried by `PartialOrd`: `<` is then a call that is told by `nat_cmp`, which each proof has to turn
    // back into numbers, and the library has a lemma for one way only.
    if o.0 < s.0 {
        return StepNo(s.0 + more as u8);
    }
    s
}

// The join of a view and a compensation that can be joined: the view's steps up to its output step, the compensation's past its first, and the view's others.
// Zeros past its steps. For the crates above: asks for what they have checked.
// kept: loops over the number of the step, which finds it in three arrays of a pattern, from a step on or up to one; zip and skip would hide that.
pub fn join_table(v: &Pattern, e: &Pattern) -> Pattern
    requires { Joinable v.now e.now }
    ensures { result ≡ join_of v.now e.now }
{
    let o = v.output;
    let last = usize::from(o.0);
    let mut p = tables::no_pattern();
    p.output = StepNo(o.0 + e.output.0);
    for s in 0..last + 1 {
        p.push(v.parent[s], v.axis[s], v.label[s]);
    }
    for t in 1..e.count {
        p.push(StepNo(o.0 + e.parent[t].0), e.axis[t], e.label[t]);
    }
    for s in last + 1..v.count {
        p.push(
            renumbered(v.parent[s], o, e.count - 1),
            v.axis[s],
            v.label[s],
        );
    }
    p
}

// The join of a view and a compensation: its answers are those of the compensation, started at the answers of the view. Refused by BadPattern for the
// view, BadPattern for the compensation, Start, OtherLabel or TooLarge, the first that applies.
pub fn join(v: &Pattern, e: &Pattern) -> Result<Pattern, Refusal>
    ensures { Joins v.now e.now result }
{
    tables::check_pattern(v)?;
    tables::check_pattern(e)?;
    if e.axis[0] != 0 {
        return Err(Refusal::Start);
    }
    if v.label[usize::from(v.output.0)] != e.label[0] {
        return Err(Refusal::OtherLabel);
    }
    if STEPS < v.count + (e.count - 1) {
        return Err(Refusal::TooLarge);
    }
    Ok(join_table(v, e))
}
