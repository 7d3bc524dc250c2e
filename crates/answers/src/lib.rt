// The answers of a pattern in a document (docs/RULES.md, "Answers"). Both forms make two passes over the nodes, with the steps of a pattern as bits.

#![tactic(auto)]

ghost use Rattle.std.specs.Prelude.{ℕ, ◌*◌, ◌≤◌, ◌<◌, length, get_or};
ghost use Rattle.tables.specs.Document.{of_lists};
ghost use Rattle.tables.specs.Pattern.{shape_of};
ghost use Rattle.placing.specs.Answer.{Begins, In};
ghost use Rattle.answers.specs.Answers.{Found, FindsAnswers, FindsStarted};

mod standing;

use tables::{Lists, Pattern, Refusal, RightDocument, RightPattern};

// The passes of the plain form.
// kept: beside `find_started`: they share two lines; the seed and what is marked between the passes are what the two forms are.
fn find(p: RightPattern<'_>, d: RightDocument<'_>, list: &mut [u16], work: &mut [u64]) -> usize
    requires { (length d.lists.parents.now ≤ length list.old) × (2 * length d.lists.parents.now ≤ length work.old) }
    ensures { Found (shape_of p.entry.table.now) (of_lists d.entry.lists) (Begins (shape_of p.entry.table.now)) list.old
        work.old result list.new work.new }
{
    let seed = u64::from(p.table.axis[0]);
    marking::fit_nodes(p, d, seed, work);
    // node 0 may take step 0 whatever its axis: its second entry is marked as a start
    work[1] = 1;
    standing::place_nodes(p, d, work, list)
}

// The passes of the started form.
fn find_started(
    p: RightPattern<'_>,
    d: RightDocument<'_>,
    starts: &[u16],
    list: &mut [u16],
    work: &mut [u64],
) -> usize
    requires by_index { (k : ℕ) → k < length starts.now → get_or starts.now k 0 < length d.lists.parents.now }
    requires room { (length d.lists.parents.now ≤ length list.old) × (2 * length d.lists.parents.now ≤ length work.old) }
    ensures { Found (shape_of p.entry.table.now) (of_lists d.entry.lists) (In starts.now) list.old work.old result
        list.new work.new }
{
    marking::fit_nodes(p, d, 0, work);
    marking::mark_starts(starts, work);
    standing::place_nodes(p, d, work, list)
}

// The answers of a pattern in a document: counted, and ascending at the front of `list`; the entries of `list` past them stay. Entries 2i and 2i + 1 of `work`
// become the steps that fit at node i and those that stand there in a whole placement; the entries past the nodes' stay. Refused by BadPattern, BadDocument
// or Room (a list too short), the first that applies; then both lists stay as they were.
// kept: beside `started`, and not one with it over a closure: its promise would be a second time what pattern and document are. The two lists are lent apart,
// as callers hold them, and two entries for each node are asked for and refused by Room.
pub fn answers(
    p: &Pattern,
    document: Lists<'_>,
    list: &mut [u16],
    work: &mut [u64],
) -> Result<usize, Refusal>
    ensures { FindsAnswers p.now (of_lists document.entry) list.old work.old result list.new work.new }
{
    let pattern = tables::check_pattern(p)?;
    let d = tables::check_document(document)?;
    let nodes = d.lists.parents.len();
    if list.len() < nodes || work.len() / 2 < nodes {
        return Err(Refusal::Room);
    }
    Ok(find(pattern, d, list, work))
}

// The same with step 0 at any node of `starts`, which may be empty: step 0 may not have axis descendant, and `starts` has to hold nodes, each once, in
// order. Refused by BadPattern, BadDocument, Start (the axis of step 0, or the start list) or Room, the first that applies; then both lists stay as they were.
pub fn started(
    p: &Pattern,
    document: Lists<'_>,
    starts: &[u16],
    list: &mut [u16],
    work: &mut [u64],
) -> Result<usize, Refusal>
    ensures { FindsStarted p.now (of_lists document.entry) starts.now list.old work.old result list.new
        work.new }
{
    let pattern = tables::check_pattern(p)?;
    let d = tables::check_document(document)?;
    let n = d.lists.parents.len();
    if p.axis[0] != 0 || !marking::starts_right(starts, n) {
        return Err(Refusal::Start);
    }
    if list.len() < n || work.len() / 2 < n {
        return Err(Refusal::Room);
    }
    Ok(find_started(pattern, d, starts, list, work))
}
