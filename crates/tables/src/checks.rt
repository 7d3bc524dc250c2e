// The checks of both kinds of table (docs/RULES.md, "Documents" and "Patterns").
ghost use Rattle.tables.specs.Checks.{ChecksDocument, ChecksPattern};
ghost use Rattle.tables.specs.Document.{of_lists};

use crate::{Lists, NODES, Pattern, Refusal, RightDocument, RightPattern, STEPS, table};

// The two lists, where they are a document that obeys the rules; else refused by BadDocument.
pub fn check_document(lists: Lists<'_>) -> Result<RightDocument<'_>, Refusal>
    ensures { ChecksDocument (of_lists lists.entry) result }
{
    let n = lists.parents.len();
    if n == 0 || NODES < n || lists.labels.len() != n {
        return Err(Refusal::BadDocument);
    }
    if !table::rows_right(&lists, n, 65535) {
        return Err(Refusal::BadDocument);
    }
    Ok(RightDocument { lists })
}

// The pattern, where it obeys the rules; else refused by BadPattern.
pub fn check_pattern(p: &Pattern) -> Result<RightPattern<'_>, Refusal>
    ensures { ChecksPattern p.now result }
{
    let n = p.count;
    if n == 0 || STEPS < n || n <= usize::from(p.output.0) {
        return Err(Refusal::BadPattern);
    }
    if !table::rows_right(p, n, 255) {
        return Err(Refusal::BadPattern);
    }
    Ok(RightPattern { table: p })
}
