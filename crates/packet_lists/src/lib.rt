// The calls on a document that stands in two lists, with the pattern as a packet (docs/RULES.md, "From C").

#![tactic(auto)]

ghost use Rattle.tables.specs.Document.{of_lists};
ghost use Rattle.packet_lists.specs.Lists.{ReadsInto, ListAnswers, ListStarted};

use tables::{Lists, Refusal};

// The document of a packet, in two lists.
pub fn read_lists(
    document: &[u8],
    parents: &mut [u16],
    labels: &mut [u16],
) -> Result<usize, Refusal>
    ensures { ReadsInto document.now parents.old labels.old result parents.new labels.new }
{
    packets::read_document(document, parents, labels)
}

// The answers of a packet's pattern.
// kept: two functions, as `answers` has two; the lists are lent by C, which holds them apart.
pub fn list_answers(
    document: Lists<'_>,
    pattern: &[u8],
    list: &mut [u16],
    work: &mut [u64],
) -> Result<usize, Refusal>
    ensures { ListAnswers (of_lists document.entry) pattern.now list.old work.old result list.new work.new }
{
    let p = packets::read_pattern(pattern)?;
    answers::answers(&p, document, list, work)
}

// The same with step 0 at any start node.
pub fn list_started(
    document: Lists<'_>,
    pattern: &[u8],
    starts: &[u16],
    list: &mut [u16],
    work: &mut [u64],
) -> Result<usize, Refusal>
    ensures { ListStarted (of_lists document.entry) pattern.now starts.now list.old work.old result list.new work.new }
{
    let p = packets::read_pattern(pattern)?;
    answers::started(&p, document, starts, list, work)
}
