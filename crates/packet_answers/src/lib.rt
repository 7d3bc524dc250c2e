// The calls on a document, as packets in and answers out (docs/RULES.md, "From C").

#![tactic(auto)]

ghost use Rattle.std.specs.Prelude.{◌*◌, ◌≤◌, length};
ghost use Rattle.tables.specs.Document.{of_lists};
ghost use Rattle.halves.specs.Bytes.{packed};
ghost use Rattle.packet_answers.specs.Documents.{AnswersPackets, StartsPackets};
ghost use Rattle.packet_answers.specs.inner.Reading.{AfterRules, ReadsBoth};
ghost use Rattle.packets.specs.inner.Putting.{Puts};

use tables::{Lists, NODES, Pattern, Refusal};

// Two working entries for each node.
const WORK: usize = 2 * NODES;

// The refusal of a document that breaks the rules; of any other, the one that comes after them.
fn after_rules(lists: Lists<'_>, r: Refusal) -> Refusal
    ensures { AfterRules (of_lists lists.entry) r result }
{
    match tables::check_document(lists) {
        Ok(_) => r,
        Err(q) => q,
    }
}

// The nodes of one packet, at the fronts of two lists with room for any document, and the pattern of another. The document's rules are checked here only where
// the pattern's packet is refused, since they come before it; else they are left to the call that answers, which checks them anyway.
// kept: two packets beside each other, here and in the functions that call this: C hands them over so.
fn read_nodes_and_pattern<'a>(
    document: &[u8],
    pattern: &[u8],
    parents: &'a mut [u16; NODES],
    labels: &'a mut [u16; NODES],
) -> Result<(Lists<'a>, Pattern), Refusal>
    ensures { ReadsBoth document.now pattern.now result }
{
    let n = packets::read_nodes(document, parents, labels)?;
    let lists = Lists {
        parents: &parents[..n],
        labels: &labels[..n],
    };
    match packets::read_pattern(pattern) {
        Ok(p) => Ok((lists, p)),
        Err(r) => Err(after_rules(lists, r)),
    }
}

// A list of answers as bytes, where the room has two for each of n nodes; the answer is how many they are.
fn put_answers(list: &[u16], n: usize, room: &mut [u8]) -> Result<usize, Refusal>
    requires { length list.now ≤ n }
    ensures { Puts (2 * n) (packed list.now) (2 * length list.now) (length list.now) room.old result room.new }
{
    if room.len() / 2 < n {
        return Err(Refusal::Room);
    }
    halves::put_halves(list, room);
    Ok(list.len())
}

// The answers of a packet's pattern in a packet's document, as bytes.
// kept: lists of this call's own with room for any document, cut to what they hold where they are lent: fixed memory, no heap. So in `start_packets`.
pub fn answer_packets(document: &[u8], pattern: &[u8], room: &mut [u8]) -> Result<usize, Refusal>
    ensures { AnswersPackets document.now pattern.now room.old result room.new }
{
    let mut parents = [0; NODES];
    let mut labels = [0; NODES];
    let mut list = [0; NODES];
    let mut work = [0; WORK];
    let (lists, p) = read_nodes_and_pattern(document, pattern, &mut parents, &mut labels)?;
    let c = answers::answers(&p, lists, &mut list, &mut work)?;
    put_answers(&list[..c], lists.parents.len(), room)
}

// The same with step 0 at any of the start nodes, which are bytes too.
// kept: beside `answer_packets`, and not one with it over a closure for the search: what they share are the calls that read and put, and the closure's contract
// would say again what document and pattern are, and what the lists hold before and after.
pub fn start_packets(
    document: &[u8],
    pattern: &[u8],
    starts: &[u8],
    room: &mut [u8],
) -> Result<usize, Refusal>
    ensures { StartsPackets document.now pattern.now starts.now room.old result room.new }
{
    let mut parents = [0; NODES];
    let mut labels = [0; NODES];
    let mut from = [0; NODES];
    let mut list = [0; NODES];
    let mut work = [0; WORK];
    let (lists, p) = read_nodes_and_pattern(document, pattern, &mut parents, &mut labels)?;
    let n = lists.parents.len();
    let k = starts.len() / 2;
    if starts.len() % 2 != 0 || n < k {
        return Err(after_rules(lists, Refusal::Start));
    }
    let start_nodes = &mut from[..k];
    halves::get_halves(starts, 0, 2, start_nodes);
    let c = answers::started(&p, lists, start_nodes, &mut list, &mut work)?;
    put_answers(&list[..c], n, room)
}
