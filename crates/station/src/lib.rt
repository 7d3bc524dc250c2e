// The ground station's entries (docs/RULES.md, "From C"): every call on packets and byte slices. An answer is 0 or more; a refusal is minus its number. The
// functions behind them answer as every call here does; `code` turns their answers into C's number.

#![tactic(auto)]

ghost use Rattle.tables.specs.Document.{document_of};
ghost use Rattle.station.specs.Code.{Coded};
ghost use Rattle.packet_patterns.specs.Contained.{ContainsPackets};
ghost use Rattle.packet_answers.specs.Documents.{AnswersPackets, StartsPackets};
ghost use Rattle.packet_lists.specs.Lists.{ReadsInto, ListAnswers, ListStarted};
ghost use Rattle.packet_patterns.specs.Patterns.{JoinsPackets, RewritesPackets, CopiesPacket};

mod code;

use tables::Lists;

// kept: nine entries that are alike: the C interface has each by its name and its arguments, lists apart.
// The answers of a packet's pattern in a packet's document: the count, and the answers ascending at the front of the room, two bytes each; the bytes past them
// stay. Refused by the document packet, the pattern packet or Room, the first that applies, with the room as it was.
#[unsafe(no_mangle)]
pub extern "C" fn nishkavel_answers(document: &[u8], pattern: &[u8], room: &mut [u8]) -> i64
    ensures { Coded (λ a. AnswersPackets document.now pattern.now room.old a room.new) result }
{
    code::number_of(packet_answers::answer_packets(document, pattern, room))
}

// The same with step 0 at any of the start nodes, two bytes each. Refused by the document packet, the pattern packet, Start or Room, the first that applies,
// with the room as it was.
#[unsafe(no_mangle)]
pub extern "C" fn nishkavel_started(
    document: &[u8],
    pattern: &[u8],
    starts: &[u8],
    room: &mut [u8],
) -> i64
    ensures { Coded (λ a. StartsPackets document.now pattern.now starts.now room.old a room.new)
        result }
{
    code::number_of(packet_answers::start_packets(document, pattern, starts, room))
}

// Is the pattern of one packet contained in that of another? 1, with the smallest mapping in the first 64 bytes of the room; or 0, with the packet of a witness
// at the front of the room and then the node, two bytes, that the first pattern answers there and the second does not. The bytes past these stay. Refused by
// the first packet, the second, NoLabel or Room, the first that applies, with the room as it was.
#[unsafe(no_mangle)]
pub extern "C" fn nishkavel_contained(a: &[u8], b: &[u8], room: &mut [u8]) -> i64
    ensures { Coded (λ c. ContainsPackets a.now b.now room.old c room.new) result }
{
    code::number_of(packet_patterns::contain_packets(a, b, room))
}

// The join of a view and a compensation, as packets: the length of the joined pattern's packet, which the room begins with; the bytes past it stay. Refused by
// the view's packet, the compensation's packet, Start, OtherLabel, TooLarge or Room, the first that applies, with the room as it was.
#[unsafe(no_mangle)]
pub extern "C" fn nishkavel_join(view: &[u8], compensation: &[u8], room: &mut [u8]) -> i64
    ensures { Coded (λ a. JoinsPackets view.now compensation.now room.old a room.new) result }
{
    code::number_of(packet_patterns::join_packets(view, compensation, room))
}

// The compensation that serves a query by a view, as packets: the length of its packet, which the room begins with, the bytes past it as they were; or 0 where
// none serves, with the room as it was. Refused by the query's packet, the view's packet, TooLarge or Room, the first that applies, with the room as it was.
#[unsafe(no_mangle)]
pub extern "C" fn nishkavel_rewrite(query: &[u8], view: &[u8], room: &mut [u8]) -> i64
    ensures { Coded (λ a. RewritesPackets query.now view.now room.old a room.new) result }
{
    code::number_of(packet_patterns::rewrite_packets(query, view, room))
}

// A pattern packet read and written back: its length, with the same bytes at the front of the room and the bytes past them as they were. Refused by the packet
// or by Room, with the room as it was.
#[unsafe(no_mangle)]
pub extern "C" fn nishkavel_copy_pattern(pattern: &[u8], room: &mut [u8]) -> i64
    ensures { Coded (λ a. CopiesPacket pattern.now room.old a room.new) result }
{
    code::number_of(packet_patterns::copy_packet(pattern, room))
}

// A document packet read into two lists: the node count n; the first n entries of each list are the parents and the labels, the others stay. Refused by the
// packet or by Room, with both lists as they were.
#[unsafe(no_mangle)]
pub extern "C" fn nishkavel_read_document(
    document: &[u8],
    parents: &mut [u16],
    labels: &mut [u16],
) -> i64
    ensures { Coded (λ a. ReadsInto document.now parents.old labels.old a parents.new labels.new)
        result }
{
    code::number_of(packet_lists::read_lists(document, parents, labels))
}

// The answers of a packet's pattern in a document that stands in two lists: the count, the answers ascending at the front of `list`, the working entries in
// `work`; the entries of both past these stay. Refused by the packet, BadDocument or Room, the first that applies, with both lists as they were.
#[unsafe(no_mangle)]
pub extern "C" fn nishkavel_list_answers(
    parents: &[u16],
    labels: &[u16],
    pattern: &[u8],
    list: &mut [u16],
    work: &mut [u64],
) -> i64
    ensures { Coded (λ a. ListAnswers (document_of parents.now labels.now) pattern.now
        list.old work.old a list.new work.new) result }
{
    let document = Lists { parents, labels };
    code::number_of(packet_lists::list_answers(document, pattern, list, work))
}

// The same with step 0 at any node of `starts`. Refused by the packet, BadDocument, Start or Room, the first that applies, with both lists as they were.
#[unsafe(no_mangle)]
pub extern "C" fn nishkavel_list_started(
    parents: &[u16],
    labels: &[u16],
    pattern: &[u8],
    starts: &[u16],
    list: &mut [u16],
    work: &mut [u64],
) -> i64
    ensures { Coded (λ a. ListStarted (document_of parents.now labels.now) pattern.now
        starts.now list.old work.old a list.new work.new) result }
{
    let document = Lists { parents, labels };
    code::number_of(packet_lists::list_started(document, pattern, starts, list, work))
}
