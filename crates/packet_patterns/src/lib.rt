// The calls on two patterns, as packets in; a packet, a mapping or a witness out (docs/RULES.md, "From C").

#![tactic(auto)]

ghost use Rattle.std.specs.Prelude.{◌+◌, ◌*◌, ◌≤◌, ◌≡◌, [], ◌∷◌, ◌++◌, length, get_or};
ghost use Rattle.tables.specs.Column.{column, step_no};
ghost use Rattle.tables.specs.Document.{of_lists};
ghost use Rattle.halves.specs.Bytes.{high, low};
ghost use Rattle.packets.specs.DocumentPacket.{document_packet, size_of};
ghost use Rattle.packets.specs.inner.Putting.{Puts};
ghost use Rattle.packet_patterns.specs.Contained.{ContainsPackets};
ghost use Rattle.packet_patterns.specs.Patterns.{JoinsPackets, RewritesPackets, CopiesPacket};

use containment::Containment;
use tables::{Lists, NodeNo, Refusal, RightPattern, STEPS, StepNo};

// The bytes that containment asks for, whichever way it answers: the packet of the largest witness, and a node.
const ROOM: usize = 517;

// The join of the patterns of two packets, as a packet.
#[tactic(auto, using(crate::proofs::PatternCalls::join_written))]
pub fn join_packets(view: &[u8], compensation: &[u8], room: &mut [u8]) -> Result<usize, Refusal>
    ensures { JoinsPackets view.now compensation.now room.old result room.new }
{
    let two = packets::read_two(view, compensation)?;
    let joined = joining::join(&two.0, &two.1)?;
    packets::write_pattern(&joined, room)
}

// The compensation that serves the query of one packet by the view of another, as a packet; 0 where none does.
pub fn rewrite_packets(query: &[u8], view: &[u8], room: &mut [u8]) -> Result<usize, Refusal>
    ensures { RewritesPackets query.now view.now room.old result room.new }
{
    let two = packets::read_two(query, view)?;
    let q = RightPattern { table: &two.0 };
    let v = RightPattern { table: &two.1 };
    let handed = rewriting::rewrite_right(q, v)?;
    match handed {
        Some(e) => packets::write_pattern(&e, room),
        None => Ok(0),
    }
}

// A packet read and written back.
#[tactic(auto, using(crate::proofs::PatternCalls::copy_written))]
pub fn copy_packet(pattern: &[u8], room: &mut [u8]) -> Result<usize, Refusal>
    ensures { CopiesPacket pattern.now room.old result room.new }
{
    let p = packets::read_pattern(pattern)?;
    packets::write_pattern(&p, room)
}

// The 64 steps of a mapping, a byte each, at the front of the room; the answer is 1.
// kept: beside `put_witness` and `put_answers` of `packet_answers`: only the test for room is shared.
fn put_mapping(mapping: &[StepNo; STEPS], room: &mut [u8]) -> Result<usize, Refusal>
    ensures { Puts 517 (column (λ k. (get_or mapping.now k (step_no 0)).0) 64) 64 1 room.old result room.new }
{
    if room.len() < ROOM {
        return Err(Refusal::Room);
    }
    for (k, s) in mapping.iter().enumerate() {
        room[k] = s.0;
    }
    Ok(1)
}

// The packet of a document and then a node of it; the answer is 0.
fn put_witness(lists: Lists<'_>, node: NodeNo, room: &mut [u8]) -> Result<usize, Refusal>
    requires { (length lists.parents.now ≤ 128) × (length lists.labels.now ≡ length lists.parents.now) }
    ensures { Puts 517 (document_packet (of_lists lists.entry) ++ (high node.0 ∷ low node.0 ∷ []))
        (size_of (of_lists lists.entry) + 2) 0 room.old result room.new }
{
    if room.len() < ROOM {
        return Err(Refusal::Room);
    }
    packets::put_document(lists, room);
    halves::put_half(room, 4 * lists.parents.len() + 3, node.0);
    Ok(0)
}

// Is the pattern of one packet contained in that of another? 1 with the mapping, 0 with the witness and its answer node.
pub fn contain_packets(a: &[u8], b: &[u8], room: &mut [u8]) -> Result<usize, Refusal>
    ensures { ContainsPackets a.now b.now room.old result room.new }
{
    let mut parents = [0; 128];
    let mut labels = [0; 128];
    let two = packets::read_two(a, b)?;
    let first = RightPattern { table: &two.0 };
    let second = RightPattern { table: &two.1 };
    let found = containment::contains_right(first, second, &mut parents, &mut labels)?;
    match found.answer {
        Containment::Contained => put_mapping(&found.mapping, room),
        Containment::Apart { nodes, answer } => {
            let witness = Lists {
                parents: &parents[..nodes],
                labels: &labels[..nodes],
            };
            put_witness(witness, answer, room)
        }
    }
}
