// Packets of patterns and of documents (docs/RULES.md, "Packets").

#![tactic(auto)]

ghost use Rattle.std.specs.Prelude.{ℕ, ◌+◌, ◌*◌, ◌/◌, ◌≤◌, ◌<◌, ◌≡◌, [], ◌∷◌, ◌++◌, length, take, drop};
ghost use Rattle.tables.specs.Document.{of_lists};
ghost use Rattle.tables.specs.Pattern.{shape_of, zero_pattern};
ghost use Rattle.tables.specs.Refusal.{Decided};
ghost use Rattle.halves.specs.Bytes.{high, low, half};
ghost use Rattle.packets.specs.Header.{Sized, head_checks};
ghost use Rattle.packets.specs.PatternPacket.{pattern_packet, packet_pattern, ReadsPattern, ReadsTwo, length_of, WritesPattern};
ghost use Rattle.packets.specs.DocumentPacket.{document_packet, ReadsNodes, ReadsDocument, size_of, WritesDocument};

use tables::{Lists, NODES, NodeNo, Pattern, Refusal, RightPattern, STEPS, StepNo};

// How many rows of four bytes a packet has, `most` at most, with `extra` bytes between its header and them. Both kinds of packet start with the
// same two checks. Refused by Length, Version, Length, in this order.
fn rows_in(s: &[u8], extra: usize, most: usize) -> Result<usize, Refusal>
    requires { extra < 4 }
    ensures { Decided (head_checks s.now extra most) result (λ n. n ≡ half s.now 1 / 4) (Unit {0}) }
{
    if s.len() < 3 {
        return Err(Refusal::Length);
    }
    if s[0] != 1 {
        return Err(Refusal::Version);
    }
    let field = usize::from(halves::get_half(s, 1));
    let n = field / 4;
    if n == 0 || most < n || field % 4 != extra || s.len() != field + 3 {
        return Err(Refusal::Length);
    }
    Ok(n)
}

// The pattern that a packet holds comes to that of no steps: zeros past its steps.
fn pattern_in(s: &[u8], p: &mut Pattern)
    requires sized { (n : ℕ) × Sized s.now 1 64 n }
    requires none { p.old ≡ zero_pattern }
    ensures { p.new ≡ packet_pattern s.now }
{
    let (rows, _) = s[4..].as_chunks::<4>();
    p.output = StepNo(s[3]);
    for row in rows {
        p.push(StepNo(row[0]), row[1], halves::get_half(row, 2));
    }
}

// The pattern of a packet, which obeys the rules. Refused by Length, Version, Length or BadPattern, the first that applies.
pub fn read_pattern(s: &[u8]) -> Result<Pattern, Refusal>
    ensures { ReadsPattern s.now result }
{
    rows_in(s, 1, STEPS)?;
    let mut p = tables::no_pattern();
    pattern_in(s, &mut p);
    tables::check_pattern(&p)?;
    Ok(p)
}

// The patterns of two packets, the first packet told before the second. For the crates above.
pub fn read_two(a: &[u8], b: &[u8]) -> Result<(Pattern, Pattern), Refusal>
    ensures { ReadsTwo a.now b.now result }
{
    Ok((read_pattern(a)?, read_pattern(b)?))
}

// Puts the version and the length field at the front of `out`.
fn put_head(out: &mut [u8], field: u16)
    requires { 3 ≤ length out.old }
    ensures { out.new ≡ (1 ∷ high field ∷ low field ∷ []) ++ drop 3 out.old }
{
    out[0] = 1;
    halves::put_half(out, 1, field);
}

// Puts the four bytes of a step at `at`.
// kept: beside `put_node`, as `put_pattern` beside `put_document`: a row is two bytes and a number here and two numbers there, from byte 4 or 3 on; over a
// closure each would say its row all the same.
fn put_step(out: &mut [u8], at: usize, parent: StepNo, axis: u8, label: u16)
    requires { at + 4 ≤ length out.old }
    ensures { out.new ≡ take at out.old ++ (parent.0 ∷ axis ∷ high label ∷ low label ∷ []) ++ drop (at + 4) out.old }
{
    out[at] = parent.0;
    out[at + 1] = axis;
    halves::put_half(out, at + 2, label);
}

// The packet of a pattern, at the front of `out`.
fn put_pattern(p: RightPattern<'_>, out: &mut [u8])
    requires { length_of p.table.now ≤ length out.old }
    ensures { out.new ≡ pattern_packet (shape_of p.entry.table.now) ++ drop (length_of p.entry.table.now) out.old }
{
    let p = p.table;
    let n = p.count;
    // kept: `as`, here and wherever a number goes into fewer bits: that it fits is proved, and `try_from` would bring an error that can't be
    put_head(out, (1 + 4 * n) as u16);
    out[3] = p.output.0;
    let edges = p.parent[..n].iter().zip(&p.axis[..n]);
    for (k, ((parent, axis), label)) in edges.zip(&p.label[..n]).enumerate() {
        put_step(out, 4 + 4 * k, *parent, *axis, *label);
    }
}

// Writes the packet of a pattern to the front of `out` and answers how many bytes it has; bytes past them stay as they were.
// Refused by BadPattern, then Room, with `out` as it was.
pub fn write_pattern(p: &Pattern, out: &mut [u8]) -> Result<usize, Refusal>
    ensures { WritesPattern p.now out.old result out.new }
{
    let right = tables::check_pattern(p)?;
    let size = 1 + 4 * p.count + 3;
    if out.len() < size {
        return Err(Refusal::Room);
    }
    put_pattern(right, out);
    Ok(size)
}

// Reads the nodes of a packet into the fronts of two lists and answers how many they are; entries past them stay as they were. The document's rules are
// not checked. Refused by Length, Version, Length or Room, the first that applies, with both lists as they were.
pub fn read_nodes(s: &[u8], parents: &mut [u16], labels: &mut [u16]) -> Result<usize, Refusal>
    ensures { ReadsNodes s.now parents.old labels.old result parents.new labels.new }
{
    let n = rows_in(s, 0, NODES)?;
    if parents.len() < n || labels.len() < n {
        return Err(Refusal::Room);
    }
    halves::get_halves(s, 3, 4, &mut parents[..n]);
    halves::get_halves(s, 5, 4, &mut labels[..n]);
    Ok(n)
}

// Reads the document of a packet into the fronts of two lists and answers how many nodes it has; entries past them stay as they were. The nodes are read
// into lists of this call's own and checked there first. Refused by Length, Version, Length, BadDocument or Room, the first that applies, with both lists
// as they were.
pub fn read_document(s: &[u8], parents: &mut [u16], labels: &mut [u16]) -> Result<usize, Refusal>
    ensures { ReadsDocument s.now parents.old labels.old result parents.new labels.new }
{
    let mut own_parents = [0; NODES];
    let mut own_labels = [0; NODES];
    let n = read_nodes(s, &mut own_parents, &mut own_labels)?;
    let lists = Lists {
        parents: &own_parents[..n],
        labels: &own_labels[..n],
    };
    tables::check_document(lists)?;
    if parents.len() < n || labels.len() < n {
        return Err(Refusal::Room);
    }
    parents[..n].copy_from_slice(lists.parents);
    labels[..n].copy_from_slice(lists.labels);
    Ok(n)
}

// Puts the four bytes of a node at `at`.
fn put_node(out: &mut [u8], at: usize, parent: NodeNo, label: u16)
    requires { at + 4 ≤ length out.old }
    ensures { out.new ≡
        take at out.old ++ (high parent.0 ∷ low parent.0 ∷ high label ∷ low label ∷ []) ++ drop (at + 4) out.old }
{
    halves::put_half(out, at, parent.0);
    halves::put_half(out, at + 2, label);
}

// The packet of a document, at the front of `out`. For the crates above: asks for what they have checked.
pub fn put_document(lists: Lists<'_>, out: &mut [u8])
    requires { (length lists.parents.now ≤ 2048) × (length lists.labels.now ≡ length lists.parents.now) × (size_of (of_lists lists) ≤ length out.old) }
    ensures { out.new ≡ document_packet (of_lists lists.entry) ++ drop (size_of (of_lists lists.entry)) out.old }
{
    let Lists { parents, labels } = lists;
    put_head(out, (4 * parents.len()) as u16);
    for (i, (parent, label)) in parents.iter().zip(labels).enumerate() {
        put_node(out, 3 + 4 * i, NodeNo(*parent), *label);
    }
}

// Writes the packet of a document to the front of `out` and answers how many bytes it has; bytes past them stay as they were.
// Refused by BadDocument, then Room, with `out` as it was.
pub fn write_document(lists: Lists<'_>, out: &mut [u8]) -> Result<usize, Refusal>
    ensures { WritesDocument (of_lists lists.entry) out.old result out.new }
{
    tables::check_document(lists)?;
    let size = 4 * lists.parents.len() + 3;
    if out.len() < size {
        return Err(Refusal::Room);
    }
    put_document(lists, out);
    Ok(size)
}
