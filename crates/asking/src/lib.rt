// What the program `ask` prints for each input (docs/RULES.md, "The program ask").

#![tactic(auto)]

ghost use Rattle.std.specs.Prelude.{◌≤◌, ◌≡◌, length, get_or, drop};
ghost use Rattle.tables.specs.Document.{of_lists};
ghost use Rattle.tables.specs.Pattern.{shape_of};
ghost use Rattle.placing.specs.Answer.{Answer, Started, In, Lists, StartList};
ghost use Rattle.asking.specs.Parts.{packet_at, next_at};
ghost use Rattle.asking.specs.Replies.{Answered, Replies, ReplyOf, ThirdLine};
ghost use Rattle.asking.specs.inner.Writing.{Fits, Puts};

mod text;

use tables::{NODES, Refusal, RightDocument, RightPattern};
use text::Text;

// The packet at the front of an input, as long as its length field says, and what follows it; all of the input where that ends early.
fn split_packet(input: &[u8]) -> (&[u8], &[u8])
    ensures packet { result.0.now ≡ packet_at input.now 0 }
    ensures rest { result.1.now ≡ drop (next_at input.now 0) input.now }
{
    if input.len() < 3 {
        return input.split_at(input.len());
    }
    let size = usize::from(halves::get_half(input, 1)) + 3;
    input.split_at(size.min(input.len()))
}

// The answers of a pattern, listed at the front of a list.
// kept: beside `find_started`: two lines, which call the two forms.
fn find<'l>(p: RightPattern<'_>, d: RightDocument<'_>, list: &'l mut [u16; NODES]) -> &'l [u16]
    ensures { Lists (Answer (shape_of p.entry.table.now) (of_lists d.entry.lists)) result.now }
{
    let mut work = [0; 2 * NODES];
    let c = answers::answers(p.table, d.lists, list, &mut work).unwrap();
    &list[..c]
}

// The answers of a compensation that is started at the nodes of `starts`, listed at the front of a list.
fn find_started<'l>(
    e: RightPattern<'_>,
    d: RightDocument<'_>,
    starts: &[u16],
    list: &'l mut [u16; NODES],
) -> &'l [u16]
    requires axis_value { get_or e.table.now.axis 0 0 ≡ 0 }
    requires start_list { StartList (of_lists d.lists) starts.now }
    ensures { Lists (Started (In starts.now) (shape_of e.entry.table.now) (of_lists d.entry.lists)) result.now }
{
    let mut work = [0; 2 * NODES];
    let c = answers::started(e.table, d.lists, starts, list, &mut work).unwrap();
    &list[..c]
}

// The third line: the rewriting of the query by the view.
fn put_third(
    q: RightPattern<'_>,
    v: RightPattern<'_>,
    d: RightDocument<'_>,
    starts: &[u16],
    text: &mut Text<'_>,
)
    requires start_list { StartList (of_lists d.lists) starts.now }
    requires room { Fits text.old 10256 }
    ensures { Puts (ThirdLine (of_lists d.entry.lists) q.entry.table.now v.entry.table.now starts.now) text.old text.new }
{
    match rewriting::rewrite_right(q, v) {
        Ok(Some(e)) => {
            let mut list = [0; NODES];
            let started = find_started(RightPattern { table: &e }, d, starts, &mut list);
            text.line(b"rewriting", started);
        }
        Ok(None) => text.word(b"rewriting none\n"),
        Err(r) => text.refused(r, b"rewriting"),
    }
}

// The three lines of a document, a view and a query that are right.
fn put_answers(q: RightPattern<'_>, v: RightPattern<'_>, d: RightDocument<'_>, text: &mut Text<'_>)
    requires { Fits text.old 32768 }
    ensures { Puts (Answered (of_lists d.entry.lists) q.entry.table.now v.entry.table.now) text.old text.new }
{
    let mut views = [0; NODES];
    let mut queries = [0; NODES];
    let seen = find(v, d, &mut views);
    let told = find(q, d, &mut queries);
    text.line(b"view", seen);
    text.line(b"query", told);
    put_third(q, v, d, seen, text);
}

// The text for an input.
fn put_reply(input: &[u8], text: &mut Text<'_>)
    requires { Fits text.old 32768 }
    ensures { Puts (Replies input.now) text.old text.new }
{
    let (document, rest) = split_packet(input);
    let mut parents = [0; NODES];
    let mut labels = [0; NODES];
    let n = match packets::read_document(document, &mut parents, &mut labels) {
        Ok(n) => n,
        Err(r) => return text.refused(r, b"document"),
    };
    let (view, rest) = split_packet(rest);
    let v = match packets::read_pattern(view) {
        Ok(p) => p,
        Err(r) => return text.refused(r, b"view"),
    };
    let (query, rest) = split_packet(rest);
    let q = match packets::read_pattern(query) {
        Ok(p) => p,
        Err(r) => return text.refused(r, b"query"),
    };
    if !rest.is_empty() {
        return text.refused(Refusal::Length, b"input");
    }
    let lists = tables::Lists {
        parents: &parents[..n],
        labels: &labels[..n],
    };
    put_answers(
        RightPattern { table: &q },
        RightPattern { table: &v },
        RightDocument { lists },
        text,
    );
}

// Writes what `ask` prints for an input to the front of `out` and answers how many bytes it has; bytes past them stay as they were.
// Refused by Room where `out` has fewer than 32,768 bytes, with `out` as it was.
pub fn reply(input: &[u8], out: &mut [u8]) -> Result<usize, Refusal>
    ensures { ReplyOf input.now out.old result out.new }
{
    if out.len() < 32768 {
        return Err(Refusal::Room);
    }
    let mut text = Text::new(out);
    put_reply(input, &mut text);
    Ok(text.len())
}
