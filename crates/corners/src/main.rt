// Runs what C cannot reach through packets (docs/PROMISES.md, "Where each case is run"): patterns with anything past their steps, and lists for a witness that
// are short or of unequal length. What it prints is compared with the file `stdout`.

#![tactic(auto)]

ghost use Rattle.std.specs.Prelude.{◌<◌};

use containment::{Containment, ContainmentAnswer};
use std::fmt;
use tables::{Lists, Pattern, Refusal, STEPS, StepNo};

// Flight line seven.
const SEVEN: Lists<'static> = Lists {
    parents: &[65535, 0, 1, 1, 3, 0, 5],
    labels: &[1, 2, 5, 3, 4, 2, 3],
};

// Numbers, each after a space.
#[derive(Drop)]
struct Numbers<'a>(&'a [u16]);

impl fmt::Display for Numbers<'_> {
    fn fmt<W: fmt::Write>(&self, f: &mut fmt::Formatter<W>) -> fmt::Result {
        for x in self.0 {
            write!(f, " {x}")?;
        }
        Ok(())
    }
}

// Bytes in hexadecimal, each after a space.
#[derive(Drop)]
struct Bytes<'a>(&'a [u8]);

impl fmt::Display for Bytes<'_> {
    fn fmt<W: fmt::Write>(&self, f: &mut fmt::Formatter<W>) -> fmt::Result {
        for x in self.0 {
            write!(f, " {x:02x}")?;
        }
        Ok(())
    }
}

// What a call answers, or the number of the refusal.
#[derive(Drop)]
struct Told<T>(Result<T, Refusal>);

impl<T: fmt::Display> fmt::Display for Told<T> {
    fn fmt<W: fmt::Write>(&self, f: &mut fmt::Formatter<W>) -> fmt::Result {
        match &self.0 {
            Ok(answer) => write!(f, "{answer}"),
            Err(r) => write!(f, "refused {}", u8::from(*r)),
        }
    }
}

// A pattern: the first 20 bytes of a buffer that holds its packet, and the last entries of its table.
#[derive(Drop)]
struct Shown {
    packet: [u8; 260],
    pattern: Pattern,
}

impl Shown {
    fn of(p: &Pattern) -> Result<Shown, Refusal> {
        let mut packet = [0; 260];
        packets::write_pattern(p, &mut packet)?;
        Ok(Shown {
            packet,
            pattern: *p,
        })
    }
}

impl fmt::Display for Shown {
    fn fmt<W: fmt::Write>(&self, f: &mut fmt::Formatter<W>) -> fmt::Result {
        let bytes = Bytes(&self.packet[..20]);
        let parent = self.pattern.parent[63].0;
        let axis = self.pattern.axis[63];
        let label = self.pattern.label[63];
        write!(f, "{bytes}, last entries {parent} {axis} {label}")
    }
}

// The first two images of a mapping, and the last; or how many nodes a witness has, and which of them is the answer.
#[derive(Drop)]
struct Verdict(ContainmentAnswer);

impl fmt::Display for Verdict {
    fn fmt<W: fmt::Write>(&self, f: &mut fmt::Formatter<W>) -> fmt::Result {
        let mapping = &self.0.mapping;
        match self.0.answer {
            Containment::Contained => {
                write!(
                    f,
                    "contained, mapping {} {} to {}",
                    mapping[0].0, mapping[1].0, mapping[63].0
                )
            }
            Containment::Apart { nodes, answer } => write!(f, "apart {nodes}, node {}", answer.0),
        }
    }
}

// What is asked about, with x in every entry past the steps of each pattern.
#[derive(Drop)]
struct Patterns {
    // //strip//frame
    frames: Pattern,
    // //strip[control]//frame
    controlled: Pattern,
    // //strip//frame[pose]
    posed: Pattern,
    // frame[pose], to be started at a frame
    pose: Pattern,
}

impl Patterns {
    fn filled(x: u8) -> Patterns {
        Patterns {
            frames: filled(b"\x01\x00\x09\x01\xFF\x01\x00\x02\x00\x01\x00\x03", x),
            controlled: filled(
                b"\x01\x00\x0D\x02\xFF\x01\x00\x02\x00\x00\x00\x05\x00\x01\x00\x03",
                x,
            ),
            posed: filled(
                b"\x01\x00\x0D\x01\xFF\x01\x00\x02\x00\x01\x00\x03\x01\x00\x00\x04",
                x,
            ),
            pose: filled(b"\x01\x00\x09\x00\xFF\x00\x00\x03\x00\x00\x00\x04", x),
        }
    }
}

// The pattern of a packet, or that of no steps where the packet is refused, with x in every entry past its steps.
fn filled(packet: &[u8], x: u8) -> Pattern {
    let mut p = packets::read_pattern(packet).unwrap_or(tables::no_pattern());
    let n = p.count.min(STEPS);
    p.parent[n..].fill(StepNo(x));
    p.axis[n..].fill(x);
    p.label[n..].fill(u16::from(x));
    p
}

// The answers of a pattern on flight line seven.
fn answer(rt: &impl Print, p: &Pattern) {
    let mut list = [9; 7];
    let mut work = [0; 14];
    let count = answers::answers(p, SEVEN, &mut list, &mut work);
    let _ = println!(rt; "answers{}", Told(count.map(|_| Numbers(&list))));
}

// Those of a pattern that is started at nodes 3 and 6.
fn start(rt: &impl Print, p: &Pattern) {
    let mut list = [9; 7];
    let mut work = [0; 14];
    let count = answers::started(p, SEVEN, &[3, 6], &mut list, &mut work);
    let _ = println!(rt; "started{}", Told(count.map(|_| Numbers(&list))));
}

fn join(v: &Pattern, e: &Pattern) -> Result<Shown, Refusal> {
    Shown::of(&joining::join(v, e)?)
}

// The compensation for a query by a view.
fn rewrite(rt: &impl Print, q: &Pattern, v: &Pattern) {
    let handed = match rewriting::rewrite(q, v) {
        Ok(None) => {
            let _ = println!(rt; "handed none");
            return;
        }
        Ok(Some(e)) => Shown::of(&e),
        Err(r) => Err(r),
    };
    let _ = println!(rt; "handed{}", Told(handed));
}

// Is one pattern contained in another, with lists of M and N entries? Both are printed as they are left.
fn contain<const M: usize, const N: usize>(rt: &impl Print, a: &Pattern, b: &Pattern)
    requires { (M < 64) × (N < 64) }
{
    let mut parents = [9; M];
    let mut labels = [9; N];
    let answer = containment::contains(a, b, &mut parents, &mut labels);
    let _ = println!(rt; "{}", Told(answer.map(Verdict)));
    let _ = println!(rt; "  parents{}", Numbers(&parents));
    let _ = println!(rt; "  labels{}", Numbers(&labels));
}

// The witness of //strip//frame against //strip[control]//frame has four nodes: it needs four entries of each list. The other way round the answer is
// contained, and both lists stay.
fn witness(rt: &impl Print, p: &Patterns) {
    contain::<3, 5>(rt, &p.frames, &p.controlled);
    contain::<5, 3>(rt, &p.frames, &p.controlled);
    contain::<6, 4>(rt, &p.frames, &p.controlled);
    contain::<5, 6>(rt, &p.controlled, &p.frames);
}

// Everything.
fn run(rt: &impl Print, p: &Patterns) {
    answer(rt, &p.frames);
    start(rt, &p.pose);
    let _ = println!(rt; "joined{}", Told(join(&p.frames, &p.pose)));
    rewrite(rt, &p.posed, &p.frames);
    witness(rt, p);
}

// A line whose write fails is passed over, and the next one is tried.
fn main(rt: HostRuntime) {
    for x in [0, 7, 255] {
        run(&rt, &Patterns::filled(x));
    }
}
