// The walk over lists of events: a line for each with its number, count and place. A line that cannot
// be written ends the program with the error.
#![tactic(auto)]

ghost use Rattle.std.specs.Prelude.{◌≡◌, length};

use records::events::{Event, Tag};
use records::kinds::EventKind;
use records::kinds::EventKind::{
    Alias, DocumentEnd, DocumentStart, MappingEnd, MappingStart, Scalar, SequenceEnd,
    SequenceStart, StreamEnd, StreamStart,
};
use records::names::Range;
use std::io;

const NOWHERE: Range = Range { from: 0, to: 0 };

// An event of no kind, with nothing in it.
const EMPTY: Event = Event {
    kind: 0,
    start: 0,
    end: 0,
    number: 0,
    style: 0,
    value: NOWHERE,
    tag: Tag {
        source: 0,
        prefix: NOWHERE,
        suffix: NOWHERE,
    },
};

// Kinds of events, at most ten.
const SHORT: [(&str, &[EventKind]); 8] = [
    (
        "list e",
        &[
            StreamStart,
            DocumentStart,
            SequenceStart,
            MappingStart,
            Scalar,
            Scalar,
            MappingEnd,
            SequenceEnd,
            DocumentEnd,
            StreamEnd,
        ],
    ),
    ("no document", &[StreamStart, StreamEnd]),
    (
        "two documents",
        &[
            StreamStart,
            DocumentStart,
            Alias,
            DocumentEnd,
            DocumentStart,
            Scalar,
            DocumentEnd,
            StreamEnd,
        ],
    ),
    (
        "a value is missing",
        &[
            StreamStart,
            DocumentStart,
            MappingStart,
            Scalar,
            MappingEnd,
            DocumentEnd,
            StreamEnd,
        ],
    ),
    (
        "a second node",
        &[
            StreamStart,
            DocumentStart,
            Scalar,
            Scalar,
            DocumentEnd,
            StreamEnd,
        ],
    ),
    (
        "a sequence ends as a mapping",
        &[
            StreamStart,
            DocumentStart,
            SequenceStart,
            MappingEnd,
            DocumentEnd,
            StreamEnd,
        ],
    ),
    (
        "it ends early",
        &[StreamStart, DocumentStart, SequenceStart, Scalar],
    ),
    (
        "an event after the end",
        &[StreamStart, StreamEnd, StreamStart],
    ),
];

// Runs of events: how many and of which kind.
const LONG: [(&str, &[(usize, EventKind)]); 4] = [
    (
        "1,000 deep",
        &[
            (1, StreamStart),
            (1, DocumentStart),
            (1000, SequenceStart),
            (1000, SequenceEnd),
            (1, DocumentEnd),
            (1, StreamEnd),
        ],
    ),
    (
        "1,001 deep",
        &[
            (1, StreamStart),
            (1, DocumentStart),
            (1001, SequenceStart),
            (1001, SequenceEnd),
            (1, DocumentEnd),
            (1, StreamEnd),
        ],
    ),
    (
        "65,536 nodes",
        &[
            (1, StreamStart),
            (1, DocumentStart),
            (1, SequenceStart),
            (65536, Scalar),
            (1, SequenceEnd),
            (1, DocumentEnd),
            (1, StreamEnd),
        ],
    ),
    (
        "32,768 pairs",
        &[
            (1, StreamStart),
            (1, DocumentStart),
            (1, MappingStart),
            (65536, Scalar),
            (1, MappingEnd),
            (1, DocumentEnd),
            (1, StreamEnd),
        ],
    ),
];

fn walk_bytes(rt: &impl Print, name: &str, bytes: &[u8]) -> io::Result<()> {
    let a = load::load(bytes);
    println!(rt; "{name}: {} {} {}", a.number, a.count, a.place)
}

// The walk over the first `n` events.
fn walk(rt: &impl Print, name: &str, bytes: &[u8], n: usize) -> io::Result<()> {
    if n > bytes.len() / Event::SIZE {
        return Ok(());
    }
    walk_bytes(rt, name, &bytes[..Event::SIZE * n])
}

// Stores an event that has a kind and nothing else.
fn put(bytes: &mut [u8], at: usize, kind: u32) {
    records::events::store_event(bytes, at, Event { kind, ..EMPTY });
}

// The walk over events of these kinds.
fn walk_kinds(rt: &impl Print, name: &str, kinds: &[EventKind]) -> io::Result<()> {
    let mut bytes = [0u8; 480];
    for (i, kind) in kinds.iter().enumerate() {
        put(&mut bytes, i, kind.number());
    }
    walk(rt, name, &bytes, kinds.len())
}

// Stores `n` events of one kind from `at` on, as many as there is room for; the index after them.
fn fill(bytes: &mut [u8], at: usize, n: usize, kind: EventKind) -> usize {
    let end = at.saturating_add(n).min(bytes.len() / Event::SIZE);
    for i in at..end {
        put(bytes, i, kind.number());
    }
    end
}

// The walk over runs of events.
fn walk_runs(
    rt: &impl Print,
    name: &str,
    bytes: &mut [u8],
    runs: &[(usize, EventKind)],
) -> io::Result<()> {
    let mut at = 0;
    for &(n, kind) in runs {
        at = fill(bytes, at, n, kind);
    }
    walk(rt, name, bytes, at)
}

// Nothing, a byte less than an event, a StreamStart, a byte more.
fn lengths(rt: &impl Print) -> io::Result<()> {
    let mut bytes = [0u8; 49];
    bytes[0] = 1;
    walk_bytes(rt, "0 bytes", &bytes[..0])?;
    walk_bytes(rt, "47 bytes", &bytes[..47])?;
    walk_bytes(rt, "48 bytes", &bytes[..48])?;
    walk_bytes(rt, "49 bytes", &bytes)
}

fn short(rt: &impl Print) -> io::Result<()> {
    for (name, kinds) in SHORT {
        walk_kinds(rt, name, kinds)?;
    }
    Ok(())
}

// A number that is no kind, though its low byte is one.
fn no_kind(rt: &impl Print) -> io::Result<()> {
    let mut bytes = [0u8; 96];
    put(&mut bytes, 0, 257);
    put(&mut bytes, 1, StreamEnd.number());
    walk_bytes(rt, "a kind of two bytes", &bytes)
}

// Room for 65,544 events.
fn room() -> [u8; 3146112]
    ensures { 3146112 ≡ length result }
{
    [0; 3146112]
}

fn long(rt: &impl Print) -> io::Result<()> {
    let mut bytes = room();
    for (name, runs) in LONG {
        walk_runs(rt, name, &mut bytes, runs)?;
    }
    Ok(())
}

fn main(rt: HostRuntime) -> io::Result<()> {
    lengths(&rt)?;
    short(&rt)?;
    no_kind(&rt)?;
    long(&rt)
}
