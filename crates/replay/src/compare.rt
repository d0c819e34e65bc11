// What a call left behind against the answer in the file.
use crate::buffers::Buffers;
use crate::bytes;
use crate::frame::Frame;
use records::events;
use records::events::Tag;
use records::names::Range;
use std::iter;

// What stands for number, count and place where the answer buffer has no room for them.
const NOTHING: u32 = 0xFFFF_FFFF;

// Tag source of the file only: prefix and suffix are parts of its side bytes.
const SIDE: u32 = 0xFFFF_0002;

// Bytes of an answer, of an event, and of its numbers before the tag.
const ANSWER: usize = 12;

const EVENT: usize = 48;

const UNTAGGED: usize = 28;

// The prefix that an event has as source 1.
const YAML: &[u8] = b"tag:yaml.org,2002:";

// Number `k` of the lent answer.
fn answered(answer: &[u8], k: usize) -> u32 {
    answer
        .get(..ANSWER)
        .map_or(NOTHING, |numbers| bytes::number(numbers, k))
}

// The returned number, and the number, count and place of the answer.
fn same_heads(frame: &Frame<'_>, returned: u32, answer: &[u8]) -> bool {
    bytes::number(frame.answer, 1) == returned
        && (0..3).all(|k| bytes::number(frame.answer, k + 2) == answered(answer, k))
}

// How many events were written.
fn written(answer: &[u8]) -> usize {
    answer
        .get(..ANSWER)
        .map_or(0, |numbers| bytes::length(numbers, 1))
}

fn part(bytes: &[u8], r: Range) -> Option<&[u8]> {
    bytes.get(r.from as usize..r.to as usize)
}

// Whether two ranges, each of its own bytes, lie in them and hold the same.
fn same_parts(x: &[u8], r: Range, y: &[u8], s: Range) -> bool {
    match (part(x, r), part(y, s)) {
        (Some(a), Some(b)) => a == b,
        _ => false,
    }
}

fn is_none(r: Range) -> bool {
    r.from == 0 && r.to == 0
}

// A tag by its bytes: the file has strings where the event has ranges of the text.
fn same_tag(frame: &Frame<'_>, expected: Tag, found: Tag) -> bool {
    same_parts(frame.side, expected.suffix, frame.text, found.suffix)
        && match found.source {
            1 => is_none(found.prefix) && part(frame.side, expected.prefix) == Some(YAML),
            2 => same_parts(frame.side, expected.prefix, frame.text, found.prefix),
            _ => false,
        }
}

fn tag_of(event: &[u8]) -> Tag {
    events::event_at(event, 0).tag
}

// One event, by its bytes but for a tag.
fn same_event(frame: &Frame<'_>, expected: &[u8], found: &[u8]) -> bool {
    let tag = tag_of(expected);
    if tag.source != SIDE {
        return expected == found;
    }
    expected.get(..UNTAGGED) == found.get(..UNTAGGED) && same_tag(frame, tag, tag_of(found))
}

// As many events as the file has, each the same.
fn same_events(frame: &Frame<'_>, found: &[u8], answer: &[u8]) -> bool {
    let length = frame.events.len();
    let expected = frame.events.chunks_exact(EVENT);
    length % EVENT == 0
        && length / EVENT == written(answer)
        && length <= found.len()
        && iter::zip(expected, found.chunks_exact(EVENT)).all(|(x, y)| same_event(frame, x, y))
}

// The untouched part of the answer buffer.
fn tail(answer: &[u8]) -> &[u8] {
    answer.get(ANSWER..).unwrap_or(answer)
}

// Flags 1 to 128: what is zero, and what is as it was.
fn same_flags(frame: &Frame<'_>, byte: u8, left: &Buffers<'_>) -> bool {
    let flags = bytes::number(frame.answer, 5);
    let unused = bytes::rest(left.events, frame.events.len());
    let found = [
        (1, bytes::all(unused, byte)),
        (2, bytes::all(left.states, 0)),
        (4, bytes::all(left.anchors, 0)),
        (8, bytes::all(left.handles, 0)),
        (16, bytes::all(left.states, byte)),
        (32, bytes::all(left.anchors, byte)),
        (64, bytes::all(left.handles, byte)),
        (128, bytes::all(tail(left.answer), byte)),
    ];
    found
        .iter()
        .all(|(flag, holds)| (flags & flag != 0) == *holds)
}

// Whether all that a call leaves behind is as the answer of the frame says.
pub fn same(frame: &Frame<'_>, byte: u8, returned: u32, left: &Buffers<'_>) -> bool {
    same_heads(frame, returned, left.answer)
        && same_events(frame, left.events, left.answer)
        && same_flags(frame, byte, left)
}
