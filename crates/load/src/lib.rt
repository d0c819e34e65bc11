// The walk of parser.rs's `load`, with `multi` true, over the bytes of any events: only their kinds are read.
// A node is an alias, a scalar, a sequence of nodes or a mapping of pairs of nodes.
#![tactic(auto)]

ghost use Rattle.std.specs.Prelude.{◌≡◌};
ghost use Rattle.records.specs.EventKinds.{event_kind_of};
ghost use Rattle.load.specs.Load.{kind_at, answer_of, stream_answer, loaded};
ghost use Rattle.load.specs.Parts.{Node, Sequence, Mapping, Document};

use records::events::Event;
use records::kinds::EventKind;

// How many collections may be open at once.
pub const DEPTH: usize = 1000;

// What the walk answers; the place is the index of the event at which a number is given. Its count is always 0.
#[derive(Clone, Copy)]
pub struct Answer {
    pub number: u32,
    pub count: u32,
    pub place: usize,
}

// The walk's own numbers.
impl Answer {
    pub const UNEVEN: u32 = 20;

    pub const UNEXPECTED: u32 = 30;

    pub const TOO_DEEP: u32 = 31;
}

// Why the walk stops, at the index of an event.
#[derive(Clone, Copy, Debug, PartialEq, Eq)]
enum Fault {
    Uneven,
    Unexpected(usize),
    TooDeep(usize),
}

impl From<Fault> for Answer {
    ghost from_gives = { λ e a. a ≡ answer_of e };

    #[tactic(auto, unfolding(crate::specs::Load::answered))]
    fn from(e: Fault) -> Answer {
        let (number, place) = match e {
            Fault::Uneven => (Answer::UNEVEN, 0),
            Fault::Unexpected(place) => (Answer::UNEXPECTED, place),
            Fault::TooDeep(place) => (Answer::TOO_DEEP, place),
        };
        Answer {
            number,
            count: 0,
            place,
        }
    }
}

// The kind of an event; none where it has no kind's number, or there is no such event.
#[tactic(auto, unfolding(crate::specs::Load::kind_at, records::specs::Events::event_at))]
fn kind_at(events: &[u8], at: usize) -> Option<EventKind>
    ensures { result ≡ event_kind_of (kind_at events.now at) }
{
    EventKind::try_from(places::field(events, Event::SIZE, at, 0)).ok()
}

// A node, with room for `left` more open collections: the index of the event after it. It is put into the three that call it,
// so that a collection is one call and a scalar none.
#[cycle(nodes)]
#[inline(always)]
fn load_node(events: &[u8], at: usize, left: usize) -> Result<usize, Fault>
    ensures { Node events.now at left result }
{
    match kind_at(events, at) {
        Some(EventKind::Alias | EventKind::Scalar) => Ok(at + 1),
        Some(EventKind::SequenceStart | EventKind::MappingStart) if left == 0 => {
            Err(Fault::TooDeep(at))
        }
        Some(EventKind::SequenceStart) => load_sequence(events, at + 1, left - 1),
        Some(EventKind::MappingStart) => load_mapping(events, at + 1, left - 1),
        _ => Err(Fault::Unexpected(at)),
    }
}

// A sequence behind its start: nodes up to its end, with room for `left` more open collections in each.
#[cycle(nodes)]
fn load_sequence(events: &[u8], at: usize, left: usize) -> Result<usize, Fault>
    ensures { Sequence events.now at left result }
{
    let mut i = at;
    // Each node says where the next begins, so no range or iterator has these indices.
    while kind_at(events, i) != Some(EventKind::SequenceEnd) {
        i = load_node(events, i, left)?;
    }
    Ok(i + 1)
}

// A mapping behind its start: pairs of nodes up to its end.
#[cycle(nodes)]
fn load_mapping(events: &[u8], at: usize, left: usize) -> Result<usize, Fault>
    ensures { Mapping events.now at left result }
{
    let mut i = at;
    // As above: a pair says where the next begins.
    while kind_at(events, i) != Some(EventKind::MappingEnd) {
        let value = load_node(events, i, left)?;
        i = load_node(events, value, left)?;
    }
    Ok(i + 1)
}

// A document: its start, one node, its end.
fn load_document(events: &[u8], at: usize) -> Result<usize, Fault>
    ensures { Document events.now at result }
{
    if kind_at(events, at) != Some(EventKind::DocumentStart) {
        return Err(Fault::Unexpected(at));
    }
    let end = load_node(events, at + 1, DEPTH)?;
    if kind_at(events, end) != Some(EventKind::DocumentEnd) {
        return Err(Fault::Unexpected(end));
    }
    Ok(end + 1)
}

// All events: a StreamStart, documents, a StreamEnd, and nothing more.
fn load_stream(events: &[u8]) -> Result<(), Fault>
    ensures { stream_answer result ≡ loaded events.now }
{
    if events.len() % Event::SIZE != 0 {
        return Err(Fault::Uneven);
    }
    if kind_at(events, 0) != Some(EventKind::StreamStart) {
        return Err(Fault::Unexpected(0));
    }
    let mut at = 1;
    // As above: a document says where the next begins.
    while kind_at(events, at) != Some(EventKind::StreamEnd) {
        at = load_document(events, at)?;
    }
    at += 1;
    if at < events.len() / Event::SIZE {
        return Err(Fault::Unexpected(at));
    }
    Ok(())
}

// The walk over all events.
#[tactic(auto, unfolding(crate::specs::Load::answered))]
pub fn load(events: &[u8]) -> Answer
    ensures { result ≡ loaded events.now }
{
    match load_stream(events) {
        Ok(()) => Answer {
            number: 0,
            count: 0,
            place: 0,
        },
        Err(e) => e.into(),
    }
}
