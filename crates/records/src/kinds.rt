// The kinds of events: their numbers in a record, and their names.
ghost use Rattle.std.specs.Prelude.{◌≡◌, Some, ok_or};
ghost use Rattle.records.specs.EventKinds.{event_number, event_kind_of, event_name};

use std::fmt;

#[derive(Clone, Copy, Debug, PartialEq, Eq)]
pub enum EventKind {
    StreamStart = 1,
    StreamEnd = 2,
    DocumentStart = 3,
    DocumentEnd = 4,
    Alias = 5,
    Scalar = 6,
    SequenceStart = 7,
    SequenceEnd = 8,
    MappingStart = 9,
    MappingEnd = 10,
}

// A number that is no kind.
#[derive(Clone, Copy, Debug, PartialEq, Eq)]
pub struct UnknownKind;

impl EventKind {
    #[tactic(auto, unfolding(crate::specs::EventKinds::event_number))]
    pub fn number(self) -> u32
        ensures { result ≡ event_number self }
    {
        self as u32
    }
}

impl TryFrom<u32> for EventKind {
    type Error = UnknownKind;

    ghost try_from_gives = { λ n r. r ≡ ok_or (event_kind_of n) (record {}) };

    #[tactic(auto, unfolding(crate::specs::EventKinds::event_kind_of, crate::specs::EventKinds::event_number))]
    fn try_from(number: u32) -> Result<Self, UnknownKind> {
        match number {
            1 => Ok(EventKind::StreamStart),
            2 => Ok(EventKind::StreamEnd),
            3 => Ok(EventKind::DocumentStart),
            4 => Ok(EventKind::DocumentEnd),
            5 => Ok(EventKind::Alias),
            6 => Ok(EventKind::Scalar),
            7 => Ok(EventKind::SequenceStart),
            8 => Ok(EventKind::SequenceEnd),
            9 => Ok(EventKind::MappingStart),
            10 => Ok(EventKind::MappingEnd),
            _ => Err(UnknownKind),
        }
    }
}

// The names that parser.rs has for them.
impl fmt::Display for EventKind {
    ghost output = { λ kind. Some (event_name kind) };

    #[tactic(auto, unfolding(crate::specs::EventKinds::event_name))]
    fn fmt<W: fmt::Write>(&self, f: &mut fmt::Formatter<W>) -> fmt::Result {
        f.write_str(match self {
            EventKind::StreamStart => "StreamStart",
            EventKind::StreamEnd => "StreamEnd",
            EventKind::DocumentStart => "DocumentStart",
            EventKind::DocumentEnd => "DocumentEnd",
            EventKind::Alias => "Alias",
            EventKind::Scalar => "Scalar",
            EventKind::SequenceStart => "SequenceStart",
            EventKind::SequenceEnd => "SequenceEnd",
            EventKind::MappingStart => "MappingStart",
            EventKind::MappingEnd => "MappingEnd",
        })
    }
}
