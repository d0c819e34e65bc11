// The buffers that a case lends to the face.
use crate::bytes;
use crate::frame::Frame;

// Buffers of the lengths that tests/README.md states. A case that wants more differs.
#[derive(Drop)]
pub(crate) struct Rooms {
    events: [u8; 9600],
    states: [u8; 544],
    anchors: [u8; 816],
    handles: [u8; 1088],
    answer: [u8; 64],
}

// Their first bytes, which have exactly the lengths of the case.
#[derive(Drop)]
pub(crate) struct Buffers<'a> {
    pub(crate) events: &'a mut [u8],
    pub(crate) states: &'a mut [u8],
    pub(crate) anchors: &'a mut [u8],
    pub(crate) handles: &'a mut [u8],
    pub(crate) answer: &'a mut [u8],
}

impl Rooms {
    // Filled with this byte.
    pub(crate) fn filled(byte: u8) -> Rooms {
        Rooms {
            events: [byte; 9600],
            states: [byte; 544],
            anchors: [byte; 816],
            handles: [byte; 1088],
            answer: [byte; 64],
        }
    }

    // None where the case wants more than there is.
    pub(crate) fn lent(&mut self, frame: &Frame<'_>) -> Option<Buffers<'_>> {
        let Rooms {
            events,
            states,
            anchors,
            handles,
            answer,
        } = self;
        let case = frame.case;
        Some(Buffers {
            events: events.get_mut(..bytes::length(case, 3))?,
            states: states.get_mut(..bytes::length(case, 4))?,
            anchors: anchors.get_mut(..bytes::length(case, 5))?,
            handles: handles.get_mut(..bytes::length(case, 6))?,
            answer: answer.get_mut(..bytes::length(case, 7))?,
        })
    }
}

impl Buffers<'_> {
    // Lends them to the face with what the case has, and answers the number that it returns.
    pub(crate) fn run(&mut self, frame: &Frame<'_>) -> u32 {
        face::saphyr_run(
            frame.tokens,
            frame.text,
            bytes::number(frame.case, 1),
            bytes::number(frame.case, 2),
            self.events,
            self.states,
            self.anchors,
            self.handles,
            self.answer,
        )
    }
}
