// One case: the call, and what it leaves behind.
use crate::buffers::Rooms;
use crate::frame::Frame;
use crate::{bytes, compare};

// The byte that the lent buffers are filled with.
fn filling(frame: &Frame<'_>) -> u8 {
    (bytes::number(frame.case, 8) % 256) as u8
}

// Whether the case is answered as its answer says.
pub fn agrees(frame: &Frame<'_>) -> bool {
    let byte = filling(frame);
    let mut rooms = Rooms::filled(byte);
    let Some(mut buffers) = rooms.lent(frame) else {
        return false;
    };
    let returned = buffers.run(frame);
    compare::same(frame, byte, returned, &buffers)
}
