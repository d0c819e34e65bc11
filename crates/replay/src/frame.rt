// The parts of a case and of its answer in a file.
ghost use Rattle.std.specs.Prelude.{◌<◌, length, IfSome};

use crate::bytes;

// The marks `CASE` and `ANSW` as numbers.
const CASE: u32 = 0x4553_4143;

const ANSW: u32 = 0x5753_4E41;

// Bytes before the token list of a case, and before the events of an answer.
const CASE_HEAD: usize = 44;

const ANSW_HEAD: usize = 32;

// A case and its answer: the numbers that each begins with, and what stands behind them.
#[derive(Clone, Copy)]
pub(crate) struct Frame<'a> {
    pub(crate) case: &'a [u8],
    pub(crate) tokens: &'a [u8],
    pub(crate) text: &'a [u8],
    pub(crate) answer: &'a [u8],
    pub(crate) events: &'a [u8],
    pub(crate) side: &'a [u8],
}

impl<'a> Frame<'a> {
    // The case that `file` begins with, and what stands behind its answer; none where one is cut off or is none.
    pub(crate) fn read(file: &'a [u8]) -> Option<(Frame<'a>, &'a [u8])>
        ensures { IfSome result (λ r. length r.1.now < length file.now) }
    {
        let (case, file) = file.split_at_checked(CASE_HEAD)?;
        let (tokens, file) = file.split_at_checked(bytes::length(case, 9))?;
        let (text, file) = file.split_at_checked(bytes::length(case, 10))?;
        let (answer, file) = file.split_at_checked(ANSW_HEAD)?;
        let (events, file) = file.split_at_checked(bytes::length(answer, 6))?;
        let (side, file) = file.split_at_checked(bytes::length(answer, 7))?;
        if bytes::number(case, 0) != CASE || bytes::number(answer, 0) != ANSW {
            return None;
        }
        let frame = Frame {
            case,
            tokens,
            text,
            answer,
            events,
            side,
        };
        Some((frame, file))
    }
}
