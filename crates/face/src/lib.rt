// The run and the walk of `load` by the C convention, over byte buffers alone. include/saphyr_events.h declares them:
// so each buffer is a parameter of its own, a setting is a number, and so is a refusal (the C interface).
#![tactic(auto)]

ghost use Rattle.std.specs.Prelude.{◌≡◌, [], ◌∷◌};
ghost use Rattle.places.specs.Places.{stored};
ghost use Rattle.face.specs.Face.{faced, saphyr_run, walked, saphyr_load};

use run::{Answer, Settings};

// What an answer takes.
const ROOM: usize = Answer::SIZE;

// An answer buffer with less room.
const NO_ANSWER: u32 = 28;

// Stores number, count and place, and returns the number.
fn answered(answer: &mut [u8], number: u32, count: u32, place: u32) -> u32
    ensures number { result ≡ number }
    ensures bytes { answer.new ≡ stored answer.old 0 (number ∷ count ∷ place ∷ []) }
{
    places::put_place(answer, 0, &[number, count, place]);
    number
}

#[tactic(auto, unfolding(crate::specs::Face::saphyr_run, crate::specs::Face::returned, crate::specs::Face::on, crate::specs::Face::answered, run::specs::Run::left))]
#[unsafe(no_mangle)]
pub extern "C" fn saphyr_run(
    tokens: &[u8],
    text: &[u8],
    keep: u32,
    forget: u32,
    events: &mut [u8],
    states: &mut [u8],
    anchors: &mut [u8],
    handles: &mut [u8],
    answer: &mut [u8],
) -> u32
    ensures { faced result events.new states.new anchors.new handles.new answer.new ≡ saphyr_run tokens.now text.now keep forget events.old states.old anchors.old handles.old answer.old }
{
    if answer.len() < ROOM {
        return NO_ANSWER;
    }
    let settings = Settings {
        keep: keep != 0,
        forget: forget != 0,
    };
    let given = run::run(tokens, text, settings, events, states, anchors, handles);
    answered(answer, given.number, given.count, given.place)
}

#[tactic(auto, unfolding(crate::specs::Face::saphyr_load, crate::specs::Face::said))]
#[unsafe(no_mangle)]
pub extern "C" fn saphyr_load(events: &[u8], answer: &mut [u8]) -> u32
    ensures { walked result answer.new ≡ saphyr_load events.now answer.old }
{
    if answer.len() < ROOM {
        return NO_ANSWER;
    }
    let given = load::load(events);
    let place = (given.place % 4294967296) as u32;
    answered(answer, given.number, given.count, place)
}
