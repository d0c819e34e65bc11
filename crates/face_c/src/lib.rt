// The face for C, as a static library: each export calls the face's function of its name, and states its clause again.
// include/saphyr_events.h declares them.
#![tactic(auto)]

ghost use Rattle.std.specs.Prelude.{◌≡◌};
ghost use Rattle.face.specs.Face.{faced, saphyr_run, walked, saphyr_load};

#[unsafe(no_mangle)]
pub extern "C" fn saphyr_run(
    tokens: &[u8],
    text: &[u8],
    keep: u32,
    forget: u32,
    events: &mut [u8],
    states: &mut [u8],
    anchors: &mut [u8],
    handles: &mut [u8],
    answer: &mut [u8],
) -> u32
    ensures { faced result events.new states.new anchors.new handles.new answer.new ≡ saphyr_run tokens.now text.now keep forget events.old states.old anchors.old handles.old answer.old }
{
    face::saphyr_run(
        tokens, text, keep, forget, events, states, anchors, handles, answer,
    )
}

#[unsafe(no_mangle)]
pub extern "C" fn saphyr_load(events: &[u8], answer: &mut [u8]) -> u32
    ensures { walked result answer.new ≡ saphyr_load events.now answer.old }
{
    face::saphyr_load(events, answer)
}
