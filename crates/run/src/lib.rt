// Runs the event machine over lent bytes: a step is decided, applied, and its event stored.
#![tactic(auto)]

ghost use Rattle.std.specs.Prelude.{◌≡◌, suc, ◌<◌, length};
ghost use Rattle.places.specs.Places.{places};
ghost use Rattle.records.specs.Checks.{first_checks};
ghost use Rattle.records.specs.Events.{event_size};
ghost use Rattle.rules.specs.Run.{ended, fresh};
ghost use Rattle.parser.specs.Machine as machine;
ghost use Rattle.run.specs.Run.{told, runs, left, rooms_of, checked_run};
ghost use Rattle.run.specs.Turns.{stopped, answered, tell, terms_of, Cleared, Tidy, Ready, Here, Taking, Turned, rest};

mod apply;

use crate::apply::Applied;
use parser::{Machine, Step, Stepped, Terms};
use records::checks::Checked;
use records::tokens::Refusal;
use records::{checks, events};
use rules::State;
use tables::anchors::Anchor;
use tables::handles::Handle;
use tables::states::OpenState;

// keep: tag directives stay in force behind a document's end. forget: a document forgets the anchors before it.
#[derive(Clone, Copy)]
pub struct Settings {
    pub keep: bool,
    pub forget: bool,
}

// 0 or the number of the refusal, how many events were stored, and the place of the refusal.
#[derive(Clone, Copy)]
pub struct Answer {
    pub number: u32,
    pub count: u32,
    pub place: u32,
}

// Bytes of an answer at the face, 4 for each number.
impl Answer {
    pub const SIZE: usize = 12;
}

// How a turn of the run ends.
#[derive(Drop)]
enum Went {
    // An event was stored, and the run goes on.
    On(Machine),
    // The last event was stored.
    Ended,
    // No event was stored.
    Stopped(Refusal),
}

// What a pop from no open state is answered with; no run comes to it.
const STUCK: u32 = 29;

// There is no place for an event.
const NO_EVENT: u32 = 22;

fn stopped(number: u32, place: u32) -> Went
    ensures { result ≡ stopped number place }
{
    Went::Stopped(Refusal { number, place })
}

fn answered(number: u32, count: usize, place: u32) -> Answer
    requires { count < 4294967296 }
    ensures { result ≡ answered number count place }
{
    let count = count as u32;
    Answer {
        number,
        count,
        place,
    }
}

// The terms of a run whose work buffers have these lengths.
fn terms_of(settings: Settings, states: usize, anchors: usize, handles: usize) -> Terms
    ensures { result ≡ terms_of settings states anchors handles }
{
    Terms {
        states: states / OpenState::SIZE,
        names: anchors / Anchor::SIZE,
        handles: handles / Handle::SIZE,
        keep: settings.keep,
        forget: settings.forget,
    }
}

fn is_end(state: State) -> bool
    ensures { result ≡ ended state }
{
    let p = state.numbers();
    p.rank == State::END
}

fn clear_work(states: &mut [u8], anchors: &mut [u8], handles: &mut [u8])
    ensures { Cleared states.old anchors.old handles.old states.new anchors.new handles.new }
{
    places::clear_all(states);
    places::clear_all(anchors);
    places::clear_all(handles);
}

// Takes a step that was decided: it is applied, and its event is stored last.
fn take(
    tokens: &[u8],
    text: &[u8],
    s: Stepped,
    count: usize,
    events: &mut [u8],
    states: &mut [u8],
    anchors: &mut [u8],
    handles: &mut [u8],
) -> Went
    requires { suc s.machine.next < 4294967296 }
    ensures { Taking tokens.now text.now s count events.old states.old anchors.old handles.old result events.new states.new anchors.new handles.new }
{
    let applied = apply::apply(tokens, text, states, anchors, handles, s);
    let Applied::Next(m) = applied else {
        return stopped(STUCK, 0);
    };
    let event = s.event;
    if events::store_event(events, count, event) {
        let state = m.state;
        if is_end(state) {
            return Went::Ended;
        }
        return Went::On(m);
    }
    stopped(NO_EVENT, 0)
}

// One turn of the run.
fn turn(
    tokens: &[u8],
    text: &[u8],
    terms: Terms,
    m: Machine,
    count: usize,
    events: &mut [u8],
    states: &mut [u8],
    anchors: &mut [u8],
    handles: &mut [u8],
) -> Went
    requires { Here tokens.now text.now terms count states.old anchors.old handles.old m }
    ensures { Turned tokens.now text.now terms count events.old states.old anchors.old handles.old m result events.new states.new anchors.new handles.new }
{
    let step = m.step(tokens, text, anchors, handles, terms);
    match step {
        Step::Next(s) => take(tokens, text, s, count, events, states, anchors, handles),
        Step::Refused(e) => Went::Stopped(e),
        Step::Stuck => stopped(STUCK, 0),
    }
}

// The turns of a run over a list that passed the first checks.
fn steps(
    tokens: &[u8],
    text: &[u8],
    terms: Terms,
    events: &mut [u8],
    states: &mut [u8],
    anchors: &mut [u8],
    handles: &mut [u8],
) -> Answer
    requires { Ready tokens.now text.now terms states.old anchors.old handles.old }
    ensures { tell result events.new ≡ told events.old (rest tokens.now text.now terms (places events.old event_size) fresh) }
{
    let mut m = Machine::fresh();
    let mut count: usize = 0;
    loop {
        let turned = turn(
            tokens, text, terms, m, count, events, states, anchors, handles,
        );
        match turned {
            Went::On(next) => {
                m = next;
                count += 1;
            }
            Went::Ended => return answered(0, count + 1, 0),
            Went::Stopped(e) => return answered(e.number, count, e.place),
        }
    }
}

// The first checks, and the turns of a list that passes them.
fn checked_run(
    tokens: &[u8],
    text: &[u8],
    settings: Settings,
    events: &mut [u8],
    states: &mut [u8],
    anchors: &mut [u8],
    handles: &mut [u8],
) -> Answer
    requires { Tidy states.old anchors.old handles.old machine.fresh }
    ensures { tell result events.new ≡ checked_run (first_checks tokens.now (length text.now)) tokens.now text.now settings (rooms_of states.old anchors.old handles.old) events.old }
{
    let checked = checks::first_checks(tokens, text);
    match checked {
        Checked::Passed(_) => {
            let terms = terms_of(settings, states.len(), anchors.len(), handles.len());
            steps(tokens, text, terms, events, states, anchors, handles)
        }
        Checked::Refused(e) => answered(e.number, 0, e.place),
    }
}

// Runs the token list over its text. The work buffers are zeroed whole before the first step, and at the end.
pub fn run(
    tokens: &[u8],
    text: &[u8],
    settings: Settings,
    events: &mut [u8],
    states: &mut [u8],
    anchors: &mut [u8],
    handles: &mut [u8],
) -> Answer
    ensures { left result events.new states.new anchors.new handles.new ≡ runs tokens.now text.now settings events.old states.old anchors.old handles.old }
{
    clear_work(states, anchors, handles); // unused places are zero between events
    let answer = checked_run(tokens, text, settings, events, states, anchors, handles);
    clear_work(states, anchors, handles);
    answer
}
