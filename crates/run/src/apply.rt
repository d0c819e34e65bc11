// Applies what a step decided to the lent work bytes.
ghost use Rattle.std.specs.Prelude.{◌≡◌, suc, ◌-◌, ◌<◌};
ghost use Rattle.run.specs.Apply.{Pushed, Popping, Opening, NamePut, Naming, Entering, Declaring, Handling, Applying, numbered, stands, advanced};

use parser::{Handles, Machine, Names, Open, Stepped};
use records::tokens;
use records::tokens::{Read, Token};
use rules::State;
use tables::anchors::Anchor;
use tables::handles::Handle;
use tables::lookup::Entered;
use tables::states::Popped;
use tables::{anchors, handles, states};

// Where the machine stands in the open states: its own state, and how many are open.
#[derive(Drop)]
struct Standing {
    pub state: State,
    pub depth: usize,
}

#[derive(Drop)]
enum Opened {
    At(Standing),
    // There is no open state to go back to.
    Nothing,
}

// What applying a step comes to.
#[derive(Clone, Copy)]
pub(crate) enum Applied {
    Next(Machine),
    Stuck,
}

fn stands(state: State, depth: usize) -> Opened
    ensures { result ≡ stands state depth }
{
    Opened::At(Standing { state, depth })
}

// Opens a state over `n` others; how many are open then.
fn push(bytes: &mut [u8], n: usize, p: State) -> usize
    ensures { Pushed bytes.old n p result bytes.new }
{
    let numbers = p.numbers();
    if states::put_state(bytes, n, numbers) {
        n + 1
    } else {
        n
    }
}

// Goes back to the last of `n` open states.
fn pop(bytes: &mut [u8], n: usize) -> Opened
    ensures { Popping bytes.old n result bytes.new }
{
    let popped = states::pop_state(bytes, n);
    match popped {
        Popped::State(p) => stands(State::back(p), n - 1),
        Popped::Nothing => Opened::Nothing,
    }
}

// What is changed in the open states.
fn change_states(bytes: &mut [u8], state: State, n: usize, change: Open) -> Opened
    ensures { Opening bytes.old state n change result bytes.new }
{
    match change {
        Open::Keep => stands(state, n),
        Open::Push(p) => stands(state, push(bytes, n, p)),
        Open::Pop => pop(bytes, n),
    }
}

// Puts an anchor into place `i`; how many of the `n` are in use then.
fn put_name(bytes: &mut [u8], n: usize, i: usize, a: Anchor) -> usize
    ensures { NamePut bytes.old n i a result bytes.new }
{
    if anchors::put_anchor(bytes, i, a) {
        if i == n {
            return n + 1;
        }
    }
    n
}

// What is changed in the anchors.
fn change_names(bytes: &mut [u8], n: usize, change: Names) -> usize
    ensures { Naming bytes.old n change result bytes.new }
{
    match change {
        Names::Keep => n,
        Names::Put(i, a) => put_name(bytes, n, i, a),
        Names::Forget => {
            places::clear_used(bytes, Anchor::SIZE, n);
            0
        }
    }
}

// The next id: one is used up by each anchor.
fn next_id(next: u32, change: Names) -> u32
    requires { suc next < 4294967296 }
    ensures { result ≡ numbered next change }
{
    match change {
        Names::Keep => next,
        Names::Put(_, _) => next + 1,
        Names::Forget => next,
    }
}

// Enters a handle among the `n` in use; how many are then.
fn enter(text: &[u8], bytes: &mut [u8], n: usize, h: Handle) -> usize
    ensures { Entering text.now bytes.old n h result bytes.new }
{
    let entered = handles::enter_handle(text, bytes, n, h);
    match entered {
        Entered::Used(used) => used,
        Entered::Full => n,
    }
}

// Enters the handle of the token at `at`, where it is a tag directive.
fn declare_at(tokens: &[u8], text: &[u8], bytes: &mut [u8], n: usize, at: usize) -> usize
    ensures { Declaring tokens.now text.now bytes.old n at 1 result bytes.new }
{
    let read = tokens::read_token(tokens, text, at);
    let Read::Token(t) = read else {
        return n;
    };
    if t.kind == Token::TAG_DIRECTIVE {
        let name = t.a;
        let prefix = t.b;
        return enter(text, bytes, n, Handle { name, prefix });
    }
    n
}

// Enters those of the tokens from `from` up to `to`.
fn declare(tokens: &[u8], text: &[u8], bytes: &mut [u8], n: usize, from: usize, to: usize) -> usize
    ensures { Declaring tokens.now text.now bytes.old n from (to - from) result bytes.new }
{
    let mut used = n;
    let mut at = from;
    while at < to {
        used = declare_at(tokens, text, bytes, used, at);
        at += 1;
    }
    used
}

// What is changed in the handles.
fn change_handles(tokens: &[u8], text: &[u8], bytes: &mut [u8], n: usize, change: Handles) -> usize
    ensures { Handling tokens.now text.now bytes.old n change result bytes.new }
{
    match change {
        Handles::Keep => n,
        Handles::Declare(from, to) => declare(tokens, text, bytes, n, from, to),
        Handles::Forget => {
            places::clear_used(bytes, Handle::SIZE, n);
            0
        }
    }
}

// The machine with what was changed.
fn advanced(m: Machine, opened: Opened, names: usize, handles: usize, next: u32) -> Applied
    ensures { result ≡ advanced m opened names handles next }
{
    let Opened::At(s) = opened else {
        return Applied::Stuck;
    };
    let state = s.state;
    Applied::Next(Machine {
        state,
        at: m.at,
        depth: s.depth,
        names,
        handles,
        next,
    })
}

// Applies a step that was taken.
pub(crate) fn apply(
    tokens: &[u8],
    text: &[u8],
    states: &mut [u8],
    anchors: &mut [u8],
    handles: &mut [u8],
    s: Stepped,
) -> Applied
    requires { suc s.machine.next < 4294967296 }
    ensures { Applying tokens.now text.now states.old anchors.old handles.old s result states.new anchors.new handles.new }
{
    let m = s.machine;
    let state = m.state;
    let open = s.states;
    let name = s.names;
    let tag = s.handles;
    let opened = change_states(states, state, m.depth, open);
    let names = change_names(anchors, m.names, name);
    let used = change_handles(tokens, text, handles, m.handles, tag);
    let next = next_id(m.next, name);
    advanced(m, opened, names, used, next)
}
