// The event machine: each step takes the machine by value and hands back the next, with one event. A
// step only decides; what is to change in the lent places is part of its answer.
#![tactic(auto)]

ghost use Rattle.std.specs.Prelude.{◌≡◌, length};
ghost use Rattle.rules.specs.Rules.Words.{plain, empty_scalar, no_tag};
ghost use Rattle.records.specs.Tokens.{read_at};
ghost use Rattle.rules.specs.Rules.{into, pop_state, state_machine};
ghost use Rattle.parser.specs.Machine.{fresh, lent};
ghost use Rattle.parser.specs.Answers.{refusing, refused_by, goes, next, moved, over_of, decided};
ghost use Rattle.parser.specs.Plans.{plan_done, plan_node, Planned, turn_of, behind_first, is_full};

mod block;
mod directives;
mod document;
mod flow;
mod kinds;
mod node;
mod tag;

use records::events::{Event, Tag};
use records::tokens::{Read, Refusal, Token};
use records::{names, tokens};
use rules::State;
use tables::anchors::Anchor;

// The small state. The counts say how many open states, anchors and handles are in use.
#[derive(Clone, Copy)]
pub struct Machine {
    pub state: State,
    pub at: usize,
    pub depth: usize,
    pub names: usize,
    pub handles: usize,
    pub next: u32,
}

// The terms of a run: how many places there are, and the two settings.
#[derive(Clone, Copy)]
pub struct Terms {
    pub states: usize,
    pub names: usize,
    pub handles: usize,
    pub keep: bool,
    pub forget: bool,
}

// What a step changes in the open states.
#[derive(Clone, Copy)]
pub enum Open {
    Keep,
    Push(State),
    Pop,
}

// In the anchors: one goes into a place.
#[derive(Clone, Copy)]
pub enum Names {
    Keep,
    Put(usize, Anchor),
    Forget,
}

// In the handles: those of the tag directives from one token up to another are declared.
#[derive(Clone, Copy)]
pub enum Handles {
    Keep,
    Declare(usize, usize),
    Forget,
}

// A step that was taken. Its machine has the next state and place, but for a pop, whose state stands in the
// open places; the counts and the next id follow from what is changed.
#[derive(Clone, Copy)]
pub struct Stepped {
    pub machine: Machine,
    pub event: Event,
    pub states: Open,
    pub names: Names,
    pub handles: Handles,
}

#[derive(Clone, Copy)]
pub enum Step {
    Next(Stepped),
    Refused(Refusal),
    // The machine has ended.
    Stuck,
}

// What a node stands over: the open states as they are, or one more that was just pushed.
#[derive(Clone, Copy)]
pub enum Over {
    Here,
    Above(State),
}

// What a state decides: a node is parsed or, without one, the step is taken. Side by side, since one place in memory
// for either costs a tenth of the run.
#[derive(Drop)]
struct Plan {
    step: Step,
    node: Wanted,
}

#[derive(Drop)]
enum Wanted {
    Nothing,
    // Its place and first token, what it stands over, whether it stands in a block, and whether its content may be a
    // sequence without indent.
    Node(usize, Token, Over, bool, bool),
}

// What each state calls, with its flag.
#[derive(Drop)]
enum Turn {
    StreamStart,
    DocumentStart(bool),
    DocumentContent,
    DocumentEnd,
    BlockNode,
    BlockSequenceEntry(bool),
    IndentlessSequenceEntry,
    BlockMappingKey(bool),
    BlockMappingValue,
    FlowSequenceEntry(bool),
    FlowSequenceEntryMappingKey,
    FlowSequenceEntryMappingValue,
    FlowSequenceEntryMappingEnd(u32),
    FlowMappingKey(bool),
    FlowMappingValue(bool),
    End,
}

fn turn_of(state: State) -> Turn
    ensures { result ≡ turn_of state }
{
    match state {
        State::StreamStart => Turn::StreamStart,
        State::ImplicitDocumentStart => Turn::DocumentStart(true),
        State::DocumentStart => Turn::DocumentStart(false),
        State::DocumentContent => Turn::DocumentContent,
        State::DocumentEnd => Turn::DocumentEnd,
        State::BlockNode => Turn::BlockNode,
        State::BlockSequenceFirstEntry => Turn::BlockSequenceEntry(true),
        State::BlockSequenceEntry => Turn::BlockSequenceEntry(false),
        State::IndentlessSequenceEntry => Turn::IndentlessSequenceEntry,
        State::BlockMappingFirstKey => Turn::BlockMappingKey(true),
        State::BlockMappingKey => Turn::BlockMappingKey(false),
        State::BlockMappingValue => Turn::BlockMappingValue,
        State::FlowSequenceFirstEntry => Turn::FlowSequenceEntry(true),
        State::FlowSequenceEntry => Turn::FlowSequenceEntry(false),
        State::FlowSequenceEntryMappingKey => Turn::FlowSequenceEntryMappingKey,
        State::FlowSequenceEntryMappingValue => Turn::FlowSequenceEntryMappingValue,
        State::FlowSequenceEntryMappingEnd(mark) => Turn::FlowSequenceEntryMappingEnd(mark),
        State::FlowMappingFirstKey => Turn::FlowMappingKey(true),
        State::FlowMappingKey => Turn::FlowMappingKey(false),
        State::FlowMappingValue => Turn::FlowMappingValue(false),
        State::FlowMappingEmptyValue => Turn::FlowMappingValue(true),
        State::End => Turn::End,
    }
}

fn refuse(number: u32, place: u32) -> Step
    ensures { result ≡ refusing number place }
{
    Step::Refused(Refusal { number, place })
}

// The refusal that reading a token gave.
fn refused(read: Read) -> Step
    ensures { result ≡ refused_by read }
{
    match read {
        Read::Refused(e) => Step::Refused(e),
        Read::Token(_) => Step::Stuck,
    }
}

// The same as plans.
fn decline(number: u32, place: u32) -> Plan
    ensures { result ≡ plan_done (refusing number place) }
{
    Plan::done(refuse(number, place))
}

fn declined(read: Read) -> Plan
    ensures { result ≡ plan_done (refused_by read) }
{
    Plan::done(refused(read))
}

// Behind the token that a First state takes. A bad one is not taken: it is refused when it is read.
fn skip_first(tokens: &[u8], text: &[u8], at: usize, first: bool) -> usize
    ensures { result ≡ behind_first first (read_at tokens.now (length text.now) at) at }
{
    if first {
        let read = tokens::read_token(tokens, text, at);
        let Read::Token(_) = read else {
            return at;
        };
        return at + 1;
    }
    at
}

// No tag.
fn no_tag() -> Tag
    ensures { result ≡ no_tag }
{
    Tag {
        source: 0,
        prefix: names::no_range(),
        suffix: names::no_range(),
    }
}

// An event that is no node.
fn plain(kind: u32, start: u32, end: u32, number: u32) -> Event
    ensures { result ≡ plain kind start end number }
{
    Event {
        kind,
        start,
        end,
        number,
        style: 0,
        value: names::no_range(),
        tag: no_tag(),
    }
}

fn empty_scalar(t: Token) -> Event
    ensures { result ≡ empty_scalar t }
{
    plain(Event::SCALAR, t.start, t.end, 0)
}

impl Plan {
    fn done(step: Step) -> Self
        ensures { result ≡ plan_done step }
    {
        Plan {
            step,
            node: Wanted::Nothing,
        }
    }

    fn node(at: usize, t: Token, over: Over, block: bool, indentless: bool) -> Self
        ensures { result ≡ plan_node at t over block indentless }
    {
        Plan {
            step: Step::Stuck,
            node: Wanted::Node(at, t, over, block, indentless),
        }
    }
}

impl Machine {
    pub const FIRST_ID: u32 = 1;

    pub fn fresh() -> Self
        ensures { result ≡ fresh }
    {
        Machine {
            state: State::StreamStart,
            at: 0,
            depth: 0,
            names: 0,
            handles: 0,
            next: Machine::FIRST_ID,
        }
    }

    // The step from the state that the machine is in.
    pub fn step(self, tokens: &[u8], text: &[u8], names: &[u8], tags: &[u8], terms: Terms) -> Step
        ensures { result ≡ decided (lent tokens.now text.now names.now tags.now terms) self (λ g m. state_machine g m m.state) }
    {
        let plan = self.plan(tokens, text, names, tags, terms);
        let node = plan.node;
        match node {
            Wanted::Node(at, t, over, block, indentless) => {
                if self.is_full(over, terms) {
                    return refuse(23, 0);
                }
                self.parse_node(
                    tokens, text, names, tags, terms, at, t, over, block, indentless,
                )
            }
            Wanted::Nothing => {
                // By a let, here and in `parse_node`: as fields they take 2 in 100 more of the run's instructions.
                let step = plan.step;
                step
            }
        }
    }

    // Whether there is no place for the state that a node stands over.
    fn is_full(self, over: Over, terms: Terms) -> bool
        ensures { result ≡ is_full self.depth terms.states over }
    {
        match over {
            Over::Here => false,
            Over::Above(_) => self.depth >= terms.states,
        }
    }

    // state_machine, but for the nodes.
    fn plan(self, tokens: &[u8], text: &[u8], names: &[u8], tags: &[u8], terms: Terms) -> Plan
        ensures { Planned (lent tokens.now text.now names.now tags.now terms) self (λ g m. state_machine g m m.state) result }
    {
        let state = self.state;
        let turn = turn_of(state);
        match turn {
            Turn::StreamStart => self.stream_start(tokens, text),
            Turn::DocumentStart(implicit) => {
                self.document_start(tokens, text, names, tags, terms, implicit)
            }
            Turn::DocumentContent => self.document_content(tokens, text),
            Turn::DocumentEnd => self.document_end(tokens, text, names, tags, terms),
            Turn::BlockNode => self.block_node(tokens, text),
            Turn::BlockSequenceEntry(first) => self.block_sequence_entry(tokens, text, first),
            Turn::IndentlessSequenceEntry => self.indentless_sequence_entry(tokens, text),
            Turn::BlockMappingKey(first) => self.block_mapping_key(tokens, text, first),
            Turn::BlockMappingValue => self.block_mapping_value(tokens, text),
            Turn::FlowSequenceEntry(first) => self.flow_sequence_entry(tokens, text, first),
            Turn::FlowSequenceEntryMappingKey => self.flow_sequence_entry_mapping_key(tokens, text),
            Turn::FlowSequenceEntryMappingValue => {
                self.flow_sequence_entry_mapping_value(tokens, text)
            }
            Turn::FlowSequenceEntryMappingEnd(mark) => self.flow_sequence_entry_mapping_end(mark),
            Turn::FlowMappingKey(first) => self.flow_mapping_key(tokens, text, first),
            Turn::FlowMappingValue(empty) => self.flow_mapping_value(tokens, text, empty),
            Turn::End => Plan::done(Step::Stuck),
        }
    }

    // Goes to a state, with the tokens before `at` taken.
    fn goes(self, at: usize, state: State) -> Self
        ensures { result ≡ goes self at state }
    {
        Machine {
            state,
            at,
            depth: self.depth,
            names: self.names,
            handles: self.handles,
            next: self.next,
        }
    }

    // The answer of a step that was taken.
    fn next(self, event: Event, states: Open, names: Names, handles: Handles) -> Step
        ensures { result ≡ next self event states names handles }
    {
        Step::Next(Stepped {
            machine: self,
            event,
            states,
            names,
            handles,
        })
    }

    // Goes to a state with an event.
    fn give(self, at: usize, state: State, event: Event) -> Plan
        ensures { result ≡ plan_done (next (goes self at state) event Open.Keep Names.Keep Handles.Keep) }
    {
        let m = self.goes(at, state);
        Plan::done(m.next(event, Open::Keep, Names::Keep, Handles::Keep))
    }

    // Goes back to the last open state with an event.
    fn pop(self, at: usize, event: Event) -> Plan
        ensures { result ≡ plan_done (next (goes self at self.state) event Open.Pop Names.Keep Handles.Keep) }
    {
        let state = self.state;
        let m = self.goes(at, state);
        Plan::done(m.next(event, Open::Pop, Names::Keep, Handles::Keep))
    }

    // A node begins a collection.
    fn begin(self, at: usize, over: Over, state: State, event: Event, names: Names) -> Step
        ensures { result ≡ moved self at (into (over_of over) state) event names }
    {
        match over {
            Over::Here => self
                .goes(at, state)
                .next(event, Open::Keep, names, Handles::Keep),
            Over::Above(p) => self
                .goes(at, state)
                .next(event, Open::Push(p), names, Handles::Keep),
        }
    }

    // A node is whole with one event.
    fn finish(self, at: usize, over: Over, event: Event, names: Names) -> Step
        ensures { result ≡ moved self at (pop_state (over_of over)) event names }
    {
        match over {
            Over::Here => {
                let state = self.state;
                self.goes(at, state)
                    .next(event, Open::Pop, names, Handles::Keep)
            }
            Over::Above(p) => self
                .goes(at, p)
                .next(event, Open::Keep, names, Handles::Keep),
        }
    }
}
