// The states of the event machine. What each step does is said in specs/.
#![tactic(auto)]

ghost use Rattle.std.specs.Prelude.{◌≡◌};
ghost use Rattle.rules.specs.States.{ranked, numbers, back};

use tables::states::OpenState;

// In the order of parser.rs: the rank of a state is its place here, from 0.
#[derive(Clone, Copy)]
pub enum State {
    StreamStart,
    ImplicitDocumentStart,
    DocumentStart,
    DocumentContent,
    DocumentEnd,
    BlockNode,
    BlockSequenceFirstEntry,
    BlockSequenceEntry,
    IndentlessSequenceEntry,
    BlockMappingFirstKey,
    BlockMappingKey,
    BlockMappingValue,
    FlowSequenceFirstEntry,
    FlowSequenceEntry,
    FlowSequenceEntryMappingKey,
    FlowSequenceEntryMappingValue,
    FlowSequenceEntryMappingEnd(u32),
    FlowMappingFirstKey,
    FlowMappingKey,
    FlowMappingValue,
    FlowMappingEmptyValue,
    End,
}

// A state that holds no position.
#[tactic(auto, unfolding(crate::specs::States::ranked))]
fn ranked(rank: u32) -> OpenState
    ensures { result ≡ ranked rank }
{
    OpenState { rank, position: 0 }
}

// The ranks.
impl State {
    pub const STREAM_START: u32 = 0;

    pub const IMPLICIT_DOCUMENT_START: u32 = 1;

    pub const DOCUMENT_START: u32 = 2;

    pub const DOCUMENT_CONTENT: u32 = 3;

    pub const DOCUMENT_END: u32 = 4;

    pub const BLOCK_NODE: u32 = 5;

    pub const BLOCK_SEQUENCE_FIRST_ENTRY: u32 = 6;

    pub const BLOCK_SEQUENCE_ENTRY: u32 = 7;

    pub const INDENTLESS_SEQUENCE_ENTRY: u32 = 8;

    pub const BLOCK_MAPPING_FIRST_KEY: u32 = 9;

    pub const BLOCK_MAPPING_KEY: u32 = 10;

    pub const BLOCK_MAPPING_VALUE: u32 = 11;

    pub const FLOW_SEQUENCE_FIRST_ENTRY: u32 = 12;

    pub const FLOW_SEQUENCE_ENTRY: u32 = 13;

    pub const FLOW_SEQUENCE_ENTRY_MAPPING_KEY: u32 = 14;

    pub const FLOW_SEQUENCE_ENTRY_MAPPING_VALUE: u32 = 15;

    pub const FLOW_SEQUENCE_ENTRY_MAPPING_END: u32 = 16;

    pub const FLOW_MAPPING_FIRST_KEY: u32 = 17;

    pub const FLOW_MAPPING_KEY: u32 = 18;

    pub const FLOW_MAPPING_VALUE: u32 = 19;

    pub const FLOW_MAPPING_EMPTY_VALUE: u32 = 20;

    pub const END: u32 = 21;
}

impl State {
    // The two numbers of a state: its rank, and the position that it holds, else 0.
    #[tactic(auto, unfolding(crate::specs::States::numbers))]
    pub fn numbers(self) -> OpenState
        ensures { result ≡ numbers self }
    {
        match self {
            State::StreamStart => ranked(State::STREAM_START),
            State::ImplicitDocumentStart => ranked(State::IMPLICIT_DOCUMENT_START),
            State::DocumentStart => ranked(State::DOCUMENT_START),
            State::DocumentContent => ranked(State::DOCUMENT_CONTENT),
            State::DocumentEnd => ranked(State::DOCUMENT_END),
            State::BlockNode => ranked(State::BLOCK_NODE),
            State::BlockSequenceFirstEntry => ranked(State::BLOCK_SEQUENCE_FIRST_ENTRY),
            State::BlockSequenceEntry => ranked(State::BLOCK_SEQUENCE_ENTRY),
            State::IndentlessSequenceEntry => ranked(State::INDENTLESS_SEQUENCE_ENTRY),
            State::BlockMappingFirstKey => ranked(State::BLOCK_MAPPING_FIRST_KEY),
            State::BlockMappingKey => ranked(State::BLOCK_MAPPING_KEY),
            State::BlockMappingValue => ranked(State::BLOCK_MAPPING_VALUE),
            State::FlowSequenceFirstEntry => ranked(State::FLOW_SEQUENCE_FIRST_ENTRY),
            State::FlowSequenceEntry => ranked(State::FLOW_SEQUENCE_ENTRY),
            State::FlowSequenceEntryMappingKey => ranked(State::FLOW_SEQUENCE_ENTRY_MAPPING_KEY),
            State::FlowSequenceEntryMappingValue => ranked(
                State::FLOW_SEQUENCE_ENTRY_MAPPING_VALUE,
            ),
            State::FlowSequenceEntryMappingEnd(mark) => OpenState {
                rank: State::FLOW_SEQUENCE_ENTRY_MAPPING_END,
                position: mark,
            },
            State::FlowMappingFirstKey => ranked(State::FLOW_MAPPING_FIRST_KEY),
            State::FlowMappingKey => ranked(State::FLOW_MAPPING_KEY),
            State::FlowMappingValue => ranked(State::FLOW_MAPPING_VALUE),
            State::FlowMappingEmptyValue => ranked(State::FLOW_MAPPING_EMPTY_VALUE),
            State::End => ranked(State::END),
        }
    }

    // The state that has the numbers; End where there is no such rank.
    #[tactic(auto, unfolding(crate::specs::States::back, crate::specs::States::states))]
    pub fn back(p: OpenState) -> State
        ensures { result ≡ back p }
    {
        let rank = p.rank;
        match rank {
            State::STREAM_START => State::StreamStart,
            State::IMPLICIT_DOCUMENT_START => State::ImplicitDocumentStart,
            State::DOCUMENT_START => State::DocumentStart,
            State::DOCUMENT_CONTENT => State::DocumentContent,
            State::DOCUMENT_END => State::DocumentEnd,
            State::BLOCK_NODE => State::BlockNode,
            State::BLOCK_SEQUENCE_FIRST_ENTRY => State::BlockSequenceFirstEntry,
            State::BLOCK_SEQUENCE_ENTRY => State::BlockSequenceEntry,
            State::INDENTLESS_SEQUENCE_ENTRY => State::IndentlessSequenceEntry,
            State::BLOCK_MAPPING_FIRST_KEY => State::BlockMappingFirstKey,
            State::BLOCK_MAPPING_KEY => State::BlockMappingKey,
            State::BLOCK_MAPPING_VALUE => State::BlockMappingValue,
            State::FLOW_SEQUENCE_FIRST_ENTRY => State::FlowSequenceFirstEntry,
            State::FLOW_SEQUENCE_ENTRY => State::FlowSequenceEntry,
            State::FLOW_SEQUENCE_ENTRY_MAPPING_KEY => State::FlowSequenceEntryMappingKey,
            State::FLOW_SEQUENCE_ENTRY_MAPPING_VALUE => State::FlowSequenceEntryMappingValue,
            State::FLOW_SEQUENCE_ENTRY_MAPPING_END => State::FlowSequenceEntryMappingEnd(
                p.position,
            ),
            State::FLOW_MAPPING_FIRST_KEY => State::FlowMappingFirstKey,
            State::FLOW_MAPPING_KEY => State::FlowMappingKey,
            State::FLOW_MAPPING_VALUE => State::FlowMappingValue,
            State::FLOW_MAPPING_EMPTY_VALUE => State::FlowMappingEmptyValue,
            _ => State::End,
        }
    }
}
