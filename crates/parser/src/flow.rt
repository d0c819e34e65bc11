// The flow states.
ghost use Rattle.std.specs.Prelude.{◌≡◌, ◌&&◌, not, List, ℕ};
ghost use Rattle.rules.specs.Rules.Words.{is, choose◌then◌else◌};
ghost use Rattle.rules.specs.Rules.{flow_sequence_entry, flow_entry, flow_sequence_entry_mapping_key, flow_sequence_entry_mapping_value, flow_sequence_entry_mapping_end, flow_mapping_key, flow_mapping_entry, flow_mapping_value};
ghost use Rattle.parser.specs.Plans.{Plans};

use crate::{Machine, Over, Plan, kinds};
use records::events::Event;
use records::tokens;
use records::tokens::{Read, Token};
use rules::State;

// Neither the first entry nor a comma.
fn no_comma(first: bool, t: Token) -> bool
    ensures { result ≡ not first && not (is t 17) }
{
    if first {
        false
    } else {
        t.kind != Token::FLOW_ENTRY
    }
}

// Where an entry starts: behind the comma, but for the first.
fn entry_at(first: bool, at: usize, next: usize) -> usize
    ensures { result ≡ (choose first then at else next) }
{
    if first { at } else { next }
}

impl Machine {
    pub(crate) fn flow_sequence_entry(self, tokens: &[u8], text: &[u8], first: bool) -> Plan
        ensures { Plans tokens.now text.now self (λ g m. flow_sequence_entry g m first) result }
    {
        let at = crate::skip_first(tokens, text, self.at, first);
        let read = tokens::read_token(tokens, text, at);
        let Read::Token(t) = read else {
            return crate::declined(read);
        };
        if t.kind == Token::FLOW_SEQUENCE_END {
            return self.pop(at + 1, crate::plain(Event::SEQUENCE_END, t.start, t.end, 0));
        }
        if no_comma(first, t) {
            return crate::decline(11, t.start);
        }
        let next = at + 1;
        self.flow_entry(tokens, text, entry_at(first, at, next))
    }

    fn flow_entry(self, tokens: &[u8], text: &[u8], at: usize) -> Plan
        ensures { Plans tokens.now text.now self (λ g m. flow_entry g m at) result }
    {
        let read = tokens::read_token(tokens, text, at);
        let Read::Token(t) = read else {
            return crate::declined(read);
        };
        if t.kind == Token::FLOW_SEQUENCE_END {
            return self.pop(at + 1, crate::plain(Event::SEQUENCE_END, t.start, t.end, 0));
        }
        if t.kind == Token::KEY {
            let pair = crate::plain(Event::MAPPING_START, t.start, t.end, 0);
            return self.give(at + 1, State::FlowSequenceEntryMappingKey, pair);
        }
        Plan::node(at, t, Over::Above(State::FlowSequenceEntry), false, false)
    }

    pub(crate) fn flow_sequence_entry_mapping_key(self, tokens: &[u8], text: &[u8]) -> Plan
        ensures { Plans tokens.now text.now self flow_sequence_entry_mapping_key result }
    {
        let at = self.at;
        let read = tokens::read_token(tokens, text, at);
        let Read::Token(t) = read else {
            return crate::declined(read);
        };
        if kinds::ends_single_key(t.kind) {
            let key = crate::empty_scalar(t);
            return self.give(at + 1, State::FlowSequenceEntryMappingValue, key);
        }
        let over = Over::Above(State::FlowSequenceEntryMappingValue);
        Plan::node(at, t, over, false, false)
    }

    pub(crate) fn flow_sequence_entry_mapping_value(self, tokens: &[u8], text: &[u8]) -> Plan
        ensures { Plans tokens.now text.now self flow_sequence_entry_mapping_value result }
    {
        let at = self.at;
        let read = tokens::read_token(tokens, text, at);
        let Read::Token(t) = read else {
            return crate::declined(read);
        };
        if t.kind == Token::VALUE {
            let next = at + 1;
            let ahead = tokens::read_token(tokens, text, next);
            let Read::Token(u) = ahead else {
                return crate::declined(ahead);
            };
            let end = State::FlowSequenceEntryMappingEnd(u.end);
            if kinds::ends_single_value(u.kind) {
                return self.give(next, end, crate::empty_scalar(u));
            }
            return Plan::node(next, u, Over::Above(end), false, false);
        }
        let end = State::FlowSequenceEntryMappingEnd(t.end);
        self.give(at, end, crate::empty_scalar(t))
    }

    pub(crate) fn flow_sequence_entry_mapping_end(self, mark: u32) -> Plan
        ensures { (tokens text : List ℕ) → Plans tokens text self (λ g m. flow_sequence_entry_mapping_end m mark) result }
    {
        let at = self.at;
        let event = crate::plain(Event::MAPPING_END, mark, mark, 0);
        self.give(at, State::FlowSequenceEntry, event)
    }

    pub(crate) fn flow_mapping_key(self, tokens: &[u8], text: &[u8], first: bool) -> Plan
        ensures { Plans tokens.now text.now self (λ g m. flow_mapping_key g m first) result }
    {
        let at = crate::skip_first(tokens, text, self.at, first);
        let read = tokens::read_token(tokens, text, at);
        let Read::Token(t) = read else {
            return crate::declined(read);
        };
        if t.kind == Token::FLOW_MAPPING_END {
            return self.pop(at + 1, crate::plain(Event::MAPPING_END, t.start, t.end, 0));
        }
        if no_comma(first, t) {
            return crate::decline(10, t.start);
        }
        let next = at + 1;
        self.flow_mapping_entry(tokens, text, entry_at(first, at, next), t)
    }

    // `mark` is the comma before the entry, if there is one.
    fn flow_mapping_entry(self, tokens: &[u8], text: &[u8], at: usize, mark: Token) -> Plan
        ensures { Plans tokens.now text.now self (λ g m. flow_mapping_entry g m at mark) result }
    {
        let read = tokens::read_token(tokens, text, at);
        let Read::Token(t) = read else {
            return crate::declined(read);
        };
        if t.kind == Token::KEY {
            let next = at + 1;
            let ahead = tokens::read_token(tokens, text, next);
            let Read::Token(u) = ahead else {
                return crate::declined(ahead);
            };
            if kinds::ends_flow_key(u.kind) {
                return self.give(next, State::FlowMappingValue, crate::empty_scalar(u));
            }
            return Plan::node(next, u, Over::Above(State::FlowMappingValue), false, false);
        }
        if t.kind == Token::VALUE {
            return self.give(at, State::FlowMappingValue, crate::empty_scalar(t));
        }
        if t.kind == Token::FLOW_MAPPING_END {
            let end = crate::plain(Event::MAPPING_END, mark.start, mark.end, 0);
            return self.pop(at + 1, end);
        }
        Plan::node(
            at,
            t,
            Over::Above(State::FlowMappingEmptyValue),
            false,
            false,
        )
    }

    pub(crate) fn flow_mapping_value(self, tokens: &[u8], text: &[u8], empty: bool) -> Plan
        ensures { Plans tokens.now text.now self (λ g m. flow_mapping_value g m empty) result }
    {
        let at = self.at;
        let read = tokens::read_token(tokens, text, at);
        let Read::Token(t) = read else {
            return crate::declined(read);
        };
        if empty {
            return self.give(at, State::FlowMappingKey, crate::empty_scalar(t));
        }
        if t.kind == Token::VALUE {
            let next = at + 1;
            let ahead = tokens::read_token(tokens, text, next);
            let Read::Token(u) = ahead else {
                return crate::declined(ahead);
            };
            if kinds::ends_flow_value(u.kind) {
                return self.give(next, State::FlowMappingKey, crate::empty_scalar(t));
            }
            return Plan::node(next, u, Over::Above(State::FlowMappingKey), false, false);
        }
        self.give(at, State::FlowMappingKey, crate::empty_scalar(t))
    }
}
