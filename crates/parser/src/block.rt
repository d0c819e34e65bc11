// The block states.
ghost use Rattle.std.specs.Prelude.{true, false};
ghost use Rattle.rules.specs.Rules.{Here, parse_node, block_sequence_entry, indentless_sequence_entry, block_mapping_key, block_mapping_value};
ghost use Rattle.parser.specs.Plans.{Plans};

use crate::{Machine, Over, Plan, kinds};
use records::events::Event;
use records::tokens;
use records::tokens::{Read, Token};
use rules::State;

impl Machine {
    pub(crate) fn block_node(self, tokens: &[u8], text: &[u8]) -> Plan
        ensures { Plans tokens.now text.now self (λ g m. parse_node g m m.at Here true false) result }
    {
        let at = self.at;
        let read = tokens::read_token(tokens, text, at);
        let Read::Token(t) = read else {
            return crate::declined(read);
        };
        Plan::node(at, t, Over::Here, true, false)
    }

    pub(crate) fn block_sequence_entry(self, tokens: &[u8], text: &[u8], first: bool) -> Plan
        ensures { Plans tokens.now text.now self (λ g m. block_sequence_entry g m first) result }
    {
        let at = crate::skip_first(tokens, text, self.at, first);
        let read = tokens::read_token(tokens, text, at);
        let Read::Token(t) = read else {
            return crate::declined(read);
        };
        if t.kind == Token::BLOCK_END {
            return self.pop(at + 1, crate::plain(Event::SEQUENCE_END, t.start, t.end, 0));
        }
        if t.kind == Token::BLOCK_ENTRY {
            let next = at + 1;
            let ahead = tokens::read_token(tokens, text, next);
            let Read::Token(u) = ahead else {
                return crate::declined(ahead);
            };
            if kinds::ends_entry(u.kind) {
                return self.give(next, State::BlockSequenceEntry, crate::empty_scalar(t));
            }
            return Plan::node(next, u, Over::Above(State::BlockSequenceEntry), true, false);
        }
        crate::decline(12, t.start)
    }

    pub(crate) fn indentless_sequence_entry(self, tokens: &[u8], text: &[u8]) -> Plan
        ensures { Plans tokens.now text.now self indentless_sequence_entry result }
    {
        let at = self.at;
        let read = tokens::read_token(tokens, text, at);
        let Read::Token(t) = read else {
            return crate::declined(read);
        };
        if t.kind == Token::BLOCK_ENTRY {
            let next = at + 1;
            let ahead = tokens::read_token(tokens, text, next);
            let Read::Token(u) = ahead else {
                return crate::declined(ahead);
            };
            if kinds::ends_indentless(u.kind) {
                return self.give(next, State::IndentlessSequenceEntry, crate::empty_scalar(t));
            }
            return Plan::node(
                next,
                u,
                Over::Above(State::IndentlessSequenceEntry),
                true,
                false,
            );
        }
        self.pop(at, crate::plain(Event::SEQUENCE_END, t.start, t.end, 0))
    }

    pub(crate) fn block_mapping_key(self, tokens: &[u8], text: &[u8], first: bool) -> Plan
        ensures { Plans tokens.now text.now self (λ g m. block_mapping_key g m first) result }
    {
        let at = crate::skip_first(tokens, text, self.at, first);
        let read = tokens::read_token(tokens, text, at);
        let Read::Token(t) = read else {
            return crate::declined(read);
        };
        if t.kind == Token::KEY {
            let next = at + 1;
            let ahead = tokens::read_token(tokens, text, next);
            let Read::Token(u) = ahead else {
                return crate::declined(ahead);
            };
            if kinds::ends_pair(u.kind) {
                return self.give(next, State::BlockMappingValue, crate::empty_scalar(u));
            }
            return Plan::node(next, u, Over::Above(State::BlockMappingValue), true, true);
        }
        if t.kind == Token::VALUE {
            return self.give(at, State::BlockMappingValue, crate::empty_scalar(t));
        }
        if t.kind == Token::BLOCK_END {
            return self.pop(at + 1, crate::plain(Event::MAPPING_END, t.start, t.end, 0));
        }
        crate::decline(9, t.start)
    }

    pub(crate) fn block_mapping_value(self, tokens: &[u8], text: &[u8]) -> Plan
        ensures { Plans tokens.now text.now self block_mapping_value result }
    {
        let at = self.at;
        let read = tokens::read_token(tokens, text, at);
        let Read::Token(t) = read else {
            return crate::declined(read);
        };
        if t.kind == Token::VALUE {
            let next = at + 1;
            let ahead = tokens::read_token(tokens, text, next);
            let Read::Token(u) = ahead else {
                return crate::declined(ahead);
            };
            if kinds::ends_pair(u.kind) {
                return self.give(next, State::BlockMappingKey, crate::empty_scalar(t));
            }
            return Plan::node(next, u, Over::Above(State::BlockMappingKey), true, true);
        }
        self.give(at, State::BlockMappingKey, crate::empty_scalar(t))
    }
}
