// The stream and document states.
ghost use Rattle.std.specs.Prelude.{◌≡◌, [], ◌-◌, length};
ghost use Rattle.places.specs.Places.{places};
ghost use Rattle.records.specs.Tokens.{token_size, read_at};
ghost use Rattle.rules.specs.Rules.Words.{choose◌then◌else◌};
ghost use Rattle.rules.specs.Rules.{stream_start, passes, past, document_start, document_start_at, after_directives, document, document_content, document_end, after_marks, document_end_at, document_ends};
ghost use Rattle.parser.specs.Machine.{lent};
ghost use Rattle.parser.specs.Answers.{decided};
ghost use Rattle.parser.specs.Plans.{Planned, Plans};
ghost use Rattle.parser.specs.Documents.{unset, marks, tags_of};

use crate::{Handles, Machine, Names, Open, Over, Plan, Step, Terms, kinds};
use records::events::Event;
use records::tokens;
use records::tokens::{Read, Token};
use rules::State;

// Whether the token at `at` is a ByteOrderMark or, with `ends`, a DocumentEnd.
fn marked(tokens: &[u8], text: &[u8], at: usize, ends: bool) -> bool
    ensures { result ≡ passes (marks ends) (read_at tokens.now (length text.now) at) }
{
    let read = tokens::read_token(tokens, text, at);
    let Read::Token(t) = read else {
        return false;
    };
    kinds::mark(t.kind, ends)
}

// The first place from `at` on that has no such token.
fn past(tokens: &[u8], text: &[u8], at: usize, ends: bool) -> usize
    ensures { result ≡ past (unset tokens.now text.now) (marks ends) (places tokens.now token_size - at) at }
{
    let mut i = at;
    while marked(tokens, text, i, ends) {
        i += 1;
    }
    i
}

// Names are forgotten at each DocumentStart, where that is asked for.
fn forgotten(forget: bool) -> Names
    ensures { result ≡ (choose forget then Names.Forget else Names.Keep) }
{
    if forget { Names::Forget } else { Names::Keep }
}

// Tags are cleared where a document ends, unless they are kept.
fn cleared(keep: bool) -> Handles
    ensures { result ≡ (choose keep then Handles.Keep else Handles.Forget) }
{
    if keep { Handles::Keep } else { Handles::Forget }
}

impl Machine {
    pub(crate) fn stream_start(self, tokens: &[u8], text: &[u8]) -> Plan
        ensures { Plans tokens.now text.now self stream_start result }
    {
        let at = self.at;
        let read = tokens::read_token(tokens, text, at);
        let Read::Token(t) = read else {
            return crate::declined(read);
        };
        if t.kind == Token::STREAM_START {
            let event = crate::plain(Event::STREAM_START, t.start, t.end, 0);
            return self.give(at + 1, State::ImplicitDocumentStart, event);
        }
        crate::decline(1, t.start)
    }

    pub(crate) fn document_start(
        self,
        tokens: &[u8],
        text: &[u8],
        names: &[u8],
        tags: &[u8],
        terms: Terms,
        implicit: bool,
    ) -> Plan
        ensures { Planned (lent tokens.now text.now names.now tags.now terms) self (λ g m. document_start g m implicit) result }
    {
        let at = past(tokens, text, self.at, true);
        self.document_start_at(tokens, text, names, tags, terms, implicit, at)
    }

    fn document_start_at(
        self,
        tokens: &[u8],
        text: &[u8],
        names: &[u8],
        tags: &[u8],
        terms: Terms,
        implicit: bool,
        at: usize,
    ) -> Plan
        ensures { Planned (lent tokens.now text.now names.now tags.now terms) self (λ g m. document_start_at g m implicit at) result }
    {
        let read = tokens::read_token(tokens, text, at);
        let Read::Token(t) = read else {
            return crate::declined(read);
        };
        if t.kind == Token::STREAM_END {
            let event = crate::plain(Event::STREAM_END, t.start, t.end, 0);
            return self.give(at + 1, State::End, event);
        }
        if kinds::opens_document(t.kind) {
            let step = self.explicit_document_start(tokens, text, names, tags, terms, at);
            return Plan::done(step);
        }
        if implicit {
            let step = self.document(terms, at, t, 0, State::BlockNode, Handles::Keep);
            return Plan::done(step);
        }
        let step = self.explicit_document_start(tokens, text, names, tags, terms, at);
        Plan::done(step)
    }

    pub(crate) fn after_directives(
        self,
        tokens: &[u8],
        text: &[u8],
        names: &[u8],
        tags: &[u8],
        terms: Terms,
        from: usize,
        at: usize,
    ) -> Step
        ensures { result ≡ decided (lent tokens.now text.now names.now tags.now terms) self (λ g m. after_directives g m from at) }
    {
        let read = tokens::read_token(tokens, text, at);
        let Read::Token(t) = read else {
            return crate::refused(read);
        };
        if t.kind == Token::DOCUMENT_START {
            let declared = Handles::Declare(from, at);
            return self.document(terms, at + 1, t, 1, State::DocumentContent, declared);
        }
        if t.kind == Token::BYTE_ORDER_MARK {
            return crate::refuse(5, t.start);
        }
        crate::refuse(2, t.start)
    }

    // A document starts at `t`: what is taken, its event's number, where the machine goes.
    fn document(
        self,
        terms: Terms,
        at: usize,
        t: Token,
        explicit: u32,
        state: State,
        handles: Handles,
    ) -> Step
        ensures { result ≡ decided (lent [] [] [] [] terms) self (λ g m. document g m at t explicit state (tags_of handles)) }
    {
        if self.depth < terms.states {
            let event = crate::plain(Event::DOCUMENT_START, t.start, t.end, explicit);
            let names = forgotten(terms.forget);
            return self
                .goes(at, state)
                .next(event, Open::Push(State::DocumentEnd), names, handles);
        }
        crate::refuse(23, 0)
    }

    pub(crate) fn document_content(self, tokens: &[u8], text: &[u8]) -> Plan
        ensures { Plans tokens.now text.now self document_content result }
    {
        let at = self.at;
        let read = tokens::read_token(tokens, text, at);
        let Read::Token(t) = read else {
            return crate::declined(read);
        };
        if kinds::no_content(t.kind) {
            return self.pop(at, crate::empty_scalar(t));
        }
        Plan::node(at, t, Over::Here, true, false)
    }

    pub(crate) fn document_end(
        self,
        tokens: &[u8],
        text: &[u8],
        names: &[u8],
        tags: &[u8],
        terms: Terms,
    ) -> Plan
        ensures { Planned (lent tokens.now text.now names.now tags.now terms) self document_end result }
    {
        let at = self.at;
        let read = tokens::read_token(tokens, text, at);
        let Read::Token(t) = read else {
            return crate::declined(read);
        };
        if t.kind == Token::BYTE_ORDER_MARK {
            let next = past(tokens, text, at, false);
            let step = self.after_marks(tokens, text, names, tags, terms, t.start, next);
            return Plan::done(step);
        }
        Plan::done(self.document_end_at(tokens, text, names, tags, terms, at))
    }

    // Behind a run of byte order marks, the first of which starts at `place`.
    fn after_marks(
        self,
        tokens: &[u8],
        text: &[u8],
        names: &[u8],
        tags: &[u8],
        terms: Terms,
        place: u32,
        at: usize,
    ) -> Step
        ensures { result ≡ decided (lent tokens.now text.now names.now tags.now terms) self (λ g m. after_marks g place at) }
    {
        let read = tokens::read_token(tokens, text, at);
        let Read::Token(t) = read else {
            return crate::refused(read);
        };
        if kinds::after_marks(t.kind) {
            return self.document_end_at(tokens, text, names, tags, terms, at);
        }
        crate::refuse(5, place)
    }

    fn document_end_at(
        self,
        tokens: &[u8],
        text: &[u8],
        names: &[u8],
        tags: &[u8],
        terms: Terms,
        at: usize,
    ) -> Step
        ensures { result ≡ decided (lent tokens.now text.now names.now tags.now terms) self (λ g m. document_end_at g at) }
    {
        let read = tokens::read_token(tokens, text, at);
        let Read::Token(t) = read else {
            return crate::refused(read);
        };
        if t.kind == Token::DOCUMENT_END {
            return self.document_ends(terms, at + 1, t, State::ImplicitDocumentStart);
        }
        if kinds::directive(t.kind) {
            return crate::refuse(6, t.start);
        }
        self.document_ends(terms, at, t, State::DocumentStart)
    }

    // The document ends at `t`.
    fn document_ends(self, terms: Terms, at: usize, t: Token, state: State) -> Step
        ensures { result ≡ decided (lent [] [] [] [] terms) self (λ g m. document_ends g at t state) }
    {
        let event = crate::plain(Event::DOCUMENT_END, t.start, t.end, 0);
        let handles = cleared(terms.keep);
        self.goes(at, state)
            .next(event, Open::Keep, Names::Keep, handles)
    }
}
