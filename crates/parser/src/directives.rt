// The directives before a document.
ghost use Rattle.std.specs.Prelude.{◌≡◌, [], ◌-◌, length};
ghost use Rattle.records.specs.Tokens.{read_at};
ghost use Rattle.tables.specs.Handles.{named};
ghost use Rattle.rules.specs.Rules.Words.{first, hit?};
ghost use Rattle.rules.specs.Rules.{declare, explicit_document_start};
ghost use Rattle.parser.specs.Machine.{lent};
ghost use Rattle.parser.specs.Answers.{decided};
ghost use Rattle.parser.specs.Documents.{unset, told, counted, directive, tag_directive};

use crate::{Machine, Step, Terms};
use records::names::Range;
use records::tokens::{Read, Token};
use records::{names, tokens};
use tables::handles;
use tables::lookup::Found;

// What a token behind directives is: one more, or what answers the step. With it go whether a version was met and how
// many handles are declared, those kept among them.
#[derive(Clone, Copy)]
pub enum Directive {
    On(bool, usize),
    Done(Step),
}

// Whether the token at `at` is a TagDirective with this handle.
fn declares(tokens: &[u8], text: &[u8], at: usize, name: Range) -> bool
    ensures { result ≡ told text.now name (read_at tokens.now (length text.now) at) }
{
    let read = tokens::read_token(tokens, text, at);
    let Read::Token(t) = read else {
        return false;
    };
    if t.kind == Token::TAG_DIRECTIVE {
        return names::same_bytes(text, t.a, name);
    }
    false
}

// Whether a TagDirective from `from` up to `at` has this handle.
fn declared(tokens: &[u8], text: &[u8], from: usize, at: usize, name: Range) -> bool
    ensures { result ≡ hit? (first (named text.now name) (declare (unset tokens.now text.now) (at - from) from [])) }
{
    let mut i = from;
    while i < at {
        if declares(tokens, text, i, name) {
            return true;
        }
        i += 1;
    }
    false
}

// One handle more, or one that is kept: 25 where there is no room for all.
fn counted(room: usize, known: Found, version: bool, used: usize) -> Directive
    ensures { result ≡ counted room known version used }
{
    match known {
        Found::At(_) => {
            if used <= room {
                return Directive::On(version, used);
            }
            Directive::Done(crate::refuse(25, 0))
        }
        Found::Nothing => {
            if used < room {
                return Directive::On(version, used + 1);
            }
            Directive::Done(crate::refuse(25, 0))
        }
    }
}

impl Machine {
    // parser_process_directives, then the start itself.
    pub(crate) fn explicit_document_start(
        self,
        tokens: &[u8],
        text: &[u8],
        names: &[u8],
        tags: &[u8],
        terms: Terms,
        at: usize,
    ) -> Step
        ensures { result ≡ decided (lent tokens.now text.now names.now tags.now terms) self (λ g m. explicit_document_start g m at) }
    {
        let mut i = at;
        let mut version = false;
        let mut used = self.handles;
        loop {
            let met = self.directive(tokens, text, names, tags, terms, at, i, version, used);
            match met {
                Directive::Done(step) => return step,
                Directive::On(v, n) => {
                    version = v;
                    used = n;
                    i += 1;
                }
            }
        }
    }

    fn directive(
        self,
        tokens: &[u8],
        text: &[u8],
        names: &[u8],
        tags: &[u8],
        terms: Terms,
        from: usize,
        at: usize,
        version: bool,
        used: usize,
    ) -> Directive
        ensures { result ≡ directive (lent tokens.now text.now names.now tags.now terms) self from at version used }
    {
        let read = tokens::read_token(tokens, text, at);
        let Read::Token(t) = read else {
            return Directive::Done(crate::refused(read));
        };
        if t.kind == Token::VERSION_DIRECTIVE {
            if version {
                return Directive::Done(crate::refuse(3, t.start));
            }
            return Directive::On(true, used);
        }
        if t.kind == Token::TAG_DIRECTIVE {
            return self.tag_directive(tokens, text, tags, terms, from, at, version, used, t);
        }
        if t.kind == Token::RESERVED_DIRECTIVE {
            return Directive::On(version, used);
        }
        Directive::Done(self.after_directives(tokens, text, names, tags, terms, from, at))
    }

    fn tag_directive(
        self,
        tokens: &[u8],
        text: &[u8],
        tags: &[u8],
        terms: Terms,
        from: usize,
        at: usize,
        version: bool,
        used: usize,
        t: Token,
    ) -> Directive
        ensures { result ≡ tag_directive (lent tokens.now text.now [] tags.now terms) self from at version used t }
    {
        let name = t.a;
        if declared(tokens, text, from, at, name) {
            return Directive::Done(crate::refuse(4, t.start));
        }
        let known = handles::find_handle(text, tags, self.handles, name);
        counted(terms.handles, known, version, used)
    }
}
