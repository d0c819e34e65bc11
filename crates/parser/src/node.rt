// A node: its properties and its content.
ghost use Rattle.std.specs.Prelude.{◌≡◌, ◌<◌, length};
ghost use Rattle.places.specs.Places.{places};
ghost use Rattle.records.specs.Names.{no_range};
ghost use Rattle.rules.specs.Rules.Words.{first};
ghost use Rattle.records.specs.Tokens.{token_size, read_at};
ghost use Rattle.rules.specs.Rules.{node_from, node_properties, alias, anchor_first, tag_first, node_content, content, block_content, with_tag, with_anchor, register_anchor, into, pop_state};
ghost use Rattle.tables.specs.Anchors.{anchors_of, named};
ghost use Rattle.parser.specs.Machine.{lent};
ghost use Rattle.parser.specs.Answers.{decided, moved, names_after, over_of};
ghost use Rattle.parser.specs.Nodes.{names_of, properties_of, bare, anchored, tag_only, node_event, known_of, place_of, named_answer, behind_done, behind_content, behind_of, Behinds};

use crate::tag::Resolved;
use crate::{Machine, Names, Over, Step, Terms, kinds, tag};
use records::events::{Event, Tag};
use records::names::Range;
use records::tokens::{Read, Token};
use records::{names, tokens};
use rules::State;
use tables::anchors;
use tables::anchors::Anchor;
use tables::lookup::Found;

// What stands before a node's content.
#[derive(Clone, Copy)]
pub struct Properties {
    pub any: bool,
    pub start: u32,
    pub end: u32,
    pub id: u32,
    pub tag: Tag,
    pub names: Names,
}

// What comes behind the properties: a content or, without one, the step. Side by side, as in a plan.
#[derive(Clone, Copy)]
pub struct Behind {
    pub step: Step,
    pub content: Content,
}

#[derive(Clone, Copy)]
pub enum Content {
    Nothing,
    // Its place and token, and what stands before it.
    At(usize, Token, Properties),
}

// The id of a name.
#[derive(Clone, Copy)]
pub enum Known {
    Id(u32),
    Unknown,
}

// The place that a name is put in.
#[derive(Clone, Copy)]
pub enum Place {
    // Its own, or the next one that is free.
    At(usize),
    Full,
}

// No property: the node starts where its content does.
fn bare(start: u32) -> Properties
    ensures { result ≡ bare start }
{
    Properties {
        any: false,
        start,
        end: start,
        id: 0,
        tag: crate::no_tag(),
        names: Names::Keep,
    }
}

// An anchor behind what stands before it.
fn anchored(p: Properties, t: Token, place: usize, id: u32) -> Properties
    ensures { result ≡ anchored p t place id }
{
    let name = t.a;
    let tag = p.tag;
    Properties {
        any: true,
        start: p.start,
        end: t.end,
        id,
        tag,
        names: Names::Put(place, Anchor { name, id }),
    }
}

// A tag behind what stands before it.
fn tagged(p: Properties, t: Token, source: u32, prefix: Range) -> Properties
    ensures { result ≡ tag_only p t source prefix }
{
    let suffix = t.b;
    let names = p.names;
    Properties {
        any: true,
        start: p.start,
        end: t.end,
        id: p.id,
        tag: Tag {
            source,
            prefix,
            suffix,
        },
        names,
    }
}

// The event of a node.
fn node_event(kind: u32, end: u32, style: u32, value: Range, p: Properties) -> Event
    ensures { result ≡ node_event kind end style value p }
{
    let tag = p.tag;
    Event {
        kind,
        start: p.start,
        end,
        number: p.id,
        style,
        value,
        tag,
    }
}

// The id of a name among `n` anchors.
fn find_id(text: &[u8], names: &[u8], n: usize, name: Range) -> Known
    ensures { result ≡ known_of (first (named text.now name) (anchors_of names.now n)) }
{
    let found = anchors::find_anchor(text, names, n, name);
    let Found::At(i) = found else {
        return Known::Unknown;
    };
    let a = anchors::anchor_at(names, i);
    Known::Id(a.id)
}

// Where a name goes among `n` anchors, with room for `room`.
fn find_place(text: &[u8], names: &[u8], n: usize, room: usize, name: Range) -> Place
    ensures { result ≡ place_of text.now names.now n room name }
{
    let found = anchors::find_anchor(text, names, n, name);
    let Found::At(i) = found else {
        if n < room {
            return Place::At(n);
        }
        return Place::Full;
    };
    Place::At(i)
}

// The content at `at`, behind properties.
fn content_at(tokens: &[u8], text: &[u8], at: usize, p: Properties) -> Behind
    ensures { result ≡ behind_of (read_at tokens.now (length text.now) at) at p }
{
    let read = tokens::read_token(tokens, text, at);
    let Read::Token(t) = read else {
        return Behind::done(crate::refused(read));
    };
    Behind::content(at, t, p)
}

impl Behind {
    fn done(step: Step) -> Self
        ensures { result ≡ behind_done step }
    {
        Behind {
            step,
            content: Content::Nothing,
        }
    }

    fn content(at: usize, t: Token, p: Properties) -> Self
        ensures { result ≡ behind_content at t p }
    {
        Behind {
            step: Step::Stuck,
            content: Content::At(at, t, p),
        }
    }
}

impl Machine {
    // A node whose first token is `t`.
    pub(crate) fn parse_node(
        self,
        tokens: &[u8],
        text: &[u8],
        names: &[u8],
        tags: &[u8],
        terms: Terms,
        at: usize,
        t: Token,
        over: Over,
        block: bool,
        indentless: bool,
    ) -> Step
        requires { at < places tokens.now token_size }
        ensures { result ≡ decided (lent tokens.now text.now names.now tags.now terms) self (λ g m. node_from g m at (over_of over) block indentless t) }
    {
        if t.kind == Token::ALIAS {
            return self.alias(tokens, text, names, tags, terms, at + 1, over, t);
        }
        let behind = self.properties(tokens, text, names, tags, terms, at, t);
        let content = behind.content;
        match content {
            Content::At(i, u, p) => self.node_content(i, u, over, block, indentless, p),
            Content::Nothing => {
                let step = behind.step;
                step
            }
        }
    }

    fn alias(
        self,
        tokens: &[u8],
        text: &[u8],
        names: &[u8],
        tags: &[u8],
        terms: Terms,
        at: usize,
        over: Over,
        t: Token,
    ) -> Step
        ensures { result ≡ decided (lent tokens.now text.now names.now tags.now terms) self (λ g m. alias at (over_of over) t (first (named g.text t.a) m.anchors)) }
    {
        let name = t.a;
        let known = find_id(text, names, self.names, name);
        let Known::Id(id) = known else {
            return crate::refuse(7, t.start);
        };
        self.finish(
            at,
            over,
            crate::plain(Event::ALIAS, t.start, t.end, id),
            Names::Keep,
        )
    }

    fn properties(
        self,
        tokens: &[u8],
        text: &[u8],
        names: &[u8],
        tags: &[u8],
        terms: Terms,
        at: usize,
        t: Token,
    ) -> Behind
        requires { at < places tokens.now token_size }
        ensures { Behinds (lent tokens.now text.now names.now tags.now terms) self (λ over block indentless g m. node_properties g m at over block indentless t) result }
    {
        if t.kind == Token::ANCHOR {
            return self.anchor_first(tokens, text, names, tags, terms, at + 1, t);
        }
        if t.kind == Token::TAG {
            return self.tag_first(tokens, text, names, tags, terms, at + 1, t);
        }
        Behind::content(at, t, bare(t.start))
    }

    // An anchor `t`, then perhaps a tag.
    fn anchor_first(
        self,
        tokens: &[u8],
        text: &[u8],
        names: &[u8],
        tags: &[u8],
        terms: Terms,
        at: usize,
        t: Token,
    ) -> Behind
        ensures { Behinds (lent tokens.now text.now names.now tags.now terms) self (λ over block indentless g m. anchor_first g m at over block indentless t) result }
    {
        let name = t.a;
        let place = find_place(text, names, self.names, terms.names, name);
        let Place::At(i) = place else {
            return Behind::done(crate::refuse(24, 0));
        };
        let read = tokens::read_token(tokens, text, at);
        let Read::Token(u) = read else {
            return Behind::done(crate::refused(read));
        };
        let next = at + 1;
        let p = anchored(bare(t.start), t, i, self.next);
        if u.kind == Token::TAG {
            return self.tag_second(tokens, text, names, tags, terms, next, p, u);
        }
        Behind::content(at, u, p)
    }

    // A tag `u` behind an anchor.
    fn tag_second(
        self,
        tokens: &[u8],
        text: &[u8],
        names: &[u8],
        tags: &[u8],
        terms: Terms,
        at: usize,
        p: Properties,
        u: Token,
    ) -> Behind
        requires { p.names ≡ names_after (lent tokens.now text.now names.now tags.now terms) self (names_of p.names) }
        ensures { Behinds (lent tokens.now text.now names.now tags.now terms) self (λ over block indentless g m. with_tag g m (properties_of p) u (node_content g at over block indentless)) result }
    {
        let handle = u.a;
        let resolved = tag::resolve_tag(text, tags, self.handles, handle);
        let Resolved::Tagged(source, prefix) = resolved else {
            return Behind::done(crate::refuse(13, p.start));
        };
        content_at(tokens, text, at, tagged(p, u, source, prefix))
    }

    // A tag `t`, then perhaps an anchor.
    fn tag_first(
        self,
        tokens: &[u8],
        text: &[u8],
        names: &[u8],
        tags: &[u8],
        terms: Terms,
        at: usize,
        t: Token,
    ) -> Behind
        ensures { Behinds (lent tokens.now text.now names.now tags.now terms) self (λ over block indentless g m. tag_first g m at over block indentless t) result }
    {
        let handle = t.a;
        let resolved = tag::resolve_tag(text, tags, self.handles, handle);
        let Resolved::Tagged(source, prefix) = resolved else {
            return Behind::done(crate::refuse(13, t.start));
        };
        let read = tokens::read_token(tokens, text, at);
        let Read::Token(u) = read else {
            return Behind::done(crate::refused(read));
        };
        let next = at + 1;
        let p = tagged(bare(t.start), t, source, prefix);
        if u.kind == Token::ANCHOR {
            return self.anchor_second(tokens, text, names, tags, terms, next, p, u);
        }
        Behind::content(at, u, p)
    }

    // An anchor `u` behind a tag.
    fn anchor_second(
        self,
        tokens: &[u8],
        text: &[u8],
        names: &[u8],
        tags: &[u8],
        terms: Terms,
        at: usize,
        p: Properties,
        u: Token,
    ) -> Behind
        ensures { Behinds (lent tokens.now text.now names.now tags.now terms) self (λ over block indentless g m. register_anchor g m u (node_content g at over block indentless (with_anchor m (properties_of p) u))) result }
    {
        let name = u.a;
        let place = find_place(text, names, self.names, terms.names, name);
        let Place::At(i) = place else {
            return Behind::done(crate::refuse(24, 0));
        };
        content_at(tokens, text, at, anchored(p, u, i, self.next))
    }

    // The content `t` at `at`.
    fn node_content(
        self,
        at: usize,
        t: Token,
        over: Over,
        block: bool,
        indentless: bool,
        p: Properties,
    ) -> Step
        requires { at < 18446744073709551615 }
        ensures { result ≡ named_answer self p.names (content at (over_of over) block indentless (properties_of p) t) }
    {
        if kinds::when(indentless, t, Token::BLOCK_ENTRY) {
            let state = State::IndentlessSequenceEntry;
            return self.collection(at, over, state, Event::SEQUENCE_START, p, t);
        }
        if t.kind == Token::SCALAR {
            let value = t.a;
            return self.scalar(at + 1, over, t.end, t.style, value, p);
        }
        if t.kind == Token::FLOW_SEQUENCE_START {
            let state = State::FlowSequenceFirstEntry;
            return self.collection(at, over, state, Event::SEQUENCE_START, p, t);
        }
        if t.kind == Token::FLOW_MAPPING_START {
            let state = State::FlowMappingFirstKey;
            return self.collection(at, over, state, Event::MAPPING_START, p, t);
        }
        self.block_content(at, over, block, p, t)
    }

    // A node that begins a collection at `t`.
    fn collection(
        self,
        at: usize,
        over: Over,
        state: State,
        kind: u32,
        p: Properties,
        t: Token,
    ) -> Step
        ensures { result ≡ moved self at (into (over_of over) state) (node_event kind t.end 0 no_range p) p.names }
    {
        let names = p.names;
        let event = node_event(kind, t.end, 0, names::no_range(), p);
        self.begin(at, over, state, event, names)
    }

    // A node that is a scalar.
    fn scalar(
        self,
        at: usize,
        over: Over,
        end: u32,
        style: u32,
        value: Range,
        p: Properties,
    ) -> Step
        ensures { result ≡ moved self at (pop_state (over_of over)) (node_event 6 end style value p) p.names }
    {
        let names = p.names;
        let event = node_event(Event::SCALAR, end, style, value, p);
        self.finish(at, over, event, names)
    }

    // The content in a block, a missing content behind a property, or 8.
    fn block_content(self, at: usize, over: Over, block: bool, p: Properties, t: Token) -> Step
        ensures { result ≡ named_answer self p.names (block_content at (over_of over) block (properties_of p) t) }
    {
        if kinds::when(block, t, Token::BLOCK_SEQUENCE_START) {
            return self.collection(
                at,
                over,
                State::BlockSequenceFirstEntry,
                Event::SEQUENCE_START,
                p,
                t,
            );
        }
        if kinds::when(block, t, Token::BLOCK_MAPPING_START) {
            return self.collection(
                at,
                over,
                State::BlockMappingFirstKey,
                Event::MAPPING_START,
                p,
                t,
            );
        }
        if p.any {
            return self.scalar(at, over, p.end, 0, names::no_range(), p);
        }
        crate::refuse(8, t.start)
    }
}
