// Tags: what a handle stands for.
ghost use Rattle.std.specs.Prelude.{◌≡◌};
ghost use Rattle.records.specs.Names.{part};
ghost use Rattle.tables.specs.Handles.{handles_of, named};
ghost use Rattle.rules.specs.Rules.Words.{first};
ghost use Rattle.rules.specs.Rules.{named_handle?, resolved, undeclared};
ghost use Rattle.parser.specs.Tags.{secondary, resolved_of};

use records::names;
use records::names::Range;
use tables::handles;
use tables::lookup::Found;

// What a handle stands for: nothing, or a source and a prefix.
#[derive(Clone, Copy)]
pub(crate) enum Resolved {
    Undeclared,
    Tagged(u32, Range),
}

// Whether a handle is `!!`.
fn is_secondary(handle: &[u8]) -> bool
    ensures { result ≡ secondary handle.now }
{
    if handle.len() != 2 {
        return false;
    }
    if handle[0] != b'!' {
        return false;
    }
    handle[1] == b'!'
}

// Whether a handle has two bytes or more and a `!` at both ends.
fn is_named(handle: &[u8]) -> bool
    ensures { result ≡ named_handle? handle.now }
{
    let n = handle.len();
    if n < 2 {
        return false;
    }
    if handle[0] != b'!' {
        return false;
    }
    handle[n - 1] == b'!'
}

// A handle that no directive declares.
fn undeclared(text: &[u8], r: Range) -> Resolved
    ensures { resolved_of result ≡ undeclared (part text.now r) r }
{
    let handle = names::part_of(text, r);
    if is_secondary(handle) {
        return Resolved::Tagged(1, names::no_range());
    }
    if is_named(handle) {
        return Resolved::Undeclared;
    }
    Resolved::Tagged(2, r)
}

// A handle with `n` declared.
pub(crate) fn resolve_tag(text: &[u8], tags: &[u8], n: usize, r: Range) -> Resolved
    ensures { resolved_of result ≡ resolved (first (named text.now r) (handles_of tags.now n)) (undeclared (part text.now r) r) }
{
    let found = handles::find_handle(text, tags, n, r);
    let Found::At(i) = found else {
        return undeclared(text, r);
    };
    let h = handles::handle_at(tags, i);
    let prefix = h.prefix;
    Resolved::Tagged(2, prefix)
}
