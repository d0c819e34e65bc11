// Names: parts of the text, compared by their bytes.
ghost use Rattle.std.specs.Prelude.{◌≡◌};
ghost use Rattle.records.specs.Names.{no_range, range_of, same, part, same_name};

// A part of the text, half-open.
#[derive(Clone, Copy)]
pub struct Range {
    pub from: u32,
    pub to: u32,
}

// The range that stands for none.
pub fn no_range() -> Range
    ensures { result ≡ no_range }
{
    Range { from: 0, to: 0 }
}

// The range in fields `k` and `k + 1` of a place; a field that is not there is 0.
pub fn range_at(bytes: &[u8], size: usize, at: usize, k: usize) -> Range
    ensures { result ≡ range_of bytes.now size at k }
{
    if k >= size / 4 {
        return no_range();
    }
    let from = places::field(bytes, size, at, k);
    let to = places::field(bytes, size, at, k + 1);
    Range { from, to }
}

// Whether two slices hold the same bytes.
fn same_slices(x: &[u8], y: &[u8]) -> bool
    ensures { result ≡ same x.now y.now }
{
    if x.len() != y.len() {
        return false;
    }
    let mut i = 0;
    while i < x.len() {
        if x[i] != y[i] {
            return false;
        }
        i += 1;
    }
    true
}

// The part of the text that a range names: what of it lies in the text.
pub fn part_of(text: &[u8], r: Range) -> &[u8]
    ensures { result.now ≡ part text.now r }
{
    let from = r.from as usize;
    let to = r.to as usize;
    if from > text.len() {
        return &text[..0];
    }
    if to < from {
        return &text[..0];
    }
    if to > text.len() {
        return &text[from..];
    }
    &text[from..to]
}

// Whether two ranges name the same bytes of the text.
pub fn same_bytes(text: &[u8], a: Range, b: Range) -> bool
    ensures { result ≡ same_name text.now a b }
{
    same_slices(part_of(text, a), part_of(text, b))
}
