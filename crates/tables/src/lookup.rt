// Looking a name up, and entering it, in places that begin with a name's range.
ghost use Rattle.std.specs.Prelude.{◌≡◌};
ghost use Rattle.tables.specs.Lookup.{find, Enter};

use records::names;
use records::names::Range;

// Where a name stands.
#[derive(Clone, Copy)]
pub enum Found {
    At(usize),
    Nothing,
}

// What entering a name leaves.
#[derive(Clone, Copy)]
pub enum Entered {
    // As many places are in use.
    Used(usize),
    // All places hold other names.
    Full,
}

// The first of `n` places of `size` bytes that has the name.
pub fn find_name(text: &[u8], bytes: &[u8], size: usize, n: usize, name: Range) -> Found
    ensures { result ≡ find text.now bytes.now size n name }
{
    let mut i = 0;
    while i < n {
        let other = names::range_at(bytes, size, i, 0);
        if names::same_bytes(text, other, name) {
            return Found::At(i);
        }
        i += 1;
    }
    Found::Nothing
}

// Enters the numbers of a name among the `n` in use: where the name stands, else in the next place.
pub fn enter_name(text: &[u8], bytes: &mut [u8], n: usize, name: Range, numbers: &[u32]) -> Entered
    ensures { Enter text.now bytes.old n name numbers.now result bytes.new }
{
    let found = find_name(text, bytes, 4 * numbers.len(), n, name);
    match found {
        Found::At(i) => {
            if places::put_place(bytes, i, numbers) {
                Entered::Used(n)
            } else {
                Entered::Full
            }
        }
        Found::Nothing => {
            if places::put_place(bytes, n, numbers) {
                Entered::Used(n + 1)
            } else {
                Entered::Full
            }
        }
    }
}
