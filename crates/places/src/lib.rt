// Places: records of one size that stand one after another in lent bytes. A buffer has its length
// divided by the size, rounded down.
#![tactic(auto)]

ghost use Rattle.std.specs.Prelude.{◌≡◌, length};
ghost use Rattle.places.specs.Places.{field_of, Put, zeroed, cleared_places};

mod words;

// Field `k` of place `at` of places of `size` bytes; 0 where there is no such field or place.
#[tactic(auto, unfolding(crate::specs::Places::field_of, crate::specs::Places::has_place))]
#[inline(always)]
pub fn field(bytes: &[u8], size: usize, at: usize, k: usize) -> u32
    ensures { result ≡ field_of bytes.now size at k }
{
    if k >= size / 4 {
        return 0;
    }
    if at >= bytes.len() / size {
        return 0;
    }
    words::get(bytes, size * at + 4 * k)
}

// Stores the numbers in place `at`, of as many bytes as they take; whether there is that place.
#[tactic(auto, unfolding(crate::specs::Places::stored, crate::specs::Places::has_place))]
#[inline(always)]
pub fn put_place(bytes: &mut [u8], at: usize, numbers: &[u32]) -> bool
    ensures { Put bytes.old at numbers.now result bytes.new }
{
    if numbers.is_empty() {
        return false;
    }
    let size = 4 * numbers.len();
    if at >= bytes.len() / size {
        return false;
    }
    words::put_all(bytes, size * at, numbers);
    true
}

// Zeroes every byte, those that make no whole place too.
#[tactic(auto, unfolding(crate::specs::Places::zeroed))]
pub fn clear_all(bytes: &mut [u8])
    ensures { bytes.new ≡ zeroed (length bytes.old) bytes.old }
{
    bytes.fill(0);
}

// Zeroes the first `n` places of `size` bytes; all places where there are fewer.
#[tactic(auto, unfolding(crate::specs::Places::zeroed, crate::specs::Places::cleared_places))]
pub fn clear_used(bytes: &mut [u8], size: usize, n: usize)
    ensures { bytes.new ≡ cleared_places bytes.old size n }
{
    if size == 0 {
        return;
    }
    let n = n.min(bytes.len() / size);
    bytes[..size * n].fill(0);
}
