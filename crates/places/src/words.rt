// Numbers of 4 bytes, little-endian, in bytes that are known to hold them. The hints on inlining, here and in the root, take an
// eighth of the run's instructions away.
ghost use Rattle.std.specs.Prelude.{◌≡◌, ◌+◌, ◌*◌, ◌≤◌, length};
ghost use Rattle.std.proofs.lemmas.List.Edits.{sets};
ghost use Rattle.places.specs.Words.{word, encode, le};

// The number in the 4 bytes from `at`.
#[tactic(auto, unfolding(crate::specs::Words::word))]
#[inline(always)]
pub(crate) fn get(bytes: &[u8], at: usize) -> u32
    requires { at + 4 ≤ length bytes.now }
    ensures { result ≡ word bytes.now at }
{
    u32::from_le_bytes([bytes[at], bytes[at + 1], bytes[at + 2], bytes[at + 3]])
}

// Stores a number in the 4 bytes from `at`.
#[tactic(auto, unfolding(crate::specs::Words::le))]
#[inline(always)]
fn put(bytes: &mut [u8], at: usize, n: u32)
    requires { at + 4 ≤ length bytes.old }
    ensures { bytes.new ≡ sets bytes.old at (le n) }
{
    bytes[at..at + 4].copy_from_slice(&n.to_le_bytes());
}

// Stores the numbers one after another from `at`.
#[tactic(auto, using(crate::proofs::WordLaws::put_more), unfolding(crate::specs::Words::encode))]
#[inline(always)]
pub(crate) fn put_all(bytes: &mut [u8], at: usize, numbers: &[u32])
    requires { at + 4 * length numbers.now ≤ length bytes.old }
    ensures { bytes.new ≡ sets bytes.old at (encode numbers.now) }
{
    for (i, &n) in numbers.iter().enumerate() {
        put(bytes, at + 4 * i, n);
    }
}
