// Plain looks at bytes. A number that is not there is 0, a part that is not there is empty.

// Number `k` of those that stand one after another.
pub fn number(bytes: &[u8], k: usize) -> u32 {
    places::field(bytes, 4, k, 0)
}

// The same as a length.
pub fn length(bytes: &[u8], k: usize) -> usize {
    number(bytes, k) as usize
}

// All bytes from `at` on.
pub fn rest(bytes: &[u8], at: usize) -> &[u8] {
    bytes.get(at..).unwrap_or(&[])
}

// Whether every byte is this one. All are looked at, so that the loop has one way out and takes many bytes at once.
pub fn all(bytes: &[u8], byte: u8) -> bool {
    bytes.iter().fold(true, |so_far, b| so_far & (*b == byte))
}
