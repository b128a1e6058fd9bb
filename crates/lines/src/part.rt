// Places and parts of slices.
ghost use Rattle.std.specs.Prelude.{◌≡◌, ◌+◌, ◌≤◌, length, IfSome};

// The place, and never past the slice's end.
pub fn within(s: &[u8], at: usize) -> usize
    ensures { result ≤ length s.now }
{
    at.min(s.len())
}

// Where a part of `count` bytes from `at` on ends, where it lies in the slice.
pub fn end(s: &[u8], at: u64, count: u64) -> Option<usize>
    ensures { IfSome result (λ end. (end ≡ at + count) × (end ≤ length s.now)) }
{
    let end = at.checked_add(count)?;
    if end <= s.len() as u64 {
        Some(end as usize)
    } else {
        None
    }
}

// Where the byte first stands from `from` on, or the slice's length.
pub fn first(s: &[u8], from: usize, b: u8) -> usize
    ensures { result ≤ length s.now }
{
    let start = within(s, from);
    match memchr::memchr(b, &s[start..]) {
        Some(at) => start + at,
        None => s.len(),
    }
}

// Moves what stands from `from` on to the front.
pub fn shift(s: &mut [u8], from: usize) {
    for i in from..s.len() {
        s[i - from] = s[i];
    }
}

// Where a byte below that one first stands, or the slice's length.
pub fn below(s: &[u8], b: u8) -> usize
    ensures { result ≤ length s.now }
{
    s.iter().position(|&c| c < b).unwrap_or(s.len())
}
