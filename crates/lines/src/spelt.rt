// Bytes as text: two lower-case hexadecimal digits each, and `-` where there are none.

// How many bytes the text spells, where it does.
pub fn count(s: &[u8]) -> Option<u64> {
    if s == b"-".as_slice() {
        return Some(0);
    }
    if s.is_empty() || s.len() % 2 == 1 || !s.iter().all(|&c| is_digit(c)) {
        return None;
    }
    Some((s.len() / 2) as u64)
}

// Puts the bytes that the text spells into `to`, as many as both have.
pub fn put(s: &[u8], to: &mut [u8]) {
    for (byte, digits) in to.iter_mut().zip(s.chunks_exact(2)) {
        *byte = hex_text::digit_value(digits[0]) % 16 * 16 + hex_text::digit_value(digits[1]) % 16;
    }
}

// A digit, and no capital.
fn is_digit(c: u8) -> bool {
    matches!(c, b'0'..=b'9' | b'a'..=b'f')
}
