// What is to be written, in a buffer with a position. Each function answers the position after what it
// put; what has no room is dropped.
use crate::part;
use hex_text::put_hex;
use text::{put_byte, put_decimal};

// A space and a number.
pub fn number(out: &mut [u8], at: usize, n: u64) -> usize {
    let to = put_byte(out, at, b' ');
    put_decimal(out, to, n)
}

pub fn numbers(out: &mut [u8], at: usize, of: &[u64]) -> usize {
    let mut to = at;
    for n in of {
        to = number(out, to, *n);
    }
    to
}

// A space and bytes.
pub fn hex(out: &mut [u8], at: usize, s: &[u8]) -> usize {
    let to = put_byte(out, at, b' ');
    if s.is_empty() {
        return put_byte(out, to, b'-');
    }
    put_hex(out, to, s)
}

// A space and the first `count` bytes.
pub fn first(out: &mut [u8], at: usize, s: &[u8], count: u64) -> usize {
    let n = part::within(s, count as usize);
    hex(out, at, &s[0..n])
}
