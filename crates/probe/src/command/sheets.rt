// `sheet PARTY OUTLEN` and `sheetline PARTY I OUTLEN`: into an output of OUTLEN bytes, at most 130,000 or 200, that are all 238.
use crate::calls::Call;
use answer::{Refusal, answer_of};
use lines::{out, part};

const BLANK: u8 = 238;

pub fn asked(party: u64, length: u64, lent: &mut [u8]) -> Option<Call> {
    if 130000 < length {
        return None;
    }
    Some(Call::Sheet(party, blank(length, lent)))
}

pub fn line_asked(of: [u64; 5], lent: &mut [u8]) -> Option<Call> {
    let [party, i, length, _, _] = of;
    if 200 < length {
        return None;
    }
    Some(Call::Line(party, i, blank(length, lent)))
}

// Makes an output blank, and answers its length.
pub fn blank(length: u64, lent: &mut [u8]) -> usize {
    let n = part::within(lent, length as usize);
    lent[..n].fill(BLANK);
    n
}

pub fn told(
    written: Result<usize, Refusal>,
    room: usize,
    lent: &[u8],
    out: &mut [u8],
    at: usize,
) -> usize {
    let to = out::number(out, at, u64::from(answer_of(&written)));
    self::written(written.unwrap_or(0), room, lent, out, to)
}

// How many bytes were written, these, and how many of the others are untouched.
pub fn written(count: usize, room: usize, lent: &[u8], out: &mut [u8], at: usize) -> usize {
    let to = out::number(out, at, count as u64);
    let end = out::first(out, to, lent, count as u64);
    out::number(out, end, blanks(lent, count, room))
}

// How many bytes are untouched from `from` on, up to `to`.
fn blanks(lent: &[u8], from: usize, to: usize) -> u64 {
    let end = part::within(lent, to);
    let mut count = 0u64;
    for byte in &lent[from.min(end)..end] {
        count = count.wrapping_add(u64::from(*byte == BLANK));
    }
    count
}
