// The numbers that a form takes, in words.
use crate::put_signed;
use form::Form;
use meaning::Meaning;
use text::{put_decimal, put_text};

// As `B3 takes multiples of 16 in -16777216..16777200`.
pub fn put_takes(out: &mut [u8], at: usize, form: Form) -> usize {
    let next = name::put_name(out, at, form);
    let Some(row) = row::packed_of(form) else {
        return put_text(out, next, b" has no number that can be set");
    };
    let takes = put_text(out, next, b" takes ");
    match row.meaning {
        Meaning::None => takes,
        Meaning::Unsigned(plus) => put_range(out, takes, plus, above(plus, row.width)),
        Meaning::Signed(unit) => put_multiples(out, takes, unit, row.width),
        Meaning::Chosen(signed, list) => put_chosen(out, takes, signed, list, row.width),
        Meaning::Complement(top) => put_range(out, takes, below(top, row.width), top),
    }
}

// The number, doubled so often; it wraps at 2^64.
fn doubled(n: u64, times: u32) -> u64 {
    let mut of = n;
    for _ in 0..times {
        of = of.wrapping_mul(2);
    }
    of
}

// The last of the numbers of `width` bits that begin there, and the first of those that end there.
fn above(first: u64, width: u32) -> u64 {
    first.wrapping_add(doubled(1, width)).wrapping_sub(1)
}

fn below(last: u64, width: u32) -> u64 {
    last.wrapping_sub(doubled(1, width)).wrapping_add(1)
}

fn put_range(out: &mut [u8], at: usize, first: u64, last: u64) -> usize {
    let next = put_decimal(out, at, first);
    let dots = put_text(out, next, b"..");
    put_decimal(out, dots, last)
}

// Numbers with a sign, of `width` bits and so many times as large.
fn put_multiples(out: &mut [u8], at: usize, unit: u64, width: u32) -> usize {
    let start = put_unit(out, at, unit);
    let half = if width == 0 {
        0
    } else {
        doubled(unit, width - 1)
    };
    let next = put_signed(out, start, half.wrapping_neg());
    let dots = put_text(out, next, b"..");
    put_signed(out, dots, half.wrapping_sub(unit))
}

fn put_unit(out: &mut [u8], at: usize, unit: u64) -> usize {
    if unit == 1 {
        return at;
    }
    let next = put_text(out, at, b"multiples of ");
    let number = put_decimal(out, next, unit);
    put_text(out, number, b" in ")
}

// The numbers of a list, of 8 bits each, the first of which stands lowest.
fn put_chosen(out: &mut [u8], at: usize, signed: bool, list: u64, width: u32) -> usize {
    let mut next = put_text(out, at, b"one of");
    let mut rest = list;
    for _ in 0..doubled(1, width) {
        next = put_entry(out, next, signed, rest % 256);
        rest /= 256;
    }
    next
}

fn put_entry(out: &mut [u8], at: usize, signed: bool, entry: u64) -> usize {
    let next = text::put_byte(out, at, b' ');
    if signed && 127 < entry {
        return put_signed(out, next, entry.wrapping_sub(256));
    }
    put_decimal(out, next, entry)
}
