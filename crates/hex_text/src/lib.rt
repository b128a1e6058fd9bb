// Bytes as text, two hex digits each. They are read in either case, parted by one space or newline; they are written in lower case with
// nothing between.
#![tactic(auto)]

ghost use Rattle.std.specs.Prelude.{◌≡◌, ◌<◌, drop};
ghost use Rattle.hex_text.specs.Hex.{digit_value, is_separator, pair_of, front, decoded_of, digit_of, hex_of};
ghost use Rattle.text.specs.Put.{Put};

use text::put_byte;

// How reading ended: with the text, at other text, or at a byte too many.
#[derive(Clone, Copy, PartialEq, Eq)]
pub enum Ending {
    Whole,
    BadHex,
    TooLong,
}

// How many bytes were read, and how reading ended.
#[derive(Clone, Copy)]
pub struct Decoded {
    pub count: usize,
    pub ending: Ending,
}

// The hex digits, a bit each: bit 0 is `0`'s, and bit 54 `f`'s.
const DIGITS: u64 = 0x007E_0000_007E_03FF;

// A hex digit's value, and 16 for any other byte: above each digit's, so that one bound tests it, and an Option would be no plainer to
// callers, who add values up. No table, which would be built at each call, and no branch on whether a digit is a letter, which a processor
// can't foresee.
pub fn digit_value(c: u8) -> u8
    ensures { result ≡ digit_value c }
{
    if c < b'0' {
        return 16;
    }
    if b'f' < c {
        return 16;
    }
    if (DIGITS >> (c - b'0')) % 2 == 1 {
        c % 16 + 9 * (c / 64)
    } else {
        16
    }
}

// Whether a byte parts two bytes' digits.
fn is_separator(c: u8) -> bool
    ensures { result ≡ is_separator c }
{
    (c == b' ') | (c == b'\n')
}

// The byte of two digits' values, or how reading ends with them.
fn pair(high: u8, low: u8, room: usize, ends: bool) -> Result<u8, Ending>
    ensures { result ≡ pair_of high low room ends }
{
    if 15 < high || 15 < low {
        return Err(Ending::BadHex);
    }
    if room == 0 {
        return Err(Ending::TooLong);
    }
    if ends {
        Ok(high * 16 + low)
    } else {
        Err(Ending::BadHex)
    }
}

// The byte at a text's front with its separator, where `room` may still come, or how reading ends there.
fn front(text: &[u8], room: usize) -> Result<u8, Ending>
    ensures { result ≡ front room text.now }
{
    match text {
        [high, low, end, ..] => pair(
            digit_value(*high),
            digit_value(*low),
            room,
            is_separator(*end),
        ),
        [high, low] => pair(digit_value(*high), digit_value(*low), room, true),
        [_] => Err(Ending::BadHex),
        [] => Err(Ending::Whole),
    }
}

// The bytes that `text` gives, as many as `out` holds at most: two digits and a separator each.
pub fn decode(text: &[u8], out: &mut [u8]) -> Decoded
    ensures { (result, out.new) ≡ decoded_of text.now out.old }
{
    let mut count = 0;
    for three in text.chunks(3) {
        match front(three, out.len() - count) {
            Ok(byte) => {
                out[count] = byte;
                count += 1;
            }
            Err(ending) => return Decoded { count, ending },
        }
    }
    Decoded {
        count,
        ending: Ending::Whole,
    }
}

// Writes bytes as text.
pub fn put_hex(out: &mut [u8], at: usize, bytes: &[u8]) -> usize
    ensures { Put out.old at (hex_of bytes.now) out.new result }
{
    let mut next = at;
    for byte in bytes {
        next = put_byte(out, next, digit(*byte / 16));
        next = put_byte(out, next, digit(*byte % 16));
    }
    next
}

// The digit of that value.
fn digit(value: u8) -> u8
    requires { value < 16 }
    ensures { result ≡ digit_of value }
{
    if value < 10 {
        b'0' + value
    } else {
        b'a' - 10 + value
    }
}
