// Fields of a text: decimals, each ended by a byte of its own.
ghost use Rattle.std.specs.Prelude.{◌≡◌, [], ◌∷◌, drop};
ghost use Rattle.text.specs.Ascii.{starts_with};
ghost use Rattle.text.specs.Fields.{field_at, fields_of};

use crate::number::read_decimal;

// The bytes that end the fields of a line.
pub const TAB: u8 = b'\t';

pub const NEWLINE: u8 = b'\n';

// The numbers at a place that these bytes end, one after the other and zeros after them, and the place after them. A ninth has no place.
pub fn read_fields(text: &[u8], at: usize, ends: &[u8]) -> Option<([u64; 8], usize)>
    ensures { result ≡ fields_of text.now at ends.now }
{
    let mut of = [0u64; 8];
    let mut next = at;
    for (i, end) in ends.iter().enumerate() {
        let (n, after) = read_field(text, next, *end)?;
        if i < 8 {
            of[i] = n;
        }
        next = after;
    }
    Some((of, next))
}

// The number at a place that the byte ends.
pub fn read_field(text: &[u8], at: usize, end: u8) -> Option<(u64, usize)>
    ensures { result ≡ field_at text.now at end }
{
    let (n, next) = read_decimal(text, at)?;
    if is_at(text, next, end) {
        Some((n, next + 1))
    } else {
        None
    }
}

// Whether the byte stands at a place.
pub fn is_at(text: &[u8], at: usize, byte: u8) -> bool
    ensures { result ≡ starts_with (byte ∷ []) (drop at text.now) }
{
    if text.len() <= at {
        return false;
    }
    text[at] == byte
}

// Whether the text begins with `start`.
pub fn begins(text: &[u8], start: &[u8]) -> bool
    ensures { result ≡ starts_with start.now text.now }
{
    text.starts_with(start)
}
