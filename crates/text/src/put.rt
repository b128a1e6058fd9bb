// Writing at a running place: a byte, a text, numbers with the bytes that end them.
ghost use Rattle.std.specs.Prelude.{◌≡◌, [], ◌∷◌, ◌++◌};
ghost use Rattle.text.specs.Decimal.{decimal};
ghost use Rattle.text.specs.Fields.{fields};
ghost use Rattle.text.specs.Put.{Put, written};

use crate::decimal::put_decimal;

pub fn put_byte(out: &mut [u8], at: usize, byte: u8) -> usize
    ensures { Put out.old at (byte ∷ []) out.new result }
{
    if at < out.len() {
        out[at] = byte;
    }
    at.saturating_add(1)
}

pub fn put_text(out: &mut [u8], at: usize, text: &[u8]) -> usize
    ensures { Put out.old at text.now out.new result }
{
    if at < out.len() {
        put_front(&mut out[at..], text);
    }
    at.saturating_add(text.len())
}

// A text at the output's start, as far as there is room.
fn put_front(out: &mut [u8], text: &[u8])
    ensures { out.new ≡ written out.old 0 text.now }
{
    let n = out.len().min(text.len());
    out[..n].copy_from_slice(&text[..n]);
}

// A number, and the byte that ends it.
pub fn put_field(out: &mut [u8], at: usize, n: u64, end: u8) -> usize
    ensures { Put out.old at (decimal n ++ (end ∷ [])) out.new result }
{
    let next = put_decimal(out, at, n);
    put_byte(out, next, end)
}

// Numbers one after the other, each with the byte that ends it.
pub fn put_fields(out: &mut [u8], at: usize, of: &[u64], ends: &[u8]) -> usize
    ensures { Put out.old at (fields of.now ends.now) out.new result }
{
    let mut next = at;
    for (n, end) in of.iter().zip(ends.iter()) {
        next = put_field(out, next, *n, *end);
    }
    next
}
