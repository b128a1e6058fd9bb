// Words as operators write them, each a whole text with nothing before or after it: numbers, values, places in a code, forms.
#![tactic(auto)]

mod outcome;

ghost use Rattle.std.specs.Prelude.{◌≡◌};
ghost use Rattle.words.specs.Number.{hex_in, decimal_in, is_hex, unsigned_in, negated, as_number};
ghost use Rattle.words.specs.Words.{signed_by, unsigned_by, as_value, slot_by, place_of, as_place, as_form};

use form::Form;
use operand::Operand;
pub use outcome::{Given, Place};

const HALF: u64 = 0x8000_0000_0000_0000;

// The number that a word is: decimal, or hex after `0x`, each with a minus sign or without.
pub fn number(word: &[u8]) -> Option<Given>
    ensures { result ≡ as_number word.now }
{
    if text::is_at(word, 0, b'-') {
        return negated(unsigned_in(&word[1..])?);
    }
    Some(Given::Unsigned(unsigned_in(word)?))
}

// So much below zero, of which `-0` is 0.
fn negated(n: u64) -> Option<Given>
    ensures { result ≡ negated n }
{
    if n == 0 {
        return Some(Given::Unsigned(0));
    }
    if n <= HALF {
        Some(Given::Negative(n))
    } else {
        None
    }
}

// The number that a word without a sign is.
fn unsigned_in(word: &[u8]) -> Option<u64>
    ensures { result ≡ unsigned_in word.now }
{
    if is_hex(word) {
        return hex_in(&word[2..]);
    }
    decimal_in(word)
}

fn is_hex(word: &[u8]) -> bool
    ensures { result ≡ is_hex word.now }
{
    text::begins(word, b"0x") | text::begins(word, b"0X")
}

// The number that a word is in decimal.
fn decimal_in(word: &[u8]) -> Option<u64>
    ensures { result ≡ decimal_in word.now }
{
    let (n, end) = text::read_decimal(word, 0)?;
    if end == word.len() { Some(n) } else { None }
}

// The number that one to sixteen hex digits are.
fn hex_in(word: &[u8]) -> Option<u64>
    ensures { result ≡ hex_in word.now }
{
    if word.len() < 1 {
        return None;
    }
    if 16 < word.len() {
        return None;
    }
    let mut n = 0;
    for c in word {
        let digit = hex_text::digit_value(*c);
        if 15 < digit {
            return None;
        }
        n = n * 16 + u64::from(digit);
    }
    Some(n)
}

// The value that a word is for a form, of the kind that its values have.
pub fn value(form: Form, word: &[u8]) -> Operand
    ensures { result ≡ as_value form word.now }
{
    let Some(row) = row::packed_of(form) else {
        return Operand::None;
    };
    let given = number(word);
    if meaning::has_sign(row.meaning) {
        signed_by(given)
    } else {
        unsigned_by(given)
    }
}

// A number as a value with a sign.
fn signed_by(given: Option<Given>) -> Operand
    ensures { result ≡ signed_by given }
{
    match given {
        Some(Given::Unsigned(n)) if n < HALF => Operand::ImmI64(n.cast_signed()),
        Some(Given::Negative(n)) => Operand::ImmI64(n.wrapping_neg().cast_signed()),
        _ => Operand::None,
    }
}

// A number as a value without one.
fn unsigned_by(given: Option<Given>) -> Operand
    ensures { result ≡ unsigned_by given }
{
    match given {
        Some(Given::Unsigned(n)) => Operand::ImmU64(n),
        _ => Operand::None,
    }
}

// The place that a word is.
pub fn place(word: &[u8]) -> Option<Place>
    ensures { result ≡ as_place word.now }
{
    match number(word)? {
        Given::Unsigned(n) => place_of(n),
        Given::Negative(_) => None,
    }
}

// The place that an address tells: its bundle's, and in its low four bits the slot.
fn place_of(n: u64) -> Option<Place>
    ensures { result ≡ place_of n }
{
    let low = n % 16;
    let slot = slot_of(low)?;
    Some(Place {
        address: n - low,
        slot,
    })
}

// The slot that an address's low four bits tell.
fn slot_of(low: u64) -> Option<u64>
    ensures { result ≡ slot_by low }
{
    match low {
        0 => Some(0),
        1 => Some(1),
        2 => Some(2),
        6 => Some(1),
        12 => Some(2),
        _ => None,
    }
}

// The form that a word names.
pub fn form(word: &[u8]) -> Option<Form>
    ensures { result ≡ as_form word.now }
{
    if text::is_at(word, 0, b'-') {
        return None;
    }
    let (form, next) = name::read_name(word, 0)?;
    if next == word.len() { Some(form) } else { None }
}
