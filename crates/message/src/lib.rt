// What an operator is told, as text: addresses and bundles in hex, values, answers by name, the numbers that a form takes.
#![tactic(auto)]

ghost use Rattle.std.specs.Prelude.{◌<◌};

mod spoken;
mod takes;

use answer::Refusal;
use bundle::Halves;
use operand::Operand;
pub use spoken::{failed, refused, said, say};
pub use takes::put_takes;
use text::{put_byte, put_decimal, put_text};

const HALF: u64 = 1 << 63;

// A number in hex, as `0x4050`.
pub fn put_address(out: &mut [u8], at: usize, address: u64) -> usize {
    let next = put_text(out, at, b"0x");
    put_hex(out, next, address, 1)
}

// A number in hex, with zeros in front up to so many digits.
pub fn put_hex(out: &mut [u8], at: usize, n: u64, width: usize) -> usize {
    let mut digits = [0u8; 16];
    hex_text::put_hex(&mut digits, 0, &n.to_be_bytes());
    put_text(out, at, &digits[leading_zeros(&digits, width)..])
}

// How many zeros in front aren't shown of a number that has so many digits at least, and one in any case.
fn leading_zeros(digits: &[u8; 16], width: usize) -> usize
    ensures { result < 16 }
{
    let most = 16 - width.clamp(1, 16);
    for (count, digit) in digits[..most].iter().enumerate() {
        if *digit != b'0' {
            return count;
        }
    }
    most
}

// A bundle's sixteen bytes in hex, in the order of the file.
pub fn put_bundle(out: &mut [u8], at: usize, halves: Halves) -> usize {
    let mut bytes = [0u8; 16];
    bundle::write(&mut bytes, halves);
    hex_text::put_hex(out, at, &bytes)
}

// An answer's number: any, or a refusal's.
#[derive(Clone, Copy)]
pub struct Answered(pub u8);

impl From<u8> for Answered {
    ghost use Rattle.std.specs.Prelude.{◌≡◌};

    ghost from_gives = { λ number given. given.0 ≡ number };

    fn from(number: u8) -> Answered {
        Answered(number)
    }
}

impl From<Refusal> for Answered {
    ghost use Rattle.std.specs.Prelude.{◌≡◌};
    ghost use Rattle.answer.specs.Answer.{number_of};

    ghost from_gives = { λ refusal given. given.0 ≡ number_of refusal };

    fn from(refusal: Refusal) -> Answered {
        Answered(refusal.number())
    }
}

// An answer's number and name; a number that is no answer has none.
pub fn put_answer(out: &mut [u8], at: usize, answer: impl Into<Answered>) -> usize {
    let Answered(number) = answer.into();
    let next = text::put_field(out, at, u64::from(number), b' ');
    put_text(out, next, name_of(number))
}

fn name_of(answer: u8) -> &'static [u8] {
    match answer {
        0 => b"Accepted",
        1 => b"ExhaustedInput",
        2 => b"BadBundle",
        3 => b"BadForm",
        4 => b"BadWord",
        5 => b"BadSlot",
        6 => b"BadValue",
        7 => b"Full",
        8 => b"Empty",
        9 => b"Stale",
        10 => b"TooLong",
        11 => b"BadJournal",
        12 => b"NoRoom",
        13 => b"BadSheet",
        14 => b"BadOpcode",
        15 => b"Retired",
        16 => b"BadScript",
        _ => b"",
    }
}

// A value, in decimal.
pub fn put_value(out: &mut [u8], at: usize, value: Operand) -> usize {
    let pattern = operand::pattern_in(value);
    if matches!(value, Operand::ImmI64(_)) {
        return put_signed(out, at, pattern);
    }
    put_decimal(out, at, pattern)
}

// The number with a sign whose 64-bit pattern is given.
pub fn put_signed(out: &mut [u8], at: usize, pattern: u64) -> usize {
    if pattern < HALF {
        return put_decimal(out, at, pattern);
    }
    let next = put_byte(out, at, b'-');
    put_decimal(out, next, pattern.wrapping_neg())
}
