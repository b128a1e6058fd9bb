// What a raw number means, and the raw number of a value.
#![tactic(auto)]

ghost use Rattle.std.specs.Prelude.{◌≡◌, ◌^◌, ◌<◌, ◌≤◌, true, false};
ghost use Rattle.operand.specs.Pattern.{pattern_of};
ghost use Rattle.meaning.specs.Meaning.{signed_of, value_of, entry, entry_value, patterned, has_sign, operand_for, taken_by, taken_of, entry_of, place_in, raw_up, raw_down, raw_signed, raw_above, raw_of, as_taken, as_raw};
ghost use Rattle.meaning.specs.inner.Fits.{SignedFits, ChosenFits, Fitting};
ghost use Rattle.meaning.specs.inner.Lists.{increments, shifts};

use answer::Refusal;
use operand::Operand;

// What a raw number means: itself and so much more; with a sign, so many times itself; the one that it chooses
// from a list of numbers of 8 bits, the first of which stands lowest, with a sign where the flag is set; or so much less itself.
#[derive(Clone, Copy)]
pub enum Meaning {
    None,
    Unsigned(u64),
    Signed(u64),
    Chosen(bool, u64),
    Complement(u64),
}

// The lists that the table of rows has: 16, 8, 4, 1, -16, -8, -4, -1, and 0, 7, 15, 16, from the lowest byte on.
pub const INCREMENTS: u64 = 0xFFFC_F8F0_0104_0810;

pub const SHIFTS: u64 = 0x100F_0700;

// The value of a raw number of `width` bits.
pub fn value_of(meaning: Meaning, width: u32, raw: u64) -> Operand
    requires { Fitting meaning width × (raw < 2 ^ width) }
    ensures { result ≡ value_of meaning width raw }
{
    match meaning {
        Meaning::None => Operand::None,
        Meaning::Unsigned(plus) => Operand::ImmU64(plus + raw),
        Meaning::Signed(unit) => signed_value(unit, width, raw),
        Meaning::Chosen(signed, list) => entry_value(signed, entry_at(list, raw)),
        Meaning::Complement(top) => Operand::ImmU64(top - raw),
    }
}

// The value of a raw number with a sign.
fn signed_value(unit: u64, width: u32, raw: u64) -> Operand
    requires { SignedFits unit width × (raw < 2 ^ width) }
    ensures { result ≡ Operand.ImmI64 (signed_of unit width raw) }
{
    Operand::ImmI64(displacement(unit, width, raw).cast_signed())
}

// A number of 8 bits as a value.
fn entry_value(signed: bool, entry: u64) -> Operand
    requires { entry < 2 ^ 8 }
    ensures { result ≡ entry_value signed entry }
{
    if signed {
        signed_value(1, 8, entry)
    } else {
        Operand::ImmU64(entry)
    }
}

// What stands at a place of a list.
fn entry_at(list: u64, place: u64) -> u64
    requires { place < 8 }
    ensures { result ≡ entry list place }
{
    bits::get(list, (8 * place) as u32, 8)
}

// The 64-bit pattern of a raw number with a sign: the top bit takes away what it would else add. No branch on it, since a
// processor can't foresee signs.
pub fn displacement(unit: u64, width: u32, raw: u64) -> u64
    requires { SignedFits unit width × (raw < 2 ^ width) }
    ensures { result ≡ pattern_of (signed_of unit width raw) }
{
    let low = raw % (1 << (width - 1));
    (unit * low).wrapping_sub(unit * (raw - low))
}

// The 64-bit pattern of a value of the kind that the meaning's values have.
pub fn take_out(meaning: Meaning, value: Operand) -> Result<u64, Refusal>
    ensures { as_taken result ≡ taken_of meaning value }
{
    if has_sign(meaning) {
        take_signed(value)
    } else {
        take_unsigned(value)
    }
}

// Whether the meaning's values have a sign.
pub fn has_sign(meaning: Meaning) -> bool
    ensures { result ≡ has_sign meaning }
{
    match meaning {
        Meaning::None => false,
        Meaning::Unsigned(_) => false,
        Meaning::Signed(_) => true,
        Meaning::Chosen(signed, _) => signed,
        Meaning::Complement(_) => false,
    }
}

fn take_signed(value: Operand) -> Result<u64, Refusal>
    ensures { as_taken result ≡ taken_by true value }
{
    let Operand::ImmI64(v) = value else {
        return Err(Refusal::BadValue);
    };
    Ok(v.cast_unsigned())
}

fn take_unsigned(value: Operand) -> Result<u64, Refusal>
    ensures { as_taken result ≡ taken_by false value }
{
    let Operand::ImmU64(v) = value else {
        return Err(Refusal::BadValue);
    };
    Ok(v)
}

// The raw number of the value with a 64-bit pattern, where its range and multiple are the meaning's, or its list has it.
pub fn raw_of(meaning: Meaning, width: u32, pattern: u64) -> Result<u64, Refusal>
    requires { Fitting meaning width }
    ensures { as_raw result ≡ raw_of meaning width (operand_for meaning pattern) }
{
    match meaning {
        Meaning::None => Err(Refusal::BadValue),
        Meaning::Unsigned(plus) => raw_above(plus, width, pattern),
        Meaning::Signed(unit) => raw_signed(unit, width, pattern.cast_signed()),
        Meaning::Chosen(signed, list) => raw_chosen(signed, list, width, pattern),
        Meaning::Complement(top) => raw_above(pattern, width, top),
    }
}

// The raw number that a number is above another, where it has so many bits.
fn raw_above(low: u64, width: u32, high: u64) -> Result<u64, Refusal>
    requires { (1 ≤ width) × (width ≤ 64) }
    ensures { as_raw result ≡ raw_above low width high }
{
    if high < low {
        return Err(Refusal::BadValue);
    }
    let raw = high - low;
    if (raw >> (width - 1)) < 2 {
        Ok(raw)
    } else {
        Err(Refusal::BadValue)
    }
}

// The raw number of an integer.
fn raw_signed(unit: u64, width: u32, value: i64) -> Result<u64, Refusal>
    requires { SignedFits unit width }
    ensures { as_raw result ≡ raw_signed unit width value }
{
    if value < 0 {
        raw_down(unit, width, value.unsigned_abs())
    } else {
        raw_up(unit, width, value.unsigned_abs())
    }
}

// The raw number of a multiple that isn't negative.
fn raw_up(unit: u64, width: u32, value: u64) -> Result<u64, Refusal>
    requires { SignedFits unit width }
    ensures { as_raw result ≡ raw_up unit width value }
{
    if value % unit != 0 {
        return Err(Refusal::BadValue);
    }
    let times = value / unit;
    if times < 1 << (width - 1) {
        Ok(times)
    } else {
        Err(Refusal::BadValue)
    }
}

// The raw number of a multiple that is so much below zero.
fn raw_down(unit: u64, width: u32, below: u64) -> Result<u64, Refusal>
    requires { SignedFits unit width }
    ensures { as_raw result ≡ raw_down unit width below }
{
    if below % unit != 0 {
        return Err(Refusal::BadValue);
    }
    let times = below / unit;
    if times <= 1 << (width - 1) {
        Ok((1 << width) - times)
    } else {
        Err(Refusal::BadValue)
    }
}

// The place in a list of the value with a pattern.
fn raw_chosen(signed: bool, list: u64, width: u32, pattern: u64) -> Result<u64, Refusal>
    requires { ChosenFits list width }
    ensures { as_raw result ≡ raw_of (Meaning.Chosen signed list) width (patterned signed pattern) }
{
    let entry = entry_of(signed, pattern)?;
    place_among(list, 1 << width, entry)
}

// The number of 8 bits of the value with a pattern.
fn entry_of(signed: bool, pattern: u64) -> Result<u64, Refusal>
    ensures { as_raw result ≡ entry_of signed (patterned signed pattern) }
{
    if signed {
        raw_signed(1, 8, pattern.cast_signed())
    } else {
        raw_above(0, 8, pattern)
    }
}

// The place of a number among the first `count` of a list. In the lists that the table has it is looked up.
fn place_among(list: u64, count: u64, entry: u64) -> Result<u64, Refusal>
    requires { count ≤ 8 }
    ensures { as_raw result ≡ place_in list count entry }
{
    match (list, count) {
        (INCREMENTS, 8) => in_increments(entry),
        (SHIFTS, 4) => in_shifts(entry),
        _ => place_in(list, count, entry),
    }
}

// The place of a number among the increments; without a table of jumps, which is slower than compares.
fn in_increments(entry: u64) -> Result<u64, Refusal>
    ensures { as_raw result ≡ place_in increments 8 entry }
{
    if entry % 8 == 0 {
        return match entry {
            16 => Ok(0),
            8 => Ok(1),
            0xF0 => Ok(4),
            0xF8 => Ok(5),
            _ => Err(Refusal::BadValue),
        };
    }
    match entry {
        4 => Ok(2),
        1 => Ok(3),
        0xFC => Ok(6),
        0xFF => Ok(7),
        _ => Err(Refusal::BadValue),
    }
}

// The same among the shifts.
fn in_shifts(entry: u64) -> Result<u64, Refusal>
    ensures { as_raw result ≡ place_in shifts 4 entry }
{
    if entry % 8 == 7 {
        return match entry {
            7 => Ok(1),
            15 => Ok(2),
            _ => Err(Refusal::BadValue),
        };
    }
    match entry {
        0 => Ok(0),
        16 => Ok(3),
        _ => Err(Refusal::BadValue),
    }
}

// The place of a number among the first `count` of any list, sought from the last on.
fn place_in(list: u64, count: u64, entry: u64) -> Result<u64, Refusal>
    requires { count ≤ 8 }
    ensures { as_raw result ≡ place_in list count entry }
{
    for place in (0..count).rev() {
        if entry_at(list, place) == entry {
            return Ok(place);
        }
    }
    Err(Refusal::BadValue)
}
