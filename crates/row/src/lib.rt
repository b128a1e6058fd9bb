// The rows of document 01's table: where a form's immediate stands, and what its number means.
#![tactic(auto)]

ghost use Rattle.std.specs.Prelude.{◌≡◌};
ghost use Rattle.std.specs.Option.{option_copied};
ghost use Rattle.form.specs.Form.{a, b, f, i, m, x};
ghost use Rattle.row.specs.Row.{row_of, target_row_of};
ghost use Rattle.row.specs.inner.Packed.{Packs};

use form::{A, B, F, Form, M, X};
use meaning::{INCREMENTS, Meaning, SHIFTS};
use parts::{L, Part};

// A row: what its number means, how many bits its parts have, and its parts, lowest first; the last have no width.
#[derive(Clone, Copy)]
pub struct Packed {
    pub meaning: Meaning,
    pub width: u32,
    pub parts: &'static [Part],
}

const NONE: Part = Part { place: 0, width: 0 };

// The manual's names of the parts: S is its s, or i where the number has no sign.
const CT2D: Part = Part {
    place: 27,
    width: 2,
};

// I1's.
const CT2D_30: Part = Part {
    place: 30,
    width: 2,
};

const IMM7A: Part = Part { place: 6, width: 7 };

const IMM7B: Part = Part {
    place: 13,
    width: 7,
};

const IMM6D: Part = Part {
    place: 27,
    width: 6,
};

const COUNT5B: Part = Part {
    place: 14,
    width: 5,
};

const CCOUNT5C: Part = Part {
    place: 20,
    width: 5,
};

const POS6B: Part = Part {
    place: 14,
    width: 6,
};

const TIMM9C: Part = Part {
    place: 24,
    width: 9,
};

const MASK8C: Part = Part {
    place: 24,
    width: 8,
};

const IMM27A: Part = Part {
    place: 6,
    width: 27,
};

const IMM9D: Part = Part {
    place: 27,
    width: 9,
};

const IMM5C: Part = Part {
    place: 22,
    width: 5,
};

const IMM13C: Part = Part {
    place: 20,
    width: 13,
};

const IMM20A: Part = Part {
    place: 6,
    width: 20,
};

const IMM20B: Part = Part {
    place: 13,
    width: 20,
};

const IMM21A: Part = Part {
    place: 6,
    width: 21,
};

const I2D: Part = Part {
    place: 31,
    width: 2,
};

// i2b, and above it M17's own s.
const I2B_S: Part = Part {
    place: 13,
    width: 3,
};

const I: Part = Part {
    place: 27,
    width: 1,
};

const IC: Part = Part {
    place: 21,
    width: 1,
};

const S: Part = Part {
    place: 36,
    width: 1,
};

const IMM41: Part = Part {
    place: L,
    width: 41,
};

const IMM39: Part = Part {
    place: L + 2,
    width: 39,
};

// A2, A10
static COUNT2: Packed = Packed {
    meaning: Meaning::Unsigned(1),
    width: 2,
    parts: &[CT2D, NONE, NONE, NONE, NONE, NONE],
};

// A3, A8, M30, I27
static IMM8: Packed = Packed {
    meaning: Meaning::Signed(1),
    width: 8,
    parts: &[IMM7B, S, NONE, NONE, NONE, NONE],
};

// A4
static IMM14: Packed = Packed {
    meaning: Meaning::Signed(1),
    width: 14,
    parts: &[IMM7B, IMM6D, S, NONE, NONE, NONE],
};

// A5
static IMM22: Packed = Packed {
    meaning: Meaning::Signed(1),
    width: 22,
    parts: &[IMM7B, IMM9D, IMM5C, S, NONE, NONE],
};

// M3, M8, M15
static IMM9B: Packed = Packed {
    meaning: Meaning::Signed(1),
    width: 9,
    parts: &[IMM7B, I, S, NONE, NONE, NONE],
};

// M5, M10
static IMM9A: Packed = Packed {
    meaning: Meaning::Signed(1),
    width: 9,
    parts: &[IMM7A, I, S, NONE, NONE, NONE],
};

// M17
static INCREMENT: Packed = Packed {
    meaning: Meaning::Chosen(true, INCREMENTS),
    width: 3,
    parts: &[I2B_S, NONE, NONE, NONE, NONE, NONE],
};

// M20, M21, I20
static TARGET25B: Packed = Packed {
    meaning: Meaning::Signed(16),
    width: 21,
    parts: &[IMM7A, IMM13C, S, NONE, NONE, NONE],
};

// M22, M23, B1, B2, B3
static TARGET25C: Packed = Packed {
    meaning: Meaning::Signed(16),
    width: 21,
    parts: &[IMM20B, S, NONE, NONE, NONE, NONE],
};

// F14
static TARGET25: Packed = Packed {
    meaning: Meaning::Signed(16),
    width: 21,
    parts: &[IMM20A, S, NONE, NONE, NONE, NONE],
};

// M37, M48, F15, F16, B9, I18, I19
static IMM21: Packed = Packed {
    meaning: Meaning::Unsigned(0),
    width: 21,
    parts: &[IMM20A, S, NONE, NONE, NONE, NONE],
};

// M44
static IMM24: Packed = Packed {
    meaning: Meaning::Unsigned(0),
    width: 24,
    parts: &[IMM21A, I2D, S, NONE, NONE, NONE],
};

// X1, X5
static IMM62: Packed = Packed {
    meaning: Meaning::Unsigned(0),
    width: 62,
    parts: &[IMM20A, S, IMM41, NONE, NONE, NONE],
};

// X2
static IMM64: Packed = Packed {
    meaning: Meaning::Unsigned(0),
    width: 64,
    parts: &[IMM7B, IMM9D, IMM5C, IC, IMM41, S],
};

// X3, X4
static TARGET64: Packed = Packed {
    meaning: Meaning::Signed(16),
    width: 60,
    parts: &[IMM20B, IMM39, S, NONE, NONE, NONE],
};

// I1
static SHIFT: Packed = Packed {
    meaning: Meaning::Chosen(false, SHIFTS),
    width: 2,
    parts: &[CT2D_30, NONE, NONE, NONE, NONE, NONE],
};

// I6
static COUNT5: Packed = Packed {
    meaning: Meaning::Unsigned(0),
    width: 5,
    parts: &[COUNT5B, NONE, NONE, NONE, NONE, NONE],
};

// I8
static CCOUNT5: Packed = Packed {
    meaning: Meaning::Complement(31),
    width: 5,
    parts: &[CCOUNT5C, NONE, NONE, NONE, NONE, NONE],
};

// I10, whose count6d stands where imm6d does
static COUNT6: Packed = Packed {
    meaning: Meaning::Unsigned(0),
    width: 6,
    parts: &[IMM6D, NONE, NONE, NONE, NONE, NONE],
};

// I16
static POS6: Packed = Packed {
    meaning: Meaning::Unsigned(0),
    width: 6,
    parts: &[POS6B, NONE, NONE, NONE, NONE, NONE],
};

// I21
static TAG13: Packed = Packed {
    meaning: Meaning::Signed(16),
    width: 9,
    parts: &[TIMM9C, NONE, NONE, NONE, NONE, NONE],
};

// I23, whose mask7a stands where imm7a does
static MASK17: Packed = Packed {
    meaning: Meaning::Signed(2),
    width: 16,
    parts: &[IMM7A, MASK8C, S, NONE, NONE, NONE],
};

// I24
static IMM44: Packed = Packed {
    meaning: Meaning::Signed(65536),
    width: 28,
    parts: &[IMM27A, S, NONE, NONE, NONE, NONE],
};

// I30, whose imm5b stands where count5b does
static IMM5: Packed = Packed {
    meaning: Meaning::Unsigned(32),
    width: 5,
    parts: &[COUNT5B, NONE, NONE, NONE, NONE, NONE],
};

// A form's row.
pub fn packed_of(form: Form) -> Option<&'static Packed>
    ensures { Packs (option_copied result) (row_of form) }
{
    let family = form.family;
    let number = form.number;
    match family {
        A => row_a(number),
        B => row_b(number),
        F => row_f(number),
        form::I => row_i(number),
        M => row_m(number),
        X => row_x(number),
        _ => None,
    }
}

// The row of a form that has a target: its values are times 16, with a sign.
pub fn packed_target_of(form: Form) -> Option<&'static Packed>
    ensures { Packs (option_copied result) (target_row_of form) }
{
    let packed = packed_of(form)?;
    match packed.meaning {
        Meaning::Signed(16) => Some(packed),
        _ => None,
    }
}

#[tactic(auto, unfolding(crate::specs::Row::row_of, crate::specs::Row::lines))]
fn row_a(number: u64) -> Option<&'static Packed>
    ensures { Packs (option_copied result) (row_of (a number)) }
{
    match number {
        2 | 10 => Some(&COUNT2),
        3 | 8 => Some(&IMM8),
        4 => Some(&IMM14),
        5 => Some(&IMM22),
        _ => None,
    }
}

#[tactic(auto, unfolding(crate::specs::Row::row_of, crate::specs::Row::lines))]
fn row_b(number: u64) -> Option<&'static Packed>
    ensures { Packs (option_copied result) (row_of (b number)) }
{
    match number {
        1 | 2 | 3 => Some(&TARGET25C),
        9 => Some(&IMM21),
        _ => None,
    }
}

#[tactic(auto, unfolding(crate::specs::Row::row_of, crate::specs::Row::lines))]
fn row_f(number: u64) -> Option<&'static Packed>
    ensures { Packs (option_copied result) (row_of (f number)) }
{
    match number {
        14 => Some(&TARGET25),
        15 | 16 => Some(&IMM21),
        _ => None,
    }
}

#[tactic(auto, unfolding(crate::specs::Row::row_of, crate::specs::Row::lines))]
fn row_i(number: u64) -> Option<&'static Packed>
    ensures { Packs (option_copied result) (row_of (i number)) }
{
    match number {
        1 => Some(&SHIFT),
        6 => Some(&COUNT5),
        8 => Some(&CCOUNT5),
        10 => Some(&COUNT6),
        16 => Some(&POS6),
        18 | 19 => Some(&IMM21),
        20 => Some(&TARGET25B),
        21 => Some(&TAG13),
        23 => Some(&MASK17),
        24 => Some(&IMM44),
        27 => Some(&IMM8),
        30 => Some(&IMM5),
        _ => None,
    }
}

#[tactic(auto, unfolding(crate::specs::Row::row_of, crate::specs::Row::lines))]
fn row_m(number: u64) -> Option<&'static Packed>
    ensures { Packs (option_copied result) (row_of (m number)) }
{
    match number {
        3 | 8 | 15 => Some(&IMM9B),
        5 | 10 => Some(&IMM9A),
        17 => Some(&INCREMENT),
        20 | 21 => Some(&TARGET25B),
        22 | 23 => Some(&TARGET25C),
        30 => Some(&IMM8),
        37 | 48 => Some(&IMM21),
        44 => Some(&IMM24),
        _ => None,
    }
}

#[tactic(auto, unfolding(crate::specs::Row::row_of, crate::specs::Row::lines))]
fn row_x(number: u64) -> Option<&'static Packed>
    ensures { Packs (option_copied result) (row_of (x number)) }
{
    match number {
        1 | 5 => Some(&IMM62),
        2 => Some(&IMM64),
        3 | 4 => Some(&TARGET64),
        _ => None,
    }
}
