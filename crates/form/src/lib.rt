// An instruction's form, as A4 or X2, and an edit: another value for the immediate of a form in a slot.
#![tactic(auto)]

ghost use Rattle.std.specs.Prelude.{◌≡◌};
ghost use Rattle.form.specs.Form.{is_form, last_of};

use operand::Operand;

// A family is its letter's byte, and no enum: so the C interface hands it over, and any other number is a form that isn't.
pub const A: u64 = b'A' as u64;

pub const B: u64 = b'B' as u64;

pub const F: u64 = b'F' as u64;

pub const I: u64 = b'I' as u64;

pub const M: u64 = b'M' as u64;

pub const X: u64 = b'X' as u64;

#[repr(C)]
#[derive(Clone, Copy, PartialEq, Eq)]
pub struct Form {
    pub family: u64,
    pub number: u64,
}

// No form: what a record of a whole bundle has.
pub const NO_FORM: Form = Form {
    family: 0,
    number: 0,
};

#[derive(Clone, Copy, PartialEq, Eq)]
pub struct Edit {
    pub bundle: u64,
    pub slot: u64,
    pub form: Form,
    pub value: Operand,
}

#[tactic(auto, unfolding(crate::specs::Form::is_form))]
pub fn is_form(form: Form) -> bool
    ensures { result ≡ is_form form }
{
    0 < form.number && form.number <= last_of(form.family)
}

fn last_of(family: u64) -> u64
    ensures { result ≡ last_of family }
{
    match family {
        A => 10,
        B => 9,
        F => 16,
        I => 30,
        M => 48,
        X => 5,
        _ => 0,
    }
}
