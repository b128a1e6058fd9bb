// Opcode and form of a word, from the unit that it is for, by 000's A and B tables; and whether the word in a slot has a form.
#![tactic(auto)]

ghost use Rattle.std.specs.Prelude.{◌≡◌};
ghost use Rattle.bundle.specs.Bundle.{whole};
ghost use Rattle.choice.specs.Choice.{choice_of, as_choice, word_has, has_form};
ghost use Rattle.choice.specs.inner.Whole.{in_family};

use answer::Refusal;
use bundle::Halves;
use choice_a::named_a;
use choice_b::named_b;
use form::{A, B, Form, I, M};
use opcodes::{Named, Opcode};

// The opcode and the form of a word.
#[derive(Clone, Copy)]
pub struct Chosen {
    pub opcode: Opcode,
    pub form: Form,
}

const WORD: u64 = 1 << 41;

// The opcode and the form that a word of the unit has. A unit is its letter's byte.
pub fn choose(unit: u64, word: u64) -> Result<Chosen, Refusal>
    ensures { as_choice result ≡ choice_of unit word }
{
    if WORD <= word {
        return Err(Refusal::BadWord);
    }
    match unit {
        M | I => with_family(A, named_a(word)),
        B => with_family(B, named_b(word)),
        _ => Err(Refusal::BadOpcode),
    }
}

// The form's number is one of the family.
fn with_family(family: u64, named: Option<Named>) -> Result<Chosen, Refusal>
    ensures { as_choice result ≡ in_family family named }
{
    match named {
        Some(Named(opcode, number)) => Ok(Chosen {
            opcode,
            form: Form { family, number },
        }),
        None => Err(Refusal::BadOpcode),
    }
}

// Whether the word in a slot of a bundle has a form.
pub fn has_form(bundle: Halves, slot: u64, form: Form) -> bool
    ensures { result ≡ has_form (whole bundle) slot form }
{
    if 2 < slot {
        return false;
    }
    let units = bundle::units_of(bundle);
    let words = bundle::slots(bundle);
    word_has(units[slot as usize], words[slot as usize], form)
}

fn word_has(unit: u8, word: u64, form: Form) -> bool
    ensures { result ≡ word_has unit word form }
{
    match choose(unit as u64, word) {
        Ok(chosen) => chosen.form == form,
        Err(_) => false,
    }
}
