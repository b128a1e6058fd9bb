// The call `operands`, over 000's readers of each family.
#![tactic(auto)]

ghost use Rattle.std.specs.Prelude.{◌≡◌};
ghost use Rattle.readers.specs.Call.{is_bad, read_of, as_operands, operands_of};

use answer::Refusal;
use form::{A, B, F, Form, I, M, X};
use operand::Reading;

// The operands of a form in a word and, for X forms, the L word.
#[tactic(auto, unfolding(crate::specs::Call::operands_of))]
pub fn operands(form: Form, word: u64, l: u64) -> Result<Reading, Refusal>
    ensures { as_operands result ≡ operands_of form word l }
{
    if !form::is_form(form) {
        return Err(Refusal::BadForm);
    }
    if is_bad(form, word, l) {
        return Err(Refusal::BadWord);
    }
    Ok(read(form, word, l))
}

const WORD: u64 = 1 << 41;

// A word that has more than 41 bits: the form's, or the L word of an X form.
#[tactic(auto, unfolding(crate::specs::Call::is_bad))]
fn is_bad(form: Form, word: u64, l: u64) -> bool
    ensures { result ≡ is_bad form word l }
{
    let family = form.family;
    WORD <= word || family == X && WORD <= l
}

fn read(form: Form, word: u64, l: u64) -> Reading
    ensures { result ≡ read_of form word l }
{
    let family = form.family;
    let number = form.number;
    match family {
        A => read_a::read_a_operands(number, word),
        B => read_b::read_b_operands(number, word),
        F => read_f::read_f_operands(number, word),
        I => read_i::read_i_operands(number, word),
        M => read_m::read_m_operands(number, word),
        X => read_l::read_l_operands(number, word, l),
        _ => operand::no_op(),
    }
}
