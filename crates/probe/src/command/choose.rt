// `choose UNIT WORD`: the form and the opcode of a unit's word.
use answer::answer_of;
use choice::Chosen;
use form::NO_FORM;
use lines::out;
use opcodes::Opcode;

const NONE: Chosen = Chosen {
    opcode: Opcode::No,
    form: NO_FORM,
};

pub fn answer(unit: u64, word: u64, out: &mut [u8], at: usize) -> usize {
    let chosen = choice::choose(unit, word);
    let to = out::number(out, at, u64::from(answer_of(&chosen)));
    let gap = text::put_byte(out, to, b' ');
    let shown = chosen.unwrap_or(NONE);
    let named = name::put_name(out, gap, shown.form);
    let mark = text::put_byte(out, named, b' ');
    opcode_name::put_opcode(out, mark, shown.opcode)
}
