// `immediate N SLOT F NUMBER`: the immediate of a form in a slot.
use answer::answer_of;
use form::Form;
use lines::{operands, out};
use operand::Operand;

pub fn answer(of: [u64; 5], code: &[u8], out: &mut [u8], at: usize) -> usize {
    let form = Form {
        family: of[2],
        number: of[3],
    };
    let read = immediate::immediate(code, of[0], of[1], form);
    let to = out::number(out, at, u64::from(answer_of(&read)));
    operands::write(out, to, read.unwrap_or(Operand::None))
}
