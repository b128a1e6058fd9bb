// `operands F N WORD L`: the last-written position and five operands.
use answer::answer_of;
use form::Form;
use lines::{operands, out};
use operand::{Shown, no_op};

pub fn answer(of: [u64; 5], out: &mut [u8], at: usize) -> usize {
    let form = Form {
        family: of[0],
        number: of[1],
    };
    let read = readers::operands(form, of[2], of[3]);
    let to = out::number(out, at, u64::from(answer_of(&read)));
    let gap = text::put_byte(out, to, b' ');
    let reading = read.unwrap_or(no_op());
    let end = position(out, gap, reading.position);
    shown(out, end, reading.operands)
}

fn position(out: &mut [u8], at: usize, p: Option<u8>) -> usize {
    match p {
        None => text::put_byte(out, at, b'-'),
        Some(n) => text::put_decimal(out, at, u64::from(n)),
    }
}

fn shown(out: &mut [u8], at: usize, operands: [Shown; 5]) -> usize {
    let mut to = at;
    for shown in operands {
        to = operands::write(out, to, shown.0);
    }
    to
}
