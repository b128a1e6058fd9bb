// `meet N SLOT F NUMBER N SLOT F NUMBER`: whether two edits set a bit in common.
use answer::answer_of;
use form::{Edit, Form};
use lines::{fields, out};
use operand::Operand;

pub fn answer(of: [u64; 5], rest: &[u8], out: &mut [u8], at: usize) -> Option<usize> {
    let ([bundle, slot, family, number], end) = fields::numbers_at::<4>(rest, 0)?;
    if end != rest.len() {
        return None;
    }
    let met = meet::meet(
        edit(of[0], of[1], of[2], of[3]),
        edit(bundle, slot, family, number),
    );
    let to = out::number(out, at, u64::from(answer_of(&met)));
    Some(out::number(out, to, u64::from(met.unwrap_or(false))))
}

// An edit of a field; its value says nothing of its bits.
fn edit(bundle: u64, slot: u64, family: u64, number: u64) -> Edit {
    Edit {
        bundle,
        slot,
        form: Form { family, number },
        value: Operand::None,
    }
}
