// `edit PARTY N SLOT F NUMBER OPERAND`: writes a value into a form's immediate; `checked` and the same, where the word has the form.
use form::{Edit, Form};
use lines::{fields, operands};

pub fn read(of: [u64; 5], rest: &[u8]) -> Option<Edit> {
    let value = operands::read(fields::rest(rest))?;
    Some(Edit {
        bundle: of[1],
        slot: of[2],
        form: Form {
            family: of[3],
            number: of[4],
        },
        value,
    })
}
