// `put AT BYTES`: writes bytes into the code.
use lines::{fields, part, spelt};

pub fn answer(place: u64, rest: &[u8], code: &mut [u8], at: usize) -> Option<usize> {
    let text = fields::rest(rest);
    let end = part::end(code, place, spelt::count(text)?)?;
    spelt::put(text, &mut code[place as usize..end]);
    Some(at)
}
