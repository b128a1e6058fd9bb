// `cut N`: a bundle's tag, units with their stops, and slots.
use answer::Refusal;
use bundle::{Bundle, Uncut};
use lines::out;

pub fn answer(number: u64, code: &[u8], out: &mut [u8], at: usize) -> usize {
    match bundle::cut(code, number) {
        Ok(bundle) => cut(out, at, bundle),
        Err(Uncut::Reserved(tag)) => uncut(out, at, Refusal::BadBundle, tag),
        Err(Uncut::Missing(refusal)) => uncut(out, at, refusal, 0),
    }
}

fn cut(out: &mut [u8], at: usize, bundle: Bundle) -> usize {
    let template = bundle.template;
    let to = out::numbers(out, at, &[0, u64::from(template.tag)]);
    let gap = text::put_byte(out, to, b' ');
    let end = lister::put_units(out, gap, template);
    out::numbers(out, end, &bundle.slots)
}

// No units, and zeros.
fn uncut(out: &mut [u8], at: usize, refusal: Refusal, tag: u8) -> usize {
    let to = out::numbers(out, at, &[u64::from(refusal.number()), u64::from(tag)]);
    text::put_text(out, to, b" - 0 0 0")
}
