// `find N`: the sixteen bytes of a bundle.
use lines::out;

pub fn answer(number: u64, code: &[u8], out: &mut [u8], at: usize) -> usize {
    let to = out::number(out, at, u64::from(bundle::find_answer(code, number)));
    out::hex(out, to, bundle::find(code, number))
}
