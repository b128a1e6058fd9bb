// `get AT LEN`: a part of the code, of at most 1,024 bytes.
use lines::{out, part};

pub fn answer(place: u64, count: u64, code: &[u8], out: &mut [u8], at: usize) -> Option<usize> {
    if 1024 < count {
        return None;
    }
    let end = part::end(code, place, count)?;
    Some(out::hex(out, at, &code[place as usize..end]))
}
