// `code LEN`: the code is LEN zero bytes.
use crate::kept::Kept;

pub fn answer(count: u64, code: &mut [u8], kept: &mut Kept, at: usize) -> Option<usize> {
    let n = count as usize;
    if code.len() < n {
        return None;
    }
    code[..n].fill(0);
    kept.length = n;
    Some(at)
}
