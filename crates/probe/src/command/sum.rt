// `sum`: the code's length, and a number that its bytes make.
use lines::out;

const PRIME: u64 = 4294967291;

pub fn answer(code: &[u8], out: &mut [u8], at: usize) -> usize {
    let to = out::number(out, at, code.len() as u64);
    out::number(out, to, of(code))
}

fn of(code: &[u8]) -> u64 {
    let mut h: u64 = 0;
    for b in code {
        h = (h * 257 + u64::from(*b) + 1) % PRIME;
    }
    h
}
