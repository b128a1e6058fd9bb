// `join OUTLEN TAG W0 W1 W2`: into an output of OUTLEN bytes, at most 64, that are all 238.
use answer::{Refusal, answer_of};
use lines::{out, part};

pub fn answer(of: [u64; 5], out: &mut [u8], at: usize) -> Option<usize> {
    if 64 < of[0] {
        return None;
    }
    let mut room = [238u8; 64];
    let said = joined(of, &mut room);
    let to = out::number(out, at, u64::from(answer_of(&said)));
    Some(out::first(out, to, &room, of[0]))
}

fn joined(of: [u64; 5], room: &mut [u8]) -> Result<(), Refusal> {
    let n = part::within(room, of[0] as usize);
    bundle::join(of[1], [of[2], of[3], of[4]], &mut room[..n])
}
