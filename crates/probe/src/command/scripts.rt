// `script PARTY NEXT STOPPED OUTLEN BYTES`: a part of the party's script, into an output of OUTLEN bytes, at most 130,000, that are all 238.
use crate::calls::{Call, Part};
use crate::command::sheets;
use lines::{fields, out, spelt};
use script::Ran;

pub fn asked(of: [u64; 5], rest: &[u8], lent: &mut [u8], given: &mut [u8]) -> Option<Call> {
    let [party, next, stopped, length, _] = of;
    if 1 < stopped || 130000 < length {
        return None;
    }
    let text = fields::rest(rest);
    let count = spelt::count(text)?;
    spelt::put(text, given);
    Some(Call::Script(Part {
        party,
        next,
        stopped: stopped == 1,
        count: count as usize,
        room: sheets::blank(length, lent),
    }))
}

pub fn told(ran: Ran, room: usize, lent: &[u8], out: &mut [u8], at: usize) -> usize {
    let next = out::number(out, at, ran.next);
    let stopped = out::number(out, next, u64::from(ran.stopped));
    let done = out::number(out, stopped, ran.done as u64);
    sheets::written(ran.length, room, lent, out, done)
}
