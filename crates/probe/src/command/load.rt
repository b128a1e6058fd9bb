// `load PARTY BYTES`: the party's journal of a sheet.
use crate::calls::Call;
use lines::{fields, spelt};

pub fn asked(party: u64, rest: &[u8], lent: &mut [u8]) -> Option<Call> {
    let text = fields::rest(rest);
    let count = spelt::count(text)?;
    spelt::put(text, lent);
    Some(Call::Load(party, count as usize))
}
