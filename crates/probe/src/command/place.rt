// `place I BUNDLE SLOT FORM VALUE OLDLOW OLDHIGH NEWLOW NEWHIGH PARTY`: sets a place of the journal.
use crate::calls::Call;
use bundle::Halves;
use lines::fields;
use record::Record;

pub fn asked(of: [u64; 5], rest: &[u8], places: u64) -> Option<Call> {
    let text = fields::rest(rest);
    let (form, at) = name::read_name(text, 0)?;
    let ([value, old_low, old_high, new_low, new_high, party], end) = fields::numbers_at::<6>(
        text, at,
    )?;
    if places <= of[0] || end != text.len() {
        return None;
    }
    let one = Record {
        party,
        bundle: of[1],
        slot: of[2],
        form,
        value,
        old: Halves {
            low: old_low,
            high: old_high,
        },
        new: Halves {
            low: new_low,
            high: new_high,
        },
    };
    Some(Call::Place(of[0], one))
}
