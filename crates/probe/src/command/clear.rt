// `clear`: empties the report; with 36 numbers it sets it to them.
use crate::kept::Kept;
use lines::fields;
use tally::NUMBERS;

pub fn answer(rest: &[u8], kept: &mut Kept, at: usize) -> Option<usize> {
    let mut report = [0u64; NUMBERS];
    if !rest.is_empty() && fields::read_numbers(rest, 0, &mut report) != Some(rest.len()) {
        return None;
    }
    kept.report = report;
    Some(at)
}
