// `open PARTIES`: a fresh journal. `journal PARTIES COUNT0 COUNT1 [LENGTH]`: one of those counts, whatever they are, with LENGTH places,
// at most 2,048, each of them zero.
use crate::calls::Call;
use crate::kept::MOST_PLACES;
use lines::fields;
use records::{Counts, LIMIT};

pub fn opened(parties: u64) -> Call {
    Call::Journal(records::opened(parties), LIMIT)
}

pub fn asked(of: [u64; 5], rest: &[u8]) -> Option<Call> {
    let counts = Counts {
        parties: of[0],
        lower: of[1],
        upper: of[2],
    };
    if rest.is_empty() {
        return Some(Call::Journal(counts, LIMIT));
    }
    let ([places], end) = fields::numbers_at::<1>(rest, 0)?;
    if end != rest.len() || (MOST_PLACES as u64) < places {
        return None;
    }
    Some(Call::Journal(counts, places))
}
