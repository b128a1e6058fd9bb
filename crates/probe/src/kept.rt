// What is kept between the lines.
use records::Counts;
use tally::NUMBERS;

// The most places that a journal has here.
pub const MOST_PLACES: usize = 2048;

// The journal's counts and how many places it has, the code's length, and the report.
#[derive(Drop)]
pub struct Kept {
    pub counts: Counts,
    pub places: u64,
    pub length: usize,
    pub report: [u64; NUMBERS],
}

// At first the journal is one opened for one party.
pub fn first() -> Kept {
    Kept {
        counts: records::opened(1),
        places: records::LIMIT,
        length: 0,
        report: [0; NUMBERS],
    }
}
