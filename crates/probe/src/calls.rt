// The calls on the journal's records. These functions alone reach them.
use crate::command;
use crate::kept::Kept;
use answer::Refusal;
use journal::Act;
use lines::part;
use record::{NONE, Record};
use records::Counts;
use script::Ran;

// What a line calls for; where a party does, its number comes first, and where a call is lent room, that comes last.
#[derive(Clone, Copy)]
pub enum Call {
    Journal(Counts, u64),
    Place(u64, Record),
    Records,
    Act(u64, Act),
    Sheet(u64, usize),
    Line(u64, u64, usize),
    Load(u64, usize),
    Fold(u64),
    Script(Part),
}

// A part of a script: the number expected, whether it has stopped, how many bytes it has, and the room that is lent.
#[derive(Clone, Copy)]
pub struct Part {
    pub party: u64,
    pub next: u64,
    pub stopped: bool,
    pub count: usize,
    pub room: usize,
}

// What a call gave that is told, and the room that it was lent.
#[derive(Clone, Copy)]
pub enum Gave {
    Edited(Result<Counts, Refusal>),
    Records(usize),
    Written(Result<usize, Refusal>, usize),
    Ran(Ran, usize),
}

// What the lines work on: the code, what a call is lent, a script that is given, the journal's places, and what is kept between the lines.
#[derive(Drop)]
pub struct Work<'a> {
    pub code: &'a mut [u8],
    pub lent: &'a mut [u8],
    pub given: &'a mut [u8],
    pub records: &'a mut [Record],
    pub kept: Kept,
}

// Makes a call on the parts that the code and the journal have, and keeps the counts that it gave.
pub fn made(call: Call, work: &mut Work<'_>) -> Option<Gave> {
    make(
        call,
        work.code,
        work.lent,
        work.given,
        work.records,
        &mut work.kept,
    )
}

// A script is only read; it is lent as the others are, since no proof is made where one of them alone is lent to be read.
fn make(
    call: Call,
    code: &mut [u8],
    lent: &mut [u8],
    given: &mut [u8],
    records: &mut [Record],
    kept: &mut Kept,
) -> Option<Gave> {
    let counts = kept.counts;
    let length = part::within(code, kept.length);
    let code = &mut code[..length];
    let places = records.len().min(kept.places as usize);
    let records = &mut records[..places];
    match call {
        Call::Journal(counts, places) => {
            records.fill(NONE);
            kept.counts = counts;
            kept.places = places;
            None
        }
        Call::Place(i, one) => {
            records::put(records, i, one);
            None
        }
        Call::Records => Some(Gave::Records(show(records, lent))),
        Call::Act(party, act) => Some(edited(
            journal::perform(code, counts, records, party, act),
            kept,
        )),
        Call::Load(party, count) => {
            let n = part::within(lent, count);
            Some(edited(sheet::load(counts, records, party, &lent[..n]), kept))
        }
        Call::Fold(party) => Some(edited(fold::fold(counts, records, party), kept)),
        Call::Sheet(party, room) => {
            let n = part::within(lent, room);
            let written = sheet::write(counts, records, party, &mut lent[..n]);
            Some(Gave::Written(written, room))
        }
        Call::Line(party, i, room) => {
            let n = part::within(lent, room);
            let written = sheet::write_line(i, counts, records, party, &mut lent[..n]);
            Some(Gave::Written(written, room))
        }
        Call::Script(part) => Some(ran(part, code, lent, given, records, kept)),
    }
}

fn edited(edited: Result<Counts, Refusal>, kept: &mut Kept) -> Gave {
    kept.counts = edited.unwrap_or(kept.counts);
    Gave::Edited(edited)
}

fn ran(
    part: Part,
    code: &mut [u8],
    lent: &mut [u8],
    given: &[u8],
    records: &mut [Record],
    kept: &mut Kept,
) -> Gave {
    let n = part::within(lent, part.room);
    let m = part::within(given, part.count);
    let ran = script::run(
        code,
        kept.counts,
        records,
        part.party,
        part.next,
        part.stopped,
        &given[..m],
        &mut lent[..n],
    );
    kept.counts = ran.counts;
    Gave::Ran(ran, part.room)
}

// Writes the places that aren't free, and answers how many bytes that are.
fn show(records: &[Record], out: &mut [u8]) -> usize {
    let mut at = 0;
    for (i, one) in records.iter().enumerate() {
        at = command::show_place(i as u64, *one, out, at);
    }
    at
}
