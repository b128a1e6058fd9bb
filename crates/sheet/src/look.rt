// A text that may be a sheet: what is found in it, and its records one after the other.
ghost use Rattle.std.specs.Prelude.{◌≡◌};
ghost use Rattle.records.specs.Journal.{limit};
ghost use Rattle.sheet.specs.Load.{head_of, records_as, records_in};
ghost use Rattle.sheet.specs.inner.Finds.{Finds, FindsFor, Nexts};

use crate::line;
use crate::line::Kind;
use answer::Refusal;
use record::{NONE, Record};
use records::LIMIT;
use text::NEWLINE;

// Of a sheet the number of its records, the place of the first one's line, and the kind of its lines.
#[derive(Clone, Copy)]
pub struct Found {
    pub count: u64,
    pub first: usize,
    pub kind: Kind,
}

// A record, and the place where the next one's line begins.
#[derive(Clone, Copy)]
pub struct Next {
    pub one: Record,
    pub at: usize,
}

// The sheet that a text is, where a party's journal is valid and has places for its records.
pub fn look(party: u64, valid: bool, places: u64, text: &[u8]) -> Result<Found, Refusal>
    ensures { FindsFor party valid places text.now result }
{
    if !valid {
        return Err(Refusal::BadJournal);
    }
    let found = look_in(party, text)?;
    if places < found.count {
        return Err(Refusal::Full);
    }
    Ok(found)
}

// The sheet that a text is, in full lines or else in old ones.
fn look_in(party: u64, text: &[u8]) -> Result<Found, Refusal>
    ensures { Finds party text.now (records_in limit party text.now) result }
{
    match look_as(party, text, Kind::Full) {
        Ok(found) => Ok(found),
        Err(_) => look_as(party, text, Kind::Old),
    }
}

// The same where the lines are of one kind.
fn look_as(party: u64, text: &[u8], kind: Kind) -> Result<Found, Refusal>
    ensures { Finds party text.now (records_as limit party kind text.now) result }
{
    let Some((count, first)) = read_head(text) else {
        return Err(Refusal::BadSheet);
    };
    if LIMIT < count {
        return Err(Refusal::BadSheet);
    }
    let mut at = first;
    'lines: for _ in 0..count {
        let Some((_, next)) = line::read_line(party, text, at, kind) else {
            return Err(Refusal::BadSheet);
        };
        at = next;
    }
    if at != text.len() {
        return Err(Refusal::BadSheet);
    }
    Ok(Found { count, first, kind })
}

// The count that the first line gives, and the place after that line.
fn read_head(text: &[u8]) -> Option<(u64, usize)>
    ensures { result ≡ head_of text.now }
{
    if !text::begins(text, b"patches\t") {
        return None;
    }
    text::read_field(text, 8, NEWLINE)
}

// What comes at a place of the party's journal: the record of the line that stands there, or nothing past the last.
pub fn next_line(party: u64, text: &[u8], at: usize, place: usize, found: Found) -> Next
    ensures { Nexts party text.now found at place result }
{
    let kind = found.kind;
    if (place as u64) < found.count {
        let line = line::read_line(party, text, at, kind);
        if let Some((one, next)) = line {
            return Next { one, at: next };
        }
    }
    Next { one: NONE, at }
}
