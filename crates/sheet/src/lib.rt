// A party's journal as a sheet, written and loaded: document 01, "Journal and sheet".
#![tactic(auto)]

mod line;
mod look;
mod numbered;

ghost use Rattle.std.specs.Prelude.{◌≡◌, [], ◌≤◌, leb, length};
ghost use Rattle.records.specs.Journal.{lent};
ghost use Rattle.records.specs.Shared.{sharing};
ghost use Rattle.journal.specs.Edit.{journal_outcome_of};
ghost use Rattle.text.specs.Put.{Put};
ghost use Rattle.text.specs.Whole.{as_written, wrote_of};
ghost use Rattle.sheet.specs.Sheet.{sheet_of, capacity, write_by, write_line_by};
ghost use Rattle.sheet.specs.Load.{load_by};
ghost use Rattle.sheet.specs.inner.Finds.{Fills};

use answer::Refusal;
use look::Found;
use record::Record;
use records::Counts;

// No sheet is longer.
pub const CAPACITY: usize = 118797;

// Writes the sheet of a party's journal at the output's start, and answers its length.
pub fn write(
    counts: Counts,
    records: &[Record],
    party: u64,
    out: &mut [u8],
) -> Result<usize, Refusal>
    ensures { (as_written result, out.new) ≡ write_by (sharing counts records.now) party out.old }
{
    let own = records::own_of(counts, records, party);
    let Some(view) = own.view else {
        return Err(Refusal::BadJournal);
    };
    let first = own.first as usize;
    let end = (own.first + own.places) as usize;
    write_own(view.count, &records[first..end], out)
}

// The same of the journal that stands at a slice's first places, where there is room.
fn write_own(count: u64, records: &[Record], out: &mut [u8]) -> Result<usize, Refusal>
    requires { (count ≤ length records.now) × (length (sheet_of (lent count records.now)) ≤ capacity) }
    ensures { (as_written result, out.new) ≡ wrote_of [] (sheet_of (lent count records.now)) out.old }
{
    if fits(count, records, out.len()) {
        return Ok(put_sheet(out, count, records));
    }
    Err(Refusal::NoRoom)
}

// Whether the sheet has at most `room` bytes. It is measured only where room may be short.
fn fits(count: u64, records: &[Record], room: usize) -> bool
    requires { (count ≤ length records.now) × (length (sheet_of (lent count records.now)) ≤ capacity) }
    ensures { result ≡ leb (length (sheet_of (lent count records.now))) room }
{
    if CAPACITY <= room {
        return true;
    }
    let mut none = [0u8; 0];
    put_sheet(&mut none, count, records) <= room
}

// Writes the sheet as far as there is room, and answers its length.
fn put_sheet(out: &mut [u8], count: u64, records: &[Record]) -> usize
    requires { count ≤ length records.now }
    ensures { Put out.old 0 (sheet_of (lent count records.now)) out.new result }
{
    let mut at = numbered::put_head(out, count);
    for place in 0..count {
        let one = records::get(records, place);
        at = line::put_line(out, at, one);
    }
    at
}

// Writes line i of the sheet, of which the first is that with the count; past the last line there is nothing to write.
pub fn write_line(
    i: u64,
    counts: Counts,
    records: &[Record],
    party: u64,
    out: &mut [u8],
) -> Result<usize, Refusal>
    ensures { (as_written result, out.new) ≡ write_line_by (sharing counts records.now) party i out.old }
{
    let own = records::own_of(counts, records, party);
    let Some(view) = own.view else {
        return Err(Refusal::BadJournal);
    };
    let first = own.first as usize;
    let end = (own.first + own.places) as usize;
    let one = records::get(&records[first..end], records::place_before(i));
    numbered::write_numbered(out, i, view.count, one)
}

// The party's journal whose sheet the text is, in place of the one given: how many records of each party stand then. The text is gone through
// twice, so that a refused one changes nothing.
pub fn load(
    counts: Counts,
    records: &mut [Record],
    party: u64,
    text: &[u8],
) -> Result<Counts, Refusal>
    ensures { journal_outcome_of result counts records.new ≡ load_by (sharing counts records.old) party text.now }
{
    let own = records::own_of(counts, records, party);
    let looked = look::look(party, own.view.is_some(), own.places, text);
    let found = looked?;
    let first = own.first as usize;
    let end = (own.first + own.places) as usize;
    fill(&mut records[first..end], party, text, found);
    Ok(records::with_count(counts, party, found.count))
}

// Writes the party's records of the sheet that was found, and frees the other places.
fn fill(records: &mut [Record], party: u64, text: &[u8], found: Found)
    ensures { Fills party text.now found records.old records.new }
{
    let mut at = found.first;
    for (place, one) in records.iter_mut().enumerate() {
        let next = look::next_line(party, text, at, place, found);
        *one = next.one;
        at = next.at;
    }
}
