// A slice of records that the caller lends, and that one or two parties share: party 0 has the lower part of it and party 1 the upper.
// In each part the first `count` places stand, the oldest first, and the others are free.
#![tactic(auto)]

ghost use Rattle.std.specs.Prelude.{◌≡◌, true, ◌-◌, T, eqb, length, get_or, set, replicate};
ghost use Rattle.record.specs.Record.{no_record, is_free, may_stand, fits64};
ghost use Rattle.records.specs.Journal.{limit, lent, all, standing, valid_of};
ghost use Rattle.records.specs.Shared.{sharing, seam, is_opened, serves, opened_for, SharedFits64};
ghost use Rattle.records.specs.inner.Shows.{share_of, with_count, as_own_view, own_view, Shows};

use record::{NONE, Record};

// So many places has a journal, and so many records may stand.
pub const LIMIT: u64 = 1024;

// So many of them has each of two parties.
const HALF: u64 = 512;

// How many parties share a journal, and how many records of party 0 and of party 1 stand.
#[repr(C)]
#[derive(Clone, Copy)]
pub struct Counts {
    pub parties: u64,
    pub lower: u64,
    pub upper: u64,
}

// What a valid journal shows: how many records stand, and the last of them.
#[derive(Clone, Copy)]
pub struct View {
    pub count: u64,
    pub last: Record,
}

// A party's part of the slice: its first place, how many places it has, and what the journal there shows, if it is valid.
#[derive(Clone, Copy)]
pub struct Own {
    pub first: u64,
    pub places: u64,
    pub view: Option<View>,
}

// A party's first place, how many places it has, and how many of its records stand.
#[derive(Clone, Copy)]
struct Share {
    first: u64,
    places: u64,
    count: u64,
}

// Places that are all free, to lend.
pub fn free() -> [Record; LIMIT as usize]
    ensures { result ≡ replicate limit no_record }
{
    [NONE; LIMIT as usize]
}

// The counts of a fresh journal for so many parties.
pub fn opened(parties: u64) -> Counts
    ensures { result ≡ opened_for parties }
{
    Counts {
        parties,
        lower: 0,
        upper: 0,
    }
}

// The record at a place; past the last place nothing is recorded.
pub fn get(records: &[Record], place: u64) -> Record
    ensures { result ≡ get_or records.now place no_record }
{
    records.get(place as usize).copied().unwrap_or(NONE)
}

// Sets the record at a place; past the last place nothing is set.
pub fn put(records: &mut [Record], place: u64, one: Record)
    ensures { records.new ≡ set records.old place one }
{
    let at = place as usize;
    if at < records.len() {
        records[at] = one;
    }
}

fn stands(party: u64, one: Record) -> bool
    ensures { (result ≡ may_stand party one) × T (fits64 one) }
{
    record::may_stand(party, one)
}

// Whether each of some records may stand in a party's journal.
fn all_stand(party: u64, records: &[Record]) -> bool
    ensures { (result ≡ all (may_stand party) records.now) × T (all fits64 records.now) }
{
    let mut stand = true;
    for one in records {
        stand &= stands(party, *one);
    }
    stand
}

// Whether each of some places is free.
fn all_free(records: &[Record]) -> bool
    ensures { result ≡ all is_free records.now }
{
    let mut free = true;
    for one in records {
        free &= record::is_free(*one);
    }
    free
}

// Whether a party's journal has places for its count, the records that stand may, and the places past the count are free.
fn is_valid(party: u64, count: u64, records: &[Record]) -> bool
    ensures { (result ≡ valid_of party (length records.now) (lent count records.now)) × (result ≡ true → T (all fits64 (standing (lent count records.now)))) }
{
    let Some((standing, others)) = records.split_at_checked(count as usize) else {
        return false;
    };
    all_stand(party, standing) & all_free(others)
}

// Where party 1's places begin.
fn seam_of(parties: u64) -> u64
    ensures { result ≡ seam parties }
{
    if parties == 2 { HALF } else { LIMIT }
}

// Whether the slice is of `LIMIT` records, it was opened for one party or two, each one's journal is valid, and the party is one of them.
fn is_served(counts: Counts, records: &[Record], party: u64) -> bool
    ensures { (result ≡ serves (sharing counts records.now) party) × (result ≡ true → SharedFits64 (sharing counts records.now)) }
{
    if !is_sized(records.len()) {
        return false;
    }
    let (lower, upper) = records.split_at(seam_of(counts.parties) as usize);
    let valid = is_opened(counts.parties)
        & is_valid(0, counts.lower, lower)
        & is_valid(1, counts.upper, upper);
    valid & (party < counts.parties)
}

fn is_sized(places: usize) -> bool
    ensures { result ≡ eqb places limit }
{
    places == LIMIT as usize
}

fn is_opened(parties: u64) -> bool
    ensures { result ≡ is_opened parties }
{
    matches!(parties, 1 | 2)
}

// Where a party's places are, and how many of its records stand there.
fn share_of(counts: Counts, party: u64) -> Share
    ensures { result ≡ share_of counts party }
{
    let seam = seam_of(counts.parties);
    if party == 0 {
        Share {
            first: 0,
            places: seam,
            count: counts.lower,
        }
    } else {
        Share {
            first: seam,
            places: LIMIT - seam,
            count: counts.upper,
        }
    }
}

// The counts where so many records of a party stand.
pub fn with_count(counts: Counts, party: u64, count: u64) -> Counts
    ensures { result ≡ with_count counts party count }
{
    if party == 0 {
        Counts {
            lower: count,
            ..counts
        }
    } else {
        Counts {
            upper: count,
            ..counts
        }
    }
}

// The place before so many.
pub fn place_before(count: u64) -> u64
    ensures { result ≡ count - 1 }
{
    count.saturating_sub(1)
}

// A party's part of the slice; it shows nothing where all of the slice isn't valid, or the party isn't one of those that share it.
pub fn own_of(counts: Counts, records: &[Record], party: u64) -> Own
    ensures { Shows counts records.now party (as_own_view result) }
{
    if !is_served(counts, records, party) {
        let share = share_of(counts, party);
        return Own {
            first: share.first,
            places: share.places,
            view: None,
        };
    }
    own_served(counts, records, party)
}

// The same where that is known: nothing is tested, and one record is read.
pub fn own_served(counts: Counts, records: &[Record], party: u64) -> Own
    requires { serves (sharing counts records.now) party ≡ true }
    ensures { as_own_view result ≡ own_view (sharing counts records.now) party }
{
    let share = share_of(counts, party);
    let last = get(records, share.first + place_before(share.count));
    let view = View {
        count: share.count,
        last,
    };
    Own {
        first: share.first,
        places: share.places,
        view: Some(view),
    }
}
