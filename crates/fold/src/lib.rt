// A party's journal folded: of each bundle that its records touch one record is left, of the whole bundle.
#![tactic(auto)]

ghost use Rattle.std.specs.Prelude.{◌≡◌, true, cond, ◌+◌, ◌≤◌, ltb, length, get_or, set, replicate, None, Some, unwrap_or};
ghost use Rattle.record.specs.Record.{highest};
ghost use Rattle.records.specs.Journal.{limit, lent, standing, journal_of, valid_of};
ghost use Rattle.records.specs.Shared.{sharing};
ghost use Rattle.journal.specs.Edit.{journal_outcome_of};
ghost use Rattle.fold.specs.Fold.{folded, fold_by};
ghost use Rattle.fold.specs.inner.Places.{kept_of, left_at};

use answer::Refusal;
use record::{NONE, Record};
use records::Counts;

// A record's bundle is one of so many.
const BUNDLES: usize = 4096;

// Folds a party's records. How many records of each party stand then; refused, all is as it was.
pub fn fold(counts: Counts, records: &mut [Record], party: u64) -> Result<Counts, Refusal>
    ensures { journal_outcome_of result counts records.new ≡ fold_by (sharing counts records.old) party }
{
    let own = records::own_of(counts, records, party);
    let Some(view) = own.view else {
        return Err(Refusal::BadJournal);
    };
    let first = own.first as usize;
    let end = (own.first + own.places) as usize;
    let left = fold_own(party, view.count, &mut records[first..end]);
    Ok(records::with_count(counts, party, left))
}

// Folds the party's valid journal that a slice is, one record after the other, the oldest first, and answers how many are left.
// A record is taken out and put to those that are left, in the place that its bundle has there; so the places between are free.
fn fold_own(party: u64, count: u64, records: &mut [Record]) -> u64
    requires { (valid_of party (length records.old) (lent count records.old) ≡ true) × (length records.old ≤ limit) }
    ensures { lent result records.new ≡ journal_of (length records.old) (folded (standing (lent count records.old))) }
{
    let mut places = [None; BUNDLES];
    let mut left = 0;
    for place in 0..count {
        let one = records::get(records, place);
        records::put(records, place, NONE);
        let at = place_in(&mut places, one.bundle, left);
        let first = left_at(records, at, left);
        let renewed = kept(first, one);
        records::put(records, at, renewed);
        left = more(left, at);
    }
    left
}

// The place of a bundle's record among those that are left, which `places` keeps; where it has none, the one after them, kept from now on.
fn place_in(places: &mut [Option<u16>; BUNDLES], bundle: u64, left: u64) -> u64
    requires { (bundle ≤ highest) × (left ≤ limit) }
    ensures { (result ≡ unwrap_or (get_or places.old bundle None) left) × (places.new ≡ set places.old bundle (Some result)) }
{
    let at = bundle as usize;
    let place = match places[at] {
        Some(place) => u64::from(place),
        None => left,
    };
    places[at] = Some(place as u16);
    place
}

// How many are left once a record is put to a place.
fn more(left: u64, at: u64) -> u64
    requires { left ≤ limit }
    ensures { result ≡ cond (ltb at left) left (left + 1) }
{
    if at < left { left } else { left + 1 }
}

// The record at a place, where it is one of so many that are left.
fn left_at(records: &[Record], at: u64, left: u64) -> Option<Record>
    ensures { result ≡ left_at records.now at left }
{
    if at < left {
        Some(records::get(records, at))
    } else {
        None
    }
}

// The record that is left of a bundle, once it has one more: the old bundle is that of the first.
fn kept(first: Option<Record>, last: Record) -> Record
    ensures { result ≡ kept_of first last }
{
    match first {
        Some(first) => record::whole_record(first.party, first.bundle, first.old, last.new),
        None => record::whole_record(last.party, last.bundle, last.old, last.new),
    }
}
