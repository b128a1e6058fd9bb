// Records of edits: what was done to a bundle, and the bundle before and after.
#![tactic(auto)]

ghost use Rattle.std.specs.Prelude.{◌≡◌};
ghost use Rattle.record.specs.Record.{whole_record, is_whole, is_free, may_stand};
ghost use Rattle.record.specs.Record.{passes};

use bundle::Halves;
use form::{Form, NO_FORM};

// The highest number of a bundle.
const HIGHEST: u64 = 4095;

// The slot, form and value are those of the party's edit, the value by its 64-bit pattern; a record of a whole bundle has slot 0,
// no form and value 0.
#[repr(C)]
#[derive(Clone, Copy, PartialEq, Eq)]
pub struct Record {
    pub party: u64,
    pub bundle: u64,
    pub slot: u64,
    pub form: Form,
    pub value: u64,
    pub old: Halves,
    pub new: Halves,
}

const ZERO: Halves = Halves { low: 0, high: 0 };

// What a free place holds.
pub const NONE: Record = Record {
    party: 0,
    bundle: 0,
    slot: 0,
    form: NO_FORM,
    value: 0,
    old: ZERO,
    new: ZERO,
};

pub fn whole_record(party: u64, bundle: u64, old: Halves, new: Halves) -> Record
    ensures { result ≡ whole_record party bundle old new }
{
    Record {
        party,
        bundle,
        slot: 0,
        form: NO_FORM,
        value: 0,
        old,
        new,
    }
}

// No branch on each number: a processor can't foresee which of them is 0.
fn is_whole(one: Record) -> bool
    ensures { result ≡ is_whole one }
{
    (one.slot == 0) & (one.form == NO_FORM) & (one.value == 0)
}

// Each number by itself and without a short cut: by the derived equality, which has branches, a free place takes 1.7 times as long, and each call
// asks it of every place past the count.
pub fn is_free(place: Record) -> bool
    ensures { result ≡ is_free place }
{
    let old = place.old;
    let new = place.new;
    let form = place.form;
    (place.party == 0)
        & (place.bundle == 0)
        & (place.slot == 0)
        & ((form.family == 0) & (form.number == 0))
        & (place.value == 0)
        & ((old.low == 0) & (old.high == 0))
        & ((new.low == 0) & (new.high == 0))
}

// Whether a record is one of a whole bundle, or its edit makes its new bundle of its old one.
#[tactic(auto, unfolding(crate::specs::Record::passes))]
fn passes(one: Record) -> bool
    ensures { result ≡ passes one }
{
    is_whole(one)
        || immediate::change_by_pattern(one.old, one.slot, one.form, one.value) == Ok(one.new)
}

pub fn may_stand(party: u64, one: Record) -> bool
    ensures { result ≡ may_stand party one }
{
    (one.bundle <= HIGHEST) & (passes(one) & (one.party == party))
}
