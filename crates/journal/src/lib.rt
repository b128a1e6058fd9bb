// Edits of one immediate each, the journals of those that stand, a party's each, and undoing a party's last.
#![tactic(auto)]

mod plan;

ghost use Rattle.std.specs.Prelude.{◌≡◌, true, Ok};
ghost use Rattle.answer.specs.Answer.{accepted};
ghost use Rattle.bundle.specs.Bundle.{find_answer, whole};
ghost use Rattle.records.specs.Shared.{sharing, served_of};
ghost use Rattle.records.specs.inner.Shows.{as_shown, as_own_view, ShowsPart};
ghost use Rattle.journal.specs.Change.{rewritten};
ghost use Rattle.journal.specs.Edit.{outcome_of, by_party, edit_by, checked_by, undo_by, act_by};
ghost use Rattle.journal.specs.inner.Acted.{acted_of, StillShows};
ghost use Rattle.journal.specs.inner.Plan.{carried_out};

use answer::Refusal;
use bundle::Halves;
use form::Edit;
use plan::Plan;
use record::Record;
use records::{Counts, Own};

// How many records of each party stand after an act, and what the party's journal shows then.
#[derive(Clone, Copy)]
pub struct Acted {
    pub counts: Counts,
    pub own: Own,
}

// What a party can do.
#[derive(Clone, Copy)]
pub enum Act {
    Edit(Edit),
    Checked(Edit),
    Undo,
}

// Makes a party's edit, and records its bundle before and after. How many records of each party stand then; refused, all is as it was.
// Counts, records and party come one by one: the records are a slice that the caller lends, the counts a value that each call hands back anew.
pub fn edit(
    code: &mut [u8],
    counts: Counts,
    records: &mut [Record],
    party: u64,
    edit: Edit,
) -> Result<Counts, Refusal>
    ensures { outcome_of result counts records.new code.new ≡ edit_by code.old (sharing counts records.old) party edit }
{
    perform(code, counts, records, party, Act::Edit(edit))
}

// The same, where the word in the slot has the edit's form.
pub fn checked_edit(
    code: &mut [u8],
    counts: Counts,
    records: &mut [Record],
    party: u64,
    edit: Edit,
) -> Result<Counts, Refusal>
    ensures { outcome_of result counts records.new code.new ≡ checked_by code.old (sharing counts records.old) party edit }
{
    perform(code, counts, records, party, Act::Checked(edit))
}

// Writes the old bundle of a party's last record, and frees its place.
pub fn undo(
    code: &mut [u8],
    counts: Counts,
    records: &mut [Record],
    party: u64,
) -> Result<Counts, Refusal>
    ensures { outcome_of result counts records.new code.new ≡ undo_by code.old (sharing counts records.old) party }
{
    perform(code, counts, records, party, Act::Undo)
}

// Does a party's act.
pub fn perform(
    code: &mut [u8],
    counts: Counts,
    records: &mut [Record],
    party: u64,
    act: Act,
) -> Result<Counts, Refusal>
    ensures { outcome_of result counts records.new code.new ≡ act_by code.old (sharing counts records.old) party act }
{
    let own = records::own_of(counts, records, party);
    let acted = act_on(code, counts, records, party, own, act)?;
    Ok(acted.counts)
}

// Does a party's act by what its journal shows, and tells what it shows then, so that who does many looks at all records once: the act is
// planned on values, and the plan carried out.
pub fn act_on(
    code: &mut [u8],
    counts: Counts,
    records: &mut [Record],
    party: u64,
    own: Own,
    act: Act,
) -> Result<Acted, Refusal>
    requires { ShowsPart counts records.old party (as_own_view own) }
    ensures { (acted_of result counts records.new code.new ≡ act_by code.old (sharing counts records.old) party act) × StillShows result counts own records.new party }
{
    let plan = plan::plan_of(code, party, own, act)?;
    let counts = carry_out(code, counts, records, party, own, plan);
    let own = records::own_served(counts, records, party);
    Ok(Acted { counts, own })
}

// Writes a plan's bundle and keeps its record in the party's part of the slice. How many records of each party stand then.
fn carry_out(
    code: &mut [u8],
    counts: Counts,
    records: &mut [Record],
    party: u64,
    own: Own,
    plan: Plan,
) -> Counts
    requires { ShowsPart counts records.old party (as_own_view own) × ((as_shown own.view).valid ≡ true) × (find_answer code.old plan.bundle ≡ accepted) }
    ensures { outcome_of (Ok result) counts records.new code.new ≡ by_party (sharing counts records.old) party (carried_out code.old (served_of (sharing counts records.old) party) (Ok plan)) }
{
    let first = own.first as usize;
    let end = (own.first + own.places) as usize;
    let kept = plan.kept;
    records::put(&mut records[first..end], plan.place, kept);
    let halves = plan.halves;
    rewrite(code, plan.bundle, halves);
    records::with_count(counts, party, plan.count)
}

// Lends a bundle's sixteen bytes on to be written.
fn rewrite(code: &mut [u8], bundle: u64, halves: Halves)
    requires { find_answer code.old bundle ≡ accepted }
    ensures { code.new ≡ rewritten code.old bundle (whole halves) }
{
    let at = bundle as usize * 16;
    bundle::write(&mut code[at..at + 16], halves);
}
