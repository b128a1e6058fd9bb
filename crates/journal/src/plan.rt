// What an act decides, on values alone: nothing is written here.
ghost use Rattle.std.specs.Prelude.{◌≡◌, ◌<◌, IfOk, Some};
ghost use Rattle.answer.specs.Answer.{first, answer_of};
ghost use Rattle.records.specs.inner.Shows.{as_shown, as_own_view};
ghost use Rattle.journal.specs.Change.{room_refusals};
ghost use Rattle.journal.specs.Edit.{code_refusals, checked_refusals, undo_refusals};
ghost use Rattle.journal.specs.inner.Plan.{as_planned, new_refusals, look_refusals, field_refusals, edit_answer, edit_plan_of, undo_plan_of, plan_of};

use crate::Act;
use answer::Refusal;
use bundle::Halves;
use form::Edit;
use record::{NONE, Record};
use records::{Own, View};

// The bundle to write, the record to keep and its place, and how many records stand then.
#[derive(Clone, Copy)]
pub struct Plan {
    pub bundle: u64,
    pub halves: Halves,
    pub place: u64,
    pub kept: Record,
    pub count: u64,
}

// A party's act, by the code and what the party's journal shows.
pub fn plan_of(code: &[u8], party: u64, own: Own, act: Act) -> Result<Plan, Refusal>
    ensures { as_planned result ≡ plan_of party code.now (as_own_view own) act }
{
    match act {
        Act::Edit(edit) => new_plan(code, party, own, edit),
        Act::Checked(edit) => checked_plan(code, party, own, edit),
        Act::Undo => undo_plan(code, own.view),
    }
}

// A new edit is a question after its form, and then the edit.
fn new_plan(code: &[u8], party: u64, own: Own, edit: Edit) -> Result<Plan, Refusal>
    ensures { as_planned result ≡ edit_plan_of party code.now (as_shown own.view) edit (edit_answer own.places (as_shown own.view) (code_refusals code.now edit)) }
{
    new_allowed(code, edit)?;
    edit_plan(code, party, own, edit)
}

// A checked one is that question, a look at the word, and then the edit.
fn checked_plan(code: &[u8], party: u64, own: Own, edit: Edit) -> Result<Plan, Refusal>
    ensures { as_planned result ≡ edit_plan_of party code.now (as_shown own.view) edit (edit_answer own.places (as_shown own.view) (checked_refusals code.now edit)) }
{
    new_allowed(code, edit)?;
    word_allowed(code, edit)?;
    edit_plan(code, party, own, edit)
}

// Whether a new edit of a form is taken in a bundle, whatever the slot.
fn new_allowed(code: &[u8], edit: Edit) -> Result<(), Refusal>
    ensures { answer_of result ≡ first (new_refusals code.now edit) }
{
    let halves = bundle::load(code, edit.bundle)?;
    immediate::row_answer(halves, edit.form)?;
    if retired::is_retired(edit.form) {
        return Err(Refusal::Retired);
    }
    Ok(())
}

// Whether an edit's number can be read where it is to stand, and the word there has its form.
fn word_allowed(code: &[u8], edit: Edit) -> Result<(), Refusal>
    ensures { answer_of result ≡ first (look_refusals code.now edit) }
{
    let halves = bundle::load(code, edit.bundle)?;
    immediate::read_answer(halves, edit.slot, edit.form)?;
    if !choice::has_form(halves, edit.slot, edit.form) {
        return Err(Refusal::BadOpcode);
    }
    Ok(())
}

// A party's edit keeps its record at the first free one of the party's places.
fn edit_plan(code: &[u8], party: u64, own: Own, edit: Edit) -> Result<Plan, Refusal>
    ensures { as_planned result ≡ edit_plan_of party code.now (as_shown own.view) edit (edit_answer own.places (as_shown own.view) (field_refusals code.now edit)) }
{
    let bundle = edit.bundle;
    let old = bundle::load(code, bundle)?;
    let new = immediate::change(old, edit)?;
    let count = free_place(own)?;
    let form = edit.form;
    let value = edit.value;
    Ok(Plan {
        bundle,
        halves: new,
        place: count,
        kept: Record {
            party,
            bundle,
            slot: edit.slot,
            form,
            value: operand::pattern_in(value),
            old,
            new,
        },
        count: count + 1,
    })
}

// The first free place of a party's valid journal, which is past those that stand.
fn free_place(own: Own) -> Result<u64, Refusal>
    ensures answer { answer_of result ≡ first (room_refusals own.places (as_shown own.view) 1) }
    ensures place { IfOk result (λ place. (place ≡ (as_shown own.view).count) × (place < own.places)) }
{
    let Some(view) = own.view else {
        return Err(Refusal::BadJournal);
    };
    if own.places <= view.count {
        return Err(Refusal::Full);
    }
    Ok(view.count)
}

// An undo frees the last record's place.
fn undo_plan(code: &[u8], view: Option<View>) -> Result<Plan, Refusal>
    ensures { as_planned result ≡ undo_plan_of code.now (as_shown view) }
{
    let view = undoable(code, view)?;
    let last = view.last;
    let place = view.count - 1;
    Ok(Plan {
        bundle: last.bundle,
        halves: last.old,
        place,
        kept: NONE, // the place is free again
        count: place,
    })
}

// What the journal shows, where its last record can be undone.
fn undoable(code: &[u8], view: Option<View>) -> Result<View, Refusal>
    ensures answer { answer_of result ≡ first (undo_refusals code.now (as_shown view)) }
    ensures shown { IfOk result (λ shown. (view ≡ Some shown) × (0 < shown.count)) }
{
    if bundle::LONGEST_CODE < code.len() {
        return Err(Refusal::TooLong);
    }
    let Some(view) = view else {
        return Err(Refusal::BadJournal);
    };
    if view.count == 0 {
        return Err(Refusal::Empty);
    }
    let last = view.last;
    let present = bundle::load(code, last.bundle)?;
    if present != last.new {
        return Err(Refusal::Stale);
    }
    Ok(view)
}
