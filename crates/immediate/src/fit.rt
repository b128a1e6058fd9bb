// The row of a form that stands in a slot of a bundle: what every call on an immediate refuses first.
ghost use Rattle.std.specs.Prelude.{◌≡◌, Some, IfOk};
ghost use Rattle.std.specs.Option.{option_copied};
ghost use Rattle.answer.specs.Answer.{first, answer_of};
ghost use Rattle.bundle.specs.Bundle.{whole};
ghost use Rattle.row.specs.Row.{Row};
ghost use Rattle.row.specs.inner.Packed.{Packs};
ghost use Rattle.immediate.specs.Immediate.{read_refusals, row_refusals, slot_refusals};
ghost use Rattle.immediate.specs.Immediate.{fits};

use answer::Refusal;
use bundle::Halves;
use form::{A, Form};
use row::Packed;

// The row that can be read in a slot: refused by 2, 3, then 5.
pub fn row_at(
    bundle: Halves,
    slot: u64,
    form: Form,
    packed: Option<&Packed>,
) -> Result<&Packed, Refusal>
    ensures answer { (row : Row) → Packs (option_copied packed.entry) row → answer_of result ≡ first (read_refusals (whole bundle) slot form row) }
    ensures same { IfOk result (λ p. option_copied packed.entry ≡ Some p.now) }
{
    let units = bundle::units_of(bundle);
    let row = row_of(units, packed)?;
    slot_of(units, slot, form)?;
    Ok(row)
}

pub fn row_of(units: [u8; 3], packed: Option<&Packed>) -> Result<&Packed, Refusal>
    ensures answer { (row : Row) → Packs (option_copied packed.entry) row → answer_of result ≡ first (row_refusals units row) }
    ensures same { IfOk result (λ p. option_copied packed.entry ≡ Some p.now) }
{
    if bundle::unitless(units) {
        return Err(Refusal::BadBundle);
    }
    packed.ok_or(Refusal::BadForm)
}

// Whether a form stands in a slot of them.
fn slot_of(units: [u8; 3], slot: u64, form: Form) -> Result<(), Refusal>
    ensures { answer_of result ≡ first (slot_refusals units slot form) }
{
    if slot < 3 && fits(form, units[slot as usize]) {
        Ok(())
    } else {
        Err(Refusal::BadSlot)
    }
}

// A form fits a slot of its family's unit; an A form one of I or M.
fn fits(form: Form, unit: u8) -> bool
    ensures { result ≡ fits form unit }
{
    if form.family == A {
        unit == b'I' || unit == b'M'
    } else {
        form.family == u64::from(unit)
    }
}
