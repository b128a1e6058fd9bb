// The immediates of a bundle's forms, read and changed by the manual, and the targets that they make.
#![tactic(auto)]

mod fit;

ghost use Rattle.std.specs.Prelude.{◌≡◌, ℕ};
ghost use Rattle.answer.specs.Answer.{first, answer_of};
ghost use Rattle.bundle.specs.Bundle.{units_in, whole};
ghost use Rattle.operand.specs.Pattern.{pattern_of};
ghost use Rattle.meaning.specs.Meaning.{operand_for};
ghost use Rattle.row.specs.Row.{row_of};
ghost use Rattle.row.specs.inner.Packed.{unpacked};
ghost use Rattle.immediate.specs.Immediate.{row_refusals, read_refusals, value_in, as_immediate, immediate_in, immediate_of, as_changed, changed_of, edit_by_pattern, displacement_in, as_target, target_in, target_of};
ghost use Rattle.immediate.specs.inner.Sound.{SoundIn, TargetIn, written_in};

use answer::Refusal;
use bundle::Halves;
use form::{Edit, Form};
use operand::Operand;
use row::Packed;

// Whether a bundle has units and a form a row: 2, then 3.
pub fn row_answer(bundle: Halves, form: Form) -> Result<(), Refusal>
    ensures { answer_of result ≡ first (row_refusals (units_in (whole bundle)) (row_of form)) }
{
    fit::row_of(bundle::units_of(bundle), row::packed_of(form))?;
    Ok(())
}

// Whether a form's immediate can be read in a slot of a bundle: that, then 5.
pub fn read_answer(bundle: Halves, slot: u64, form: Form) -> Result<(), Refusal>
    ensures { answer_of result ≡ first (read_refusals (whole bundle) slot form (row_of form)) }
{
    fit::row_at(bundle, slot, form, row::packed_of(form))?;
    Ok(())
}

// The immediate of a form in a slot of a code's bundle.
pub fn immediate(code: &[u8], bundle: u64, slot: u64, form: Form) -> Result<Operand, Refusal>
    ensures { as_immediate result ≡ immediate_of code.now bundle slot form }
{
    let halves = bundle::load(code, bundle)?;
    immediate_in(halves, slot, form)
}

// The immediate of a form in a slot of a bundle.
pub fn immediate_in(bundle: Halves, slot: u64, form: Form) -> Result<Operand, Refusal>
    ensures { as_immediate result ≡ immediate_in (whole bundle) slot form }
{
    let row = fit::row_at(bundle, slot, form, row::packed_of(form))?;
    Ok(value_in(row, slot as u32, bundle))
}

// What a row reads in a slot of a bundle.
fn value_in(row: &Packed, slot: u32, bundle: Halves) -> Operand
    requires { SoundIn slot row.now }
    ensures { result ≡ value_in (unpacked row.now) slot (whole bundle) }
{
    let raw = parts::gather(row.parts, bundle, slot);
    meaning::value_of(row.meaning, row.width, raw)
}

// The bundle with an edit's value in its immediate.
pub fn change(bundle: Halves, edit: Edit) -> Result<Halves, Refusal>
    ensures { as_changed result ≡ changed_of (whole bundle) edit }
{
    let row = fit::row_at(bundle, edit.slot, edit.form, row::packed_of(edit.form))?;
    let pattern = meaning::take_out(row.meaning, edit.value)?;
    with_value(row, edit.slot as u32, bundle, pattern)
}

// The same for an edit whose value is told by its 64-bit pattern; its bundle can have any number.
pub fn change_by_pattern(
    bundle: Halves,
    slot: u64,
    form: Form,
    pattern: u64,
) -> Result<Halves, Refusal>
    ensures { (k : ℕ) → as_changed result ≡ changed_of (whole bundle) (edit_by_pattern k slot form pattern) }
{
    let row = fit::row_at(bundle, slot, form, row::packed_of(form))?;
    with_value(row, slot as u32, bundle, pattern)
}

// The bundle with the value of a pattern in a row's parts in a slot.
fn with_value(row: &Packed, slot: u32, bundle: Halves, pattern: u64) -> Result<Halves, Refusal>
    requires { SoundIn slot row.now }
    ensures { as_changed result ≡ written_in (unpacked row.now) slot (whole bundle) (operand_for row.now.meaning pattern) }
{
    let raw = meaning::raw_of(row.meaning, row.width, pattern)?;
    Ok(parts::scatter(row.parts, bundle, slot, raw))
}

// The target of a form in a slot of a code's bundle, which stands at an address.
pub fn target(code: &[u8], bundle: u64, slot: u64, form: Form, address: u64) -> Result<u64, Refusal>
    ensures { as_target result ≡ target_of code.now bundle slot form address }
{
    let halves = bundle::load(code, bundle)?;
    target_in(halves, slot, form, address)
}

// The target of a form in a slot of a bundle, which stands at an address.
fn target_in(bundle: Halves, slot: u64, form: Form, address: u64) -> Result<u64, Refusal>
    ensures { as_target result ≡ target_in (whole bundle) slot form address }
{
    let row = fit::row_at(bundle, slot, form, row::packed_target_of(form))?;
    if address % 16 != 0 {
        return Err(Refusal::BadValue);
    }
    Ok(address.wrapping_add(displacement_in(row, slot as u32, bundle)))
}

// The pattern of the displacement that a row reads in a slot of a bundle.
fn displacement_in(row: &Packed, slot: u32, bundle: Halves) -> u64
    requires { TargetIn slot row.now }
    ensures { result ≡ pattern_of (displacement_in (unpacked row.now) slot (whole bundle)) }
{
    let raw = parts::gather(row.parts, bundle, slot);
    meaning::displacement(16, row.width, raw)
}
