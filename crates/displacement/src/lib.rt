// The value that makes an address the target of a form: what `target` undoes.
#![tactic(auto)]

ghost use Rattle.std.specs.Prelude.{◌≡◌};
ghost use Rattle.displacement.specs.Displacement.{as_displacement, displacement_of};

use answer::Refusal;
use form::Form;
use operand::Operand;

// The value that makes `wanted` the target of a form in the bundle at an address.
#[tactic(auto, unfolding(crate::specs::Displacement::displacement_of))]
pub fn displacement(form: Form, address: u64, wanted: u64) -> Result<Operand, Refusal>
    ensures { as_displacement result ≡ displacement_of form address wanted }
{
    let row = row::packed_target_of(form).ok_or(Refusal::BadForm)?;
    if address % 16 != 0 {
        return Err(Refusal::BadValue);
    }
    let distance = wanted.wrapping_sub(address);
    meaning::raw_of(row.meaning, row.width, distance)?;
    Ok(Operand::ImmI64(distance.cast_signed()))
}
