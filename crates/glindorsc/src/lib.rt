// The calls for programs in C and Rust: cut, immediate and target, on numbers and byte slices.
#![tactic(auto)]

ghost use Rattle.std.specs.Prelude.{◌≡◌, Ok};
ghost use Rattle.bundle.specs.Bundle.{as_cut};
ghost use Rattle.operand.specs.Pattern.{pattern_in};
ghost use Rattle.immediate.specs.Immediate.{as_immediate, as_target};
ghost use Rattle.glindorsc.specs.Calls.{Answered, Filled, cut_numbers, cut_call, immediate_call, target_call};

use answer::Refusal;
use bundle::{Bundle, Uncut};
use form::Form;
use operand::Operand;

// Cuts a bundle. The output becomes the tag, the three units, the three slots and, for each slot, 1 where a stop follows; where the cut is
// refused zeros, and the tag if it is reserved.
#[tactic(auto, unfolding(crate::specs::Calls::cut_call))]
#[unsafe(no_mangle)]
pub extern "C" fn glindorsc_cut(code: &[u8], bundle: u64, out: &mut [u64; 10]) -> u8
    ensures { ◌≡◌ {A = Filled} (record { answer = result; out = out.new }) (cut_call code.now bundle) }
{
    let cut = bundle::cut(code, bundle);
    *out = numbers(cut);
    cut_answer(cut)
}

fn cut_answer(cut: Result<Bundle, Uncut>) -> u8
    ensures { result ≡ (as_cut cut).answer }
{
    match cut {
        Ok(_) => 0,
        Err(Uncut::Missing(refusal)) => refusal.number(),
        Err(Uncut::Reserved(_)) => Refusal::BadBundle.number(),
    }
}

fn numbers(cut: Result<Bundle, Uncut>) -> [u64; 10]
    ensures { result ≡ cut_numbers (as_cut cut) }
{
    match cut {
        Ok(bundle) => bundle_numbers(bundle),
        Err(Uncut::Missing(_)) => [0; 10],
        Err(Uncut::Reserved(tag)) => [u64::from(tag), 0, 0, 0, 0, 0, 0, 0, 0, 0],
    }
}

fn bundle_numbers(bundle: Bundle) -> [u64; 10]
    ensures { result ≡ cut_numbers (as_cut (Ok bundle)) }
{
    let units = bundle.template.units;
    let slots = bundle.slots;
    let stops = bundle.template.stops;
    [
        u64::from(bundle.template.tag),
        u64::from(units[0]),
        u64::from(units[1]),
        u64::from(units[2]),
        slots[0],
        slots[1],
        slots[2],
        u64::from(stops[0]),
        u64::from(stops[1]),
        u64::from(stops[2]),
    ]
}

// Reads the immediate of a form in a slot, as its 64-bit pattern.
#[tactic(auto, unfolding(crate::specs::Calls::immediate_call))]
#[unsafe(no_mangle)]
pub extern "C" fn glindorsc_immediate(
    code: &[u8],
    bundle: u64,
    slot: u64,
    family: u64,
    number: u64,
    value: &mut u64,
) -> u8
    ensures { ◌≡◌ {A = Answered} (record { answer = result; number = value.new }) (immediate_call code.now bundle slot (record { family = family; number = number })) }
{
    let read = immediate::immediate(code, bundle, slot, Form { family, number });
    *value = pattern(read);
    answer::answer_of(&read)
}

fn pattern(read: Result<Operand, Refusal>) -> u64
    ensures { result ≡ pattern_in (as_immediate read).value }
{
    operand::pattern_in(read.unwrap_or(Operand::None))
}

// The target of a form in a slot of the bundle at an address.
#[tactic(auto, unfolding(crate::specs::Calls::target_call))]
#[unsafe(no_mangle)]
pub extern "C" fn glindorsc_target(
    code: &[u8],
    bundle: u64,
    slot: u64,
    family: u64,
    number: u64,
    address: u64,
    target: &mut u64,
) -> u8
    ensures { ◌≡◌ {A = Answered} (record { answer = result; number = target.new }) (target_call code.now bundle slot (record { family = family; number = number }) address) }
{
    let reached = immediate::target(code, bundle, slot, Form { family, number }, address);
    *target = address_of(reached);
    answer::answer_of(&reached)
}

fn address_of(reached: Result<u64, Refusal>) -> u64
    ensures { result ≡ (as_target reached).address }
{
    reached.unwrap_or(0)
}
