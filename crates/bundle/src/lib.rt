// Itanium bundles: sixteen bytes are a tag and three slots of 41 bits. Found, loaded, cut and joined.
#![tactic(auto)]

mod half;
mod template;

ghost use Rattle.std.specs.Prelude.{◌≡◌};
ghost use Rattle.answer.specs.Answer.{accepted, first, answer_of};
ghost use Rattle.bundle.specs.Bundle.{bundle_at, find_answer, find_of, whole, loaded_of, as_loaded, cut_number, cut_of, as_cut, join_refusals, join_of, Joined};

use answer::Refusal;
pub use half::{Halves, bits_from, put, slots, write};
pub use template::{Template, template_of, unitless, units_of};

// How many bytes a code has at most.
pub const LONGEST_CODE: usize = 65536;

const WORD: u64 = 1 << 41;

// The sixteen bytes of a bundle, as that part of the code; nothing where refused.
pub fn find(code: &[u8], bundle: u64) -> &[u8]
    ensures { result.now ≡ find_of code.now bundle }
{
    match found(code, bundle) {
        Ok(()) => sixteen(code, bundle),
        Err(_) => &code[..0],
    }
}

// The sixteen bytes of a bundle that was found.
fn sixteen(code: &[u8], bundle: u64) -> &[u8]
    requires { find_answer code.now bundle ≡ accepted }
    ensures { result.now ≡ bundle_at code.now bundle }
{
    let at = bundle as usize * 16;
    &code[at..at + 16]
}

// What finding answers, as a number.
pub fn find_answer(code: &[u8], bundle: u64) -> u8
    ensures { result ≡ find_answer code.now bundle }
{
    answer::answer_of(&found(code, bundle))
}

// Whether a bundle is found.
fn found(code: &[u8], bundle: u64) -> Result<(), Refusal>
    ensures { answer_of result ≡ find_answer code.now bundle }
{
    if LONGEST_CODE < code.len() {
        return Err(Refusal::TooLong);
    }
    if (code.len() / 16) as u64 <= bundle {
        return Err(Refusal::ExhaustedInput);
    }
    Ok(())
}

// A bundle's halves.
pub fn load(code: &[u8], bundle: u64) -> Result<Halves, Refusal>
    ensures { as_loaded result ≡ loaded_of code.now bundle }
{
    found(code, bundle)?;
    Ok(half::read(sixteen(code, bundle)))
}

#[derive(Clone, Copy, PartialEq, Eq)]
pub struct Bundle {
    pub template: Template,
    pub slots: [u64; 3],
}

// Why no bundle was cut: none was found, or its tag is reserved.
#[derive(Clone, Copy, PartialEq, Eq)]
pub enum Uncut {
    Missing(Refusal),
    Reserved(u8),
}

impl From<Refusal> for Uncut {
    ghost use Rattle.std.specs.Prelude.{◌≡◌};
    ghost use Rattle.bundle.specs.declared.Uncut.TheVariants.{Missing};

    ghost from_gives = { λ refusal uncut. uncut ≡ Missing refusal };

    fn from(refusal: Refusal) -> Uncut {
        Uncut::Missing(refusal)
    }
}

// A bundle's template and slots.
pub fn cut(code: &[u8], bundle: u64) -> Result<Bundle, Uncut>
    ensures { as_cut result ≡ cut_of code.now bundle }
{
    let halves = load(code, bundle)?;
    cut_halves(halves)
}

fn cut_halves(halves: Halves) -> Result<Bundle, Uncut>
    ensures { as_cut result ≡ cut_number (whole halves) }
{
    let template = template_of(halves);
    let units = template.units;
    if unitless(units) {
        return Err(Uncut::Reserved(template.tag));
    }
    let slots = half::slots(halves);
    Ok(Bundle { template, slots })
}

// Whether a tag and slots are joined to an output of that length.
fn joinable(tag: u64, slots: [u64; 3], room: usize) -> Result<(), Refusal>
    ensures { answer_of result ≡ first (join_refusals tag slots room) }
{
    if 31 < tag || WORD <= slots[0] || WORD <= slots[1] || WORD <= slots[2] {
        return Err(Refusal::BadWord);
    }
    if unitless(template::units(tag as usize)) {
        return Err(Refusal::BadBundle);
    }
    if room < 16 {
        return Err(Refusal::NoRoom);
    }
    Ok(())
}

// Writes the bundle of a tag and three slots to the first sixteen bytes of the output.
pub fn join(tag: u64, slots: [u64; 3], out: &mut [u8]) -> Result<(), Refusal>
    ensures { ◌≡◌ {A = Joined} (record { answer = answer_of result; out = out.new }) (join_of tag slots out.old) }
{
    joinable(tag, slots, out.len())?;
    write(&mut out[..16], half::pack(tag, slots));
    Ok(())
}
