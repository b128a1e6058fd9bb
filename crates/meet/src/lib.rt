// Whether two edits set a bit in common, by the table of rows: a tool asks it before it mixes two files of edits.
#![tactic(auto)]

ghost use Rattle.std.specs.Prelude.{◌≡◌, ℕ, ◌||◌, ◌+◌, ◌≤◌, ◌<◌, T, true, IfOk};
ghost use Rattle.answer.specs.Answer.{first, answer_of};
ghost use Rattle.bits.specs.Parts.{apart, apart_from, meet_not};
ghost use Rattle.parts.specs.Placed.{stands_at, placed, in_word, readable};
ghost use Rattle.immediate.specs.Immediate.{parts_of};
ghost use Rattle.meet.specs.Meet.{bits_refusals, as_met, meet_of};

use answer::Refusal;
use form::Edit;
use parts::Part;

// Whether two edits are of one bundle and have a bit in common.
pub fn meet(one: Edit, other: Edit) -> Result<bool, Refusal>
    ensures { as_met result ≡ meet_of one other }
{
    let first = bits_of(one)?;
    let second = bits_of(other)?;
    Ok(one.bundle == other.bundle && !first.is_apart(second))
}

// Where an edit's bits stand in its bundle.
fn bits_of(edit: Edit) -> Result<Standing, Refusal>
    ensures answer { answer_of result ≡ first (bits_refusals edit) }
    ensures bits { IfOk result (λ s. placed s.slot s.parts.now ≡ parts_of edit) }
{
    let row = row::packed_of(edit.form).ok_or(Refusal::BadForm)?;
    if 2 < edit.slot {
        return Err(Refusal::BadSlot);
    }
    Ok(Standing {
        slot: edit.slot as u32,
        parts: row.parts,
    })
}

// The parts of a row in a slot.
#[derive(Clone, Copy)]
struct Standing {
    slot: u32,
    parts: &'static [Part],
    ghost in_bundle: { (slot < 3) × T (readable parts.now) },
}

impl Standing {
    // Whether no part has a bit in common with a part of another.
    fn is_apart(self, other: Standing) -> bool
        ensures { result ≡ meet_not (placed self.slot self.parts.now) (placed other.slot other.parts.now) }
    {
        for part in self.parts {
            let bits = Bits::of(self.slot, *part);
            if !other.is_apart_from(bits) {
                return false;
            }
        }
        true
    }

    // Whether none has a bit in common with some bits.
    fn is_apart_from(self, bits: Bits) -> bool
        ensures { result ≡ apart_from (bits.at, bits.width) (placed self.slot self.parts.now) }
    {
        for part in self.parts {
            if !bits.is_apart(Bits::of(self.slot, *part)) {
                return false;
            }
        }
        true
    }
}

// So many bits of a bundle from one on.
#[derive(Clone, Copy)]
struct Bits {
    at: u32,
    width: u32,
    ghost in_bundle: { at + width ≤ 128 },
}

impl Bits {
    // Those of a part of a slot.
    fn of(slot: u32, part: Part) -> Bits
        requires { (slot < 3) × T (in_word true part) }
        ensures { ◌≡◌ {A = ℕ × ℕ} (result.at, result.width) (stands_at slot part.place, part.width) }
    {
        let place = part.place;
        Bits {
            at: parts::stands_at(slot, place),
            width: u32::from(part.width),
        }
    }

    fn is_apart(self, other: Bits) -> bool
        ensures { result ≡ apart (self.at, self.width) (other.at, other.width) }
    {
        self.at + self.width <= other.at || other.at + other.width <= self.at
    }
}
