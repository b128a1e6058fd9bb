// A number that stands in several parts of a slot: gathered from the bundle, and scattered into it.
#![tactic(auto)]

ghost use Rattle.std.specs.Prelude.{◌≡◌, ◌<◌};
ghost use Rattle.bits.specs.Parts.{gather, scatter};
ghost use Rattle.bundle.specs.Bundle.{whole};
ghost use Rattle.parts.specs.Placed.{stands_at, placed};
ghost use Rattle.parts.specs.inner.Standing.{Standing};

use bundle::Halves;

// The place counts from bit 0 of the slot, and from `L` on from bit 0 of the L slot.
#[derive(Clone, Copy)]
pub struct Part {
    pub place: u8,
    pub width: u8,
}

pub const L: u8 = 64;

// Where a part of a slot stands in the bundle.
pub fn stands_at(slot: u32, place: u8) -> u32
    requires { slot < 3 }
    ensures { result ≡ stands_at slot place }
{
    let bit = u32::from(place);
    if place < L {
        5 + 41 * slot + bit
    } else {
        46 + (bit - u32::from(L))
    }
}

// The number that stands in the parts of a slot, lowest first.
pub fn gather(parts: &[Part], halves: Halves, slot: u32) -> u64
    requires { Standing slot parts.now }
    ensures { result ≡ gather (whole halves) (placed slot parts.now) }
{
    let mut raw = 0;
    let mut below = 0;
    for part in parts {
        let width = u32::from(part.width);
        if width == 0 {
            return raw;
        }
        let bits = bundle::bits_from(halves, stands_at(slot, part.place));
        raw += bits::get(bits, 0, width) << below;
        below += width;
    }
    raw
}

// The bundle with a number in them.
pub fn scatter(parts: &[Part], halves: Halves, slot: u32, raw: u64) -> Halves
    requires { Standing slot parts.now }
    ensures { whole result ≡ scatter (whole halves) (placed slot parts.now) raw }
{
    let mut bundle = halves;
    let mut rest = raw;
    for part in parts {
        let width = u32::from(part.width);
        if width == 0 {
            return bundle;
        }
        bundle = bundle::put(bundle, stands_at(slot, part.place), width, rest);
        rest >>= width;
    }
    bundle
}
