// A field of a word, and an immediate with a sign.
#![tactic(auto)]

ghost use Rattle.std.specs.Prelude.{◌≡◌, ◌+◌, ◌-◌, ◌<◌, ◌≤◌};
ghost use Rattle.bits.specs.Part.{part};
ghost use Rattle.reading.specs.Line.{difference};
ghost use Rattle.reading.specs.inner.Small.{Small};

use operand::Operand;
use std::ops::Range;

// 000's `word[6..13]`, which are bits 6 to 12.
pub fn field(word: u64, bits: Range<u32>) -> u64
    requires { (bits.start ≤ bits.end) × (bits.end < 64) }
    ensures { result ≡ part word bits.start (bits.end - bits.start) }
{
    (word >> bits.start) % (1 << (bits.end - bits.start))
}

// The same, of at most eight bits.
pub fn field_u8(word: u64, bits: Range<u32>) -> u8
    requires { (bits.start ≤ bits.end) × (bits.end ≤ bits.start + 8) × (bits.end < 64) }
    ensures { result ≡ part word bits.start (bits.end - bits.start) }
{
    field(word, bits) as u8
}

// An immediate with a sign: the number of the bits below the sign, and what the sign counts, which is taken from it.
#[derive(Clone, Copy)]
pub struct Difference(pub u64, pub u64);

impl Difference {
    pub fn operand(self) -> Operand
        requires { Small self }
        ensures { result ≡ difference self }
    {
        Operand::ImmI64(self.0 as i64 - self.1 as i64)
    }
}
