// A part of a word, `width` bits from bit `place` on: read and replaced.
#![tactic(auto)]

ghost use Rattle.std.specs.Prelude.{◌≡◌, ◌+◌, ◌≤◌, ◌<◌};
ghost use Rattle.bits.specs.Part.{part};
ghost use Rattle.bits.specs.Part.{put};

pub fn get(word: u64, place: u32, width: u32) -> u64
    requires { (place < 64) × (width < 64) }
    ensures { result ≡ part word place width }
{
    (word >> place) % (1 << width)
}

pub fn put(word: u64, place: u32, width: u32, value: u64) -> u64
    requires { (place < 64) × (width < 64) × (place + width ≤ 64) }
    ensures { result ≡ put word place width value }
{
    word - (get(word, place, width) << place) + (get(value, 0, width) << place)
}
