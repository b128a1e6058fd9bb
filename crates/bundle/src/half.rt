// A bundle's sixteen bytes as two 64-bit halves: read, written, taken apart and put together. What lies across the seam at
// bit 64 is known here alone.
ghost use Rattle.std.specs.Prelude.{◌≡◌, ◌+◌, ◌≤◌, ◌<◌, ◌^◌, length, get_or};
ghost use Rattle.bits.specs.Part.{part};
ghost use Rattle.bits.specs.Part.{put};
ghost use Rattle.bundle.specs.Bytes.{number, bytes};
ghost use Rattle.bundle.specs.Bundle.{whole, halves_of, slots_of, joined};

#[repr(C)]
#[derive(Clone, Copy, PartialEq, Eq)]
pub struct Halves {
    pub low: u64,
    pub high: u64,
}

// The halves of sixteen bytes.
pub fn read(bundle: &[u8]) -> Halves
    requires { length bundle.now ≡ 16 }
    ensures { result ≡ halves_of (number bundle.now) }
{
    let low = load_half(&bundle[..8]);
    let high = load_half(&bundle[8..]);
    Halves { low, high }
}

fn wide(byte: u8) -> u64
    ensures { (result ≡ byte) × (result < 256) }
{
    byte as u64
}

fn load_half(half: &[u8]) -> u64
    requires { length half.now ≡ 8 }
    ensures { result ≡ number half.now }
{
    wide(half[0])
        + (wide(half[1]) << 8)
        + (wide(half[2]) << 16)
        + (wide(half[3]) << 24)
        + (wide(half[4]) << 32)
        + (wide(half[5]) << 40)
        + (wide(half[6]) << 48)
        + (wide(half[7]) << 56)
}

fn store_half(half: &mut [u8], word: u64)
    requires { length half.old ≡ 8 }
    ensures { half.new ≡ bytes 8 word }
{
    half[0] = (word % 256) as u8;
    half[1] = ((word >> 8) % 256) as u8;
    half[2] = ((word >> 16) % 256) as u8;
    half[3] = ((word >> 24) % 256) as u8;
    half[4] = ((word >> 32) % 256) as u8;
    half[5] = ((word >> 40) % 256) as u8;
    half[6] = ((word >> 48) % 256) as u8;
    half[7] = ((word >> 56) % 256) as u8;
}

// Writes the halves into sixteen bytes.
pub fn write(bundle: &mut [u8], halves: Halves)
    requires { length bundle.old ≡ 16 }
    ensures { bundle.new ≡ bytes 16 (whole halves) }
{
    store_half(&mut bundle[..8], halves.low);
    store_half(&mut bundle[8..], halves.high);
}

// The three slots, as the manual draws them. From bit 0 on the low half has 5 bits of tag, 41 of slot 0 and 18 of slot 1, and the high
// half has 23 bits of slot 1 and 41 of slot 2.
pub fn slots(halves: Halves) -> [u64; 3]
    ensures { result ≡ slots_of (whole halves) }
{
    let low = halves.low;
    let high = halves.high;
    let slot0 = (low >> 5) % (1 << 41);
    let slot1_low = (low >> (5 + 41)) % (1 << 18);
    let slot1_high = high % (1 << 23);
    let slot2 = (high >> 23) % (1 << 41);
    [slot0, slot1_low + (slot1_high << 18), slot2]
}

// The halves of a tag and three slots.
pub fn pack(tag: u64, slots: [u64; 3]) -> Halves
    requires { (tag < 2 ^ 5) × (get_or slots 0 0 < 2 ^ 41) × (get_or slots 1 0 < 2 ^ 41) × (get_or slots 2 0 < 2 ^ 41) }
    ensures { result ≡ halves_of (joined tag slots) }
{
    let slot1_low = slots[1] % (1 << 18);
    let slot1_high = slots[1] >> 18;
    Halves {
        low: tag + (slots[0] << 5) + (slot1_low << (5 + 41)),
        high: slot1_high + (slots[2] << 23),
    }
}

// The 64 bits of a bundle from a place on, across the seam where they lie there.
pub fn bits_from(halves: Halves, place: u32) -> u64
    requires { (0 < place) × (place < 128) }
    ensures { result ≡ part (whole halves) place 64 }
{
    if 64 <= place {
        halves.high >> (place - 64)
    } else {
        (halves.low >> place) + (halves.high << (64 - place))
    }
}

// The bundle with a value in a part of it.
pub fn put(halves: Halves, place: u32, width: u32, value: u64) -> Halves
    requires { (place < 128) × (width < 64) × (place + width ≤ 128) }
    ensures { whole result ≡ put (whole halves) place width value }
{
    let low = halves.low;
    let high = halves.high;
    if 64 <= place {
        let put = bits::put(high, place - 64, width, value);
        return Halves { low, high: put };
    }
    if place + width <= 64 {
        let put = bits::put(low, place, width, value);
        return Halves { low: put, high };
    }
    let below = 64 - place;
    let first = bits::put(low, place, below, value);
    let second = bits::put(high, 0, width - below, value >> below);
    Halves {
        low: first,
        high: second,
    }
}
