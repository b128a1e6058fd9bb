// A bundle's template, by its tag: the units of its slots, as letters, and after which of them a stop stands; zeros and no stops for a
// reserved tag.
ghost use Rattle.std.specs.Prelude.{◌≡◌, ◌<◌};
ghost use Rattle.bundle.specs.Bundle.{tag_of, whole};
ghost use Rattle.bundle.specs.Template.{units_of, stops_of, template_of};
ghost use Rattle.bundle.specs.Template.{unitless};

use crate::half::Halves;

#[derive(Clone, Copy, PartialEq, Eq)]
pub struct Template {
    pub tag: u8,
    pub units: [u8; 3],
    pub stops: [bool; 3],
}

// The tags with a stop after slot 0, 1 and 2, a bit each: bit 10 is tag 10's.
const AFTER_0: u64 = (1 << 10) + (1 << 11);

const AFTER_1: u64 = (1 << 2) + (1 << 3);

const AFTER_2: u64 = 0b0010_0010_1000_1010_1010_1010_0010_1010;

// The template of a bundle.
pub fn template_of(halves: Halves) -> Template
    ensures { result ≡ template_of (tag_of (whole halves)) }
{
    let tag = halves.low % 32;
    let units = units(tag as usize);
    let stops = stops(tag as usize);
    Template {
        tag: tag as u8,
        units,
        stops,
    }
}

// Its units alone.
pub fn units_of(halves: Halves) -> [u8; 3]
    ensures { result ≡ units_of (tag_of (whole halves)) }
{
    units((halves.low % 32) as usize)
}

pub fn units(tag: usize) -> [u8; 3]
    requires { tag < 32 }
    ensures { result ≡ units_of tag }
{
    match tag / 2 {
        0 => [b'M', b'I', b'I'],
        1 => [b'M', b'I', b'I'],
        2 => [b'M', b'L', b'X'],
        4 => [b'M', b'M', b'I'],
        5 => [b'M', b'M', b'I'],
        6 => [b'M', b'F', b'I'],
        7 => [b'M', b'M', b'F'],
        8 => [b'M', b'I', b'B'],
        9 => [b'M', b'B', b'B'],
        11 => [b'B', b'B', b'B'],
        12 => [b'M', b'M', b'B'],
        14 => [b'M', b'F', b'B'],
        _ => [0; 3],
    }
}

fn stops(tag: usize) -> [bool; 3]
    requires { tag < 32 }
    ensures { result ≡ stops_of tag }
{
    [
        (AFTER_0 >> tag) % 2 == 1,
        (AFTER_1 >> tag) % 2 == 1,
        (AFTER_2 >> tag) % 2 == 1,
    ]
}

// Whether units are those of a reserved tag.
pub fn unitless(units: [u8; 3]) -> bool
    ensures { result ≡ unitless units }
{
    units[0] == 0
}
