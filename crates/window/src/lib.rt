// Code in a file, by address: which part of it a window shows, and where in the file a bundle stands. A window is 65,536 bytes from an
// address whose low 16 bits are zero, so that a bundle's number in it doesn't depend on where the code begins.
#![tactic(auto)]

ghost use Rattle.std.specs.Prelude.{◌≡◌};
ghost use Rattle.window.specs.Window.{spot_of, lies_in, is_code, shown_in, place_of};

const SPAN: u64 = 65536;

// So many bytes of a file from an offset on, and the address of the first. Whether they are code stands beside them and isn't an Option,
// since `elf::section` says where a part lies that is none.
#[derive(Clone, Copy)]
pub struct Extent {
    pub code: bool,
    pub address: u64,
    pub offset: u64,
    pub size: u64,
}

// Bytes of a window from `first` on, and where in the file they stand.
#[derive(Clone, Copy)]
pub struct Part {
    pub first: u64,
    pub offset: u64,
    pub size: u64,
}

// An address: its window, the bundle there, and what is left below sixteen.
#[derive(Clone, Copy)]
pub struct Spot {
    pub window: u64,
    pub bundle: u64,
    pub rest: u64,
}

pub fn spot_of(address: u64) -> Spot
    ensures { result ≡ spot_of address }
{
    Spot {
        window: address / SPAN * SPAN,
        bundle: address % SPAN / 16,
        rest: address % 16,
    }
}

// Whether an extent's bytes lie in a file of so many, and its addresses below 2^64.
pub fn lies_in(extent: Extent, length: u64) -> bool
    ensures { result ≡ lies_in extent length }
{
    let size = extent.size;
    if length < size {
        return false;
    }
    if length - size < extent.offset {
        return false;
    }
    if size == 0 {
        return true;
    }
    if u64::MAX - extent.address < size - 1 {
        return false;
    }
    true
}

// Whether it is code in such a file.
fn is_code(extent: Extent, length: u64) -> bool
    ensures { result ≡ is_code extent length }
{
    extent.code & lies_in(extent, length)
}

// The part of a file of so many bytes that is an extent's code in a window.
pub fn part_of(extent: Extent, length: u64, window: u64) -> Option<Part>
    ensures { result ≡ shown_in extent length window }
{
    if !is_code(extent, length) {
        return None;
    }
    let skipped = window.saturating_sub(extent.address);
    let first = extent.address.saturating_sub(window);
    let left = extent.size.saturating_sub(skipped);
    let room = SPAN.saturating_sub(first);
    let size = left.min(room);
    if size == 0 {
        return None;
    }
    Some(Part {
        first,
        offset: extent.offset + skipped,
        size,
    })
}

// Where in a file of so many bytes the sixteen from an address on stand.
pub fn place_of(extent: Extent, length: u64, address: u64) -> Option<u64>
    ensures { result ≡ place_of extent length address }
{
    if !is_code(extent, length) {
        return None;
    }
    let before = address.checked_sub(extent.address)?;
    let most = extent.size.checked_sub(16)?;
    if most < before {
        return None;
    }
    Some(extent.offset + before)
}
