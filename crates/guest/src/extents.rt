// The extents of a file's code.
ghost use Rattle.std.specs.Prelude.{◌≤◌};

use console::Status;
use message::refused;
use window::Extent;

// So many extents at most.
const MOST: usize = 64;

const NO_EXTENT: Extent = Extent {
    code: false,
    address: 0,
    offset: 0,
    size: 0,
};

// So many of them. Of those that `add` put here no two share an address or a byte of the file.
#[derive(Clone, Copy)]
pub struct Extents {
    pub all: [Extent; MOST],
    pub count: usize,
    ghost within: { count ≤ 64 },
}

impl Extents {
    pub fn new() -> Extents {
        Extents {
            all: [NO_EXTENT; MOST],
            count: 0,
        }
    }

    pub fn as_slice(&self) -> &[Extent] {
        &self.all[..self.count]
    }

    // One more, where it is code; that there can't be one is said.
    pub fn add(
        &mut self,
        rt: &HostRuntime,
        name: &[u8],
        length: u64,
        extent: Extent,
    ) -> Result<(), Status> {
        if !extent.code || extent.size == 0 {
            return Ok(());
        }
        if !window::lies_in(extent, length) {
            return Err(refused(
                rt,
                name,
                b"a part of its code lies past the end of the file, or past the highest address",
            ));
        }
        if self
            .as_slice()
            .iter()
            .any(|other| !are_apart(*other, extent))
        {
            return Err(refused(rt, name, b"two parts of its code share bytes or addresses"));
        }
        if MOST <= self.count {
            return Err(refused(rt, name, b"its code has more than 64 parts"));
        }
        self.all[self.count] = extent;
        self.count += 1;
        Ok(())
    }
}

// Whether they share neither an address nor a byte of the file.
fn are_apart(a: Extent, b: Extent) -> bool {
    is_apart(a.address, a.size, b.address, b.size) & is_apart(a.offset, a.size, b.offset, b.size)
}

// Whether n numbers from `a` on and m from `b` on have none in common.
fn is_apart(a: u64, n: u64, b: u64, m: u64) -> bool {
    if a < b { n <= b - a } else { m <= a - b }
}
