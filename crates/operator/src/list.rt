// `list`: the bundles of FILE's code, a line each.
use crate::job::Job;
use crate::listed::put_line;
use crate::source::Source;
use crate::{room, sheets};
use answer::Refusal;
use console::Status;
use form::NO_FORM;
use guest::Guest;
use window::Extent;

// A window has so many bundles.
const BUNDLES: u64 = 4096;

// Output that goes on up to here has room for a line more.
const FULL: usize = 524000;

// Where a listing has come to in an extent: the next address, and how many bundles are still to be listed.
#[derive(Clone, Copy)]
struct Listing {
    next: u64,
    left: u64,
}

pub fn list(job: &Job) -> Result<(), Status> {
    let source = Source::open(job)?;
    if job.folder().has_redo() {
        job.said(
            b"a commit isn't finished: what is shown may be half of it, and verify finishes it",
        );
    }
    let left = job.number_or(job.asked.second, u64::MAX)?;
    if job.asked.first.is_none() {
        return list_all(job, &source.guest, 0, None, left);
    }
    let address = job.place(job.asked.first)?.address;
    let Some(first) = extent_of(&source.guest, address) else {
        return Err(job.refuse(address, Refusal::ExhaustedInput, NO_FORM));
    };
    list_all(job, &source.guest, first, Some(address), left)
}

// Which extent has the bundle at an address.
fn extent_of(guest: &Guest, address: u64) -> Option<usize> {
    guest.extents.as_slice().iter().position(|extent| window::place_of(
        *extent,
        guest.length,
        address,
    ).is_some())
}

// The extents from one on, of which the first is listed from an address on, where there is one.
fn list_all(
    job: &Job,
    guest: &Guest,
    first: usize,
    from: Option<u64>,
    most: u64,
) -> Result<(), Status> {
    let mut next = from;
    let mut left = most;
    for extent in guest.extents.as_slice().iter().skip(first) {
        let at = Listing {
            next: next.unwrap_or(rounded(extent.address)),
            left,
        };
        left = list_extent(job, guest, *extent, at)?;
        next = None;
    }
    Ok(())
}

// The first multiple of 16 from an address on.
fn rounded(address: u64) -> u64 {
    let over = address % 16;
    if over == 0 {
        return address;
    }
    (address - over).wrapping_add(16)
}

// How many bundles are still to be listed after an extent.
fn list_extent(job: &Job, guest: &Guest, extent: Extent, from: Listing) -> Result<u64, Status> {
    let mut at = from;
    for _ in 0..extent.size / 16384 + 2 {
        if at.goes_on(extent) {
            at = list_next(job, guest, extent, at)?;
        }
    }
    Ok(at.left)
}

impl Listing {
    // Whether a bundle of the extent is still to be listed.
    fn goes_on(self, extent: Extent) -> bool {
        if self.left == 0 || self.next < extent.address || extent.size < 16 {
            return false;
        }
        self.next - extent.address <= extent.size - 16
    }

    // Where it has come to after one bundle more.
    fn after_one(self) -> Listing {
        Listing {
            next: self.next.wrapping_add(16),
            left: self.left.wrapping_sub(1),
        }
    }
}

// The extent's bundles in the window of the next address, as many as there is room for: a quarter of a window at least.
fn list_next(job: &Job, guest: &Guest, extent: Extent, at: Listing) -> Result<Listing, Status> {
    let mut code = room::code();
    let mut marks = room::marks();
    let window = window::spot_of(at.next).window;
    guest
        .load(window, &mut code)
        .map_err(|error| job.failed(&error))?;
    sheets::mark(job, window, &mut marks)?;
    let mut out = room::text();
    let (end, next) = put_bundles(&mut out, &code, &marks, extent, at);
    job.printed(&out, end).map_err(|_| Status::System)?;
    Ok(next)
}

// Where the output ends, and where the listing has come to.
fn put_bundles(
    out: &mut [u8],
    code: &[u8],
    marks: &[u8],
    extent: Extent,
    from: Listing,
) -> (usize, Listing) {
    let spot = window::spot_of(from.next);
    let mut at = from;
    let mut end = 0;
    for n in spot.bundle..BUNDLES {
        if FULL < end || !at.goes_on(extent) {
            break;
        }
        let patched = matches!(marks.get(n as usize), Some(1));
        let address = folder::address_of(spot.window, n);
        end = put_line(out, end, code, address, patched);
        at = at.after_one();
    }
    (end, at)
}
