// The commands that look after patches: `verify` and `status`.
use crate::fits::fits;
use crate::job::Job;
use crate::source::Source;
use crate::{change, reading, room, sheets, source};
use console::Status;
use folder::Owner;
use guest::Guest;
use layout::Reading;
use message::put_address;
use text::put_text;

// `verify`: finishes what was committed, and looks whether the patches of each window fit its code.
pub fn verify(job: &Job) -> Result<(), Status> {
    change::locked(job, under_lock)
}

fn under_lock(job: &Job) -> Result<(), Status> {
    let source = Source::open(job)?;
    let mut layout = room::sheet();
    match job.folder().read_layout(&mut layout)? {
        Some(text) => verify_all(job, &source.guest, text),
        None => tell(job, 0),
    }
}

fn tell(job: &Job, windows: u64) -> Result<(), Status> {
    let mut out = [0u8; 64];
    let start = put_text(&mut out, 0, b"fits\t");
    let end = text::put_field(&mut out, start, windows, b'\n');
    job.printed(&out, end)
}

fn verify_all(job: &Job, guest: &Guest, layout: &[u8]) -> Result<(), Status> {
    let Some(found) = layout::look(layout) else {
        return Err(source::no_layout(job));
    };
    for window in layout::windows_at(layout, found.first, found.count) {
        verify_window(job, guest, window)?;
    }
    tell(job, found.count)
}

fn verify_window(job: &Job, guest: &Guest, window: u64) -> Result<(), Status> {
    let mut code = room::code();
    let mut sheet = room::sheet();
    guest
        .load(window, &mut code)
        .map_err(|error| job.failed(&error))?;
    let text = sheets::read(job, window, &mut sheet)?;
    fits(job, &code, text, window)
}

// `status`: how FILE is read, its windows with their records, whether it is locked, and whether a commit isn't finished. Apart from `done_of`, so
// that a command that changes FILE needs no room for what this one prints.
#[inline(never)]
pub fn status(job: &Job) -> Result<(), Status> {
    let Source { guest, reading } = Source::open(job)?;
    drop(guest);
    let mut out = room::text();
    let end = put_status(job, &mut out, reading);
    job.printed(&out, end)
}

fn put_status(job: &Job, out: &mut [u8], reading: Reading) -> usize {
    let start = put_text(out, 0, b"read\t");
    let read = reading::put_reading(out, start, reading);
    let line = text::put_byte(out, read, b'\n');
    let windows = put_layout(job, out, line);
    let locked = put_lock(job, out, windows);
    if job.folder().has_redo() {
        return put_text(
            out,
            locked,
            b"redo\ta commit isn't finished: verify finishes it\n",
        );
    }
    locked
}

fn put_layout(job: &Job, out: &mut [u8], at: usize) -> usize {
    let mut layout = room::sheet();
    match job.folder().read_layout(&mut layout) {
        Ok(Some(text)) => put_windows(job, out, at, text),
        Ok(None) | Err(_) => at,
    }
}

// The windows of a layout, where it can be read.
fn put_windows(job: &Job, out: &mut [u8], at: usize, layout: &[u8]) -> usize {
    let Some(found) = layout::look(layout) else {
        return at;
    };
    let mut end = at;
    for window in layout::windows_at(layout, found.first, found.count) {
        end = put_window(job, out, end, window);
    }
    end
}

// A window and how many records its sheet has, or `-` where it can't be read.
fn put_window(job: &Job, out: &mut [u8], at: usize, window: u64) -> usize {
    let start = put_text(out, at, b"window\t");
    let next = put_address(out, start, window);
    let tab = text::put_byte(out, next, text::TAB);
    match sheets::count(job, window) {
        Some(count) => text::put_field(out, tab, count, b'\n'),
        None => put_text(out, tab, b"-\n"),
    }
}

// Whether a lock stands, and whether its process is gone.
fn put_lock(job: &Job, out: &mut [u8], at: usize) -> usize {
    match job.folder().owner() {
        Owner::Nobody => at,
        Owner::Gone => put_text(
            out,
            at,
            b"lock\tof a process that is gone: the next command breaks it\n",
        ),
        Owner::Other | Owner::Unsaid => put_text(out, at, b"lock\theld\n"),
        Owner::Unread => put_text(out, at, b"lock\tcan't be read\n"),
    }
}
