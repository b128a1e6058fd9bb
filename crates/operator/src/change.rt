// The commands that change FILE: `edit`, `branch`, `undo` and `fold`. Each takes the lock, finishes what an earlier one committed, looks
// whether the window's patches fit its code, makes one call of the library, and commits.
use crate::aim::Aim;
use crate::call::call;
use crate::fits::fits;
use crate::job::Job;
use crate::source::Source;
use crate::{changed, room, sheets, source};
use console::Status;
use folder::Commit;
use layout::Reading;
use lines::part;

pub fn change(job: &Job) -> Result<(), Status> {
    locked(job, under_lock)
}

// Does something under the lock of a FILE that is there, once what was committed before is finished: no folder is made for one that isn't.
pub fn locked<F: FnOnce(&Job) -> Result<(), Status>>(job: &Job, act: F) -> Result<(), Status>
    requires { F.IsAlwaysCallable act }
{
    let (file, _) = guest::open(job.rt, job.name)?;
    drop(file);
    job.folder().take()?;
    let done = match finish_old(job) {
        Ok(()) => act(job),
        Err(status) => Err(status),
    };
    job.folder().give_back();
    done
}

fn finish_old(job: &Job) -> Result<(), Status> {
    let mut text = room::text();
    job.folder().finish_old(&mut text)
}

fn under_lock(job: &Job) -> Result<(), Status> {
    let source = Source::open(job)?;
    let aim = Aim::of(job, &source.guest)?;
    let window = window::spot_of(aim.address).window;
    let mut code = room::code();
    let mut old_sheet = room::sheet();
    source
        .guest
        .load(window, &mut code)
        .map_err(|error| job.failed(&error))?;
    let sheet = sheets::read(job, window, &mut old_sheet)?;
    fits(job, &code, sheet, window)?;
    let mut new_sheet = room::sheet();
    let called = call(job, &mut code, sheet, &mut new_sheet, aim)?;
    let n = part::within(&new_sheet, called.length);
    committed(job, &source, aim, &code, &new_sheet[..n], called.count)
}

// Commits the window's changes, its sheet and the layout that goes with it, and says what changed.
fn committed(
    job: &Job,
    source: &Source,
    aim: Aim,
    code: &[u8],
    sheet: &[u8],
    count: u64,
) -> Result<(), Status> {
    let mut before = room::code();
    let window = window::spot_of(aim.address).window;
    source
        .guest
        .load(window, &mut before)
        .map_err(|error| job.failed(&error))?;
    if job.asked.dry_run {
        job.said(b"a dry run: nothing was changed");
    } else {
        commit(job, source, window, &before, code, sheet)?;
    }
    changed::tell(job, &before, code, aim, count)
}

fn commit(
    job: &Job,
    source: &Source,
    window: u64,
    before: &[u8],
    after: &[u8],
    sheet: &[u8],
) -> Result<(), Status> {
    let mut layout = room::sheet();
    let mut text = room::text();
    let listed = !sheet.is_empty();
    let Some(length) = layout_with(job, source.reading, window, listed, &mut layout) else {
        return Err(source::no_layout(job));
    };
    let n = part::within(&layout, length);
    let commit = Commit {
        guest: &source.guest,
        window,
        before,
        after,
        sheet,
        layout: &layout[..n],
    };
    job.folder().commit(&commit, &mut text)
}

// Writes the layout with a window that has a sheet, or has none; one that lists no window is none. How long it is, where the one before could be
// read.
fn layout_with(
    job: &Job,
    reading: Reading,
    window: u64,
    listed: bool,
    out: &mut [u8],
) -> Option<usize> {
    let mut old = room::sheet();
    match job.folder().read_layout(&mut old) {
        Ok(Some(text)) => layout_by(text, window, listed, out),
        Ok(None) => first_layout(reading, window, listed, out),
        Err(_) => None,
    }
}

fn first_layout(reading: Reading, window: u64, listed: bool, out: &mut [u8]) -> Option<usize> {
    let mut first = room::sheet();
    let end = layout::first_text(reading, &mut first);
    let n = part::within(&first, end);
    layout_by(&first[..n], window, listed, out)
}

fn layout_by(old: &[u8], window: u64, listed: bool, out: &mut [u8]) -> Option<usize> {
    let end = layout::with_window(old, window, listed, out).ok()?;
    let n = part::within(out, end);
    let found = layout::look(&out[..n])?;
    Some(if found.count == 0 { 0 } else { n })
}
