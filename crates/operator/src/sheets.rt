// The sheet of a window, which the layout lists where there is one.
use crate::job::Job;
use crate::room;
use console::Status;
use form::NO_FORM;

// The sheet of a window in which nothing is patched.
pub const EMPTY: [u8; 10] = *b"patches\t0\n";

// Reads the sheet of a window that the layout lists; of any other it is the empty one, and none may stand there.
pub fn read<'a>(job: &Job, window: u64, sheet: &'a mut [u8]) -> Result<&'a [u8], Status> {
    if is_listed(job, window) {
        return read_listed(job, window, sheet);
    }
    match job.folder().read_sheet(window, sheet)? {
        Some(_) => Err(job.refused(
            b"13 BadSheet: a sheet stands in its folder for this window, and the layout doesn't list it",
        )),
        None => Ok(&EMPTY),
    }
}

fn is_listed(job: &Job, window: u64) -> bool {
    let mut layout = room::sheet();
    match job.folder().read_layout(&mut layout) {
        Ok(Some(text)) => layout::has(text, window),
        Ok(None) | Err(_) => false,
    }
}

fn read_listed<'a>(job: &Job, window: u64, sheet: &'a mut [u8]) -> Result<&'a [u8], Status> {
    match job.folder().read_sheet(window, sheet)? {
        Some(text) => Ok(text),
        None => Err(job.refused(
            b"13 BadSheet: the layout lists this window, and its sheet is missing",
        )),
    }
}

// Marks the bundles of a window that patches stand in.
pub fn mark(job: &Job, window: u64, marks: &mut [u8]) -> Result<(), Status> {
    let mut sheet = room::sheet();
    let text = read(job, window, &mut sheet)?;
    by_sheet::mark(text, marks).map_err(|refusal| job.refuse(window, refusal, NO_FORM))?;
    Ok(())
}

// How many records a window's sheet has, where it can be read.
pub fn count(job: &Job, window: u64) -> Option<u64> {
    let mut sheet = room::sheet();
    match job.folder().read_sheet(window, &mut sheet) {
        Ok(Some(text)) => count_in(text),
        Ok(None) | Err(_) => None,
    }
}

fn count_in(sheet: &[u8]) -> Option<u64> {
    let mut marks = room::marks();
    by_sheet::mark(sheet, &mut marks).ok()
}
