// A commit: changed bundles of FILE, a window's sheet and the layout, all of them or none, whatever is killed or fails. The redo file
// says what is to be done; once it has its name, it is done, now or when the next command finishes it.
ghost use Rattle.std.specs.Prelude.{◌≤◌, length, IfSome};

use crate::Folder;
use bundle::Halves;
use console::Status;
use guest::{Guest, text_of};
use lines::part;
use redo::{Change, Parts, State};
use std::fs::File;
use std::io;

const REDO: [u8; 4] = *b"redo";

const REDO_NEW: [u8; 8] = *b"redo.new";

// A window has so many bundles.
const BUNDLES: u64 = 4096;

// A window's code before and after, its sheet and the layout.
#[derive(Clone, Copy)]
pub struct Commit<'a> {
    pub guest: &'a Guest,
    pub window: u64,
    pub before: &'a [u8],
    pub after: &'a [u8],
    pub sheet: &'a [u8],
    pub layout: &'a [u8],
}

impl Commit<'_> {
    // Writes the redo file's text: the bundles that differ, the sheet and the layout. Its length, where it has room and each bundle that
    // differs is in the file's code.
    fn put_redo(&self, text: &mut [u8]) -> Option<usize>
        ensures { IfSome result (λ end. end ≤ length text.new) }
    {
        let head = redo::put_head(
            text,
            0,
            self.changes(),
            self.window,
            self.sheet.len() as u64,
            self.layout.len() as u64,
        );
        let changes = self.put_changes(text, head)?;
        let sheet = text::put_text(text, changes, self.sheet);
        let layout = text::put_text(text, sheet, self.layout);
        let end = redo::put_end(text, layout);
        if text.len() < end {
            return None;
        }
        Some(end)
    }

    // How many bundles differ.
    fn changes(&self) -> u64 {
        (0..BUNDLES)
            .filter(|n| differs(self.before, self.after, *n))
            .count() as u64
    }

    fn put_changes(&self, text: &mut [u8], at: usize) -> Option<usize> {
        let mut next = at;
        for n in 0..BUNDLES {
            if differs(self.before, self.after, n) {
                next = self.put_change(text, next, n)?;
            }
        }
        Some(next)
    }

    fn put_change(&self, text: &mut [u8], at: usize, n: u64) -> Option<usize> {
        let place = self.guest.place_of(address_of(self.window, n))?;
        let old = halves(self.before, n);
        let new = halves(self.after, n);
        Some(redo::put_line(text, at, Change { place, old, new }))
    }
}

pub fn differs(before: &[u8], after: &[u8], n: u64) -> bool {
    halves(before, n) != halves(after, n)
}

const NO_HALVES: Halves = Halves { low: 0, high: 0 };

// A bundle's halves, zeros where the code has none there.
pub fn halves(code: &[u8], n: u64) -> Halves {
    bundle::load(code, n).unwrap_or(NO_HALVES)
}

// The address of a window's bundle.
pub fn address_of(window: u64, n: u64) -> u64 {
    if n < BUNDLES {
        return window.wrapping_add(16 * n);
    }
    window
}

impl Folder<'_> {
    // Commits it by a redo file, with room for the file's text, and does it.
    pub fn commit(&self, commit: &Commit, text: &mut [u8]) -> Result<(), Status> {
        let Some(end) = commit.put_redo(text) else {
            return Err(self.refused(b"a bundle to be changed isn't in its code"));
        };
        self.can_be_changed().map_err(|error| self.failed(&error))?;
        self.put_new(&text[..end])
            .map_err(|error| self.given_up(&error))?;
        self.sync().map_err(|error| self.unfinished(&error))?;
        self.finish(text)
    }

    // Writes the redo file, which has its name only then.
    fn put_new(&self, text: &[u8]) -> io::Result<()> {
        self.write(&REDO_NEW, text)?;
        self.rename(&REDO_NEW, &REDO)
    }

    // Whether FILE can be opened for writing, which is asked before anything is committed.
    fn can_be_changed(&self) -> io::Result<()> {
        self.open_update()?;
        Ok(())
    }

    // Opens FILE for reading and writing.
    fn open_update(&self) -> io::Result<File> {
        let text = text_of(self.name)?;
        File::options().read(true).write(true).open(self.rt, text)
    }

    // Nothing has changed.
    fn given_up(&self, error: &io::Error) -> Status {
        let status = self.failed(error);
        let _ = self.remove(&REDO_NEW);
        status
    }

    fn unfinished(&self, error: &io::Error) -> Status {
        let status = self.failed(error);
        self.said(b"committed, not finished: run it again");
        status
    }

    // Finishes what was committed before, with room for a redo file, and says so.
    pub fn finish_old(&self, text: &mut [u8]) -> Result<(), Status> {
        if !self.has_redo() {
            return Ok(());
        }
        self.said(b"finishing what was committed");
        self.finish(text)
    }

    // Whether a commit isn't finished.
    pub fn has_redo(&self) -> bool {
        self.open(&REDO).is_ok()
    }

    // Does what the redo file says, where there is one. To do it again changes nothing.
    fn finish(&self, text: &mut [u8]) -> Result<(), Status> {
        match self.read(&REDO, text)? {
            Some(whole) => self.finish_by(whole),
            None => Ok(()),
        }
    }

    fn finish_by(&self, text: &[u8]) -> Result<(), Status> {
        let Some(parts) = redo::look(text) else {
            return Err(self.refused(
                b"the redo file in its folder is damaged: nothing was changed",
            ));
        };
        self.change_file(text, parts)?;
        self.replace_texts(text, parts)
            .map_err(|error| self.unfinished(&error))
    }

    // The bundles: all are looked at before one is written.
    fn change_file(&self, text: &[u8], parts: Parts) -> Result<(), Status> {
        let file = self.open_update().map_err(|error| self.unfinished(&error))?;
        each_change(text, parts, |change| {
            self.is_left(&file, change)?;
            Ok(())
        })?;
        each_change(text, parts, |change| self.write_left(&file, change))?;
        file.sync_all().map_err(|error| self.unfinished(&error))
    }

    // Whether a bundle is still to be written: it is the old one, or torn. One that is neither that nor the new one is another's.
    fn is_left(&self, file: &File, change: Change) -> Result<bool, Status> {
        let mut bytes = [0u8; 16];
        guest::read_at(file, &mut bytes, change.place).map_err(|error| self.unfinished(&error))?;
        match redo::state_of(halves(&bytes, 0), change.old, change.new) {
            State::New => Ok(false),
            State::Old | State::Torn => Ok(true),
            State::Other => Err(self.refused(
                b"9 Stale: a bundle is neither as the commit found it nor as it is to be; the redo file stays",
            )),
        }
    }

    fn write_left(&self, file: &File, change: Change) -> Result<(), Status> {
        if !self.is_left(file, change)? {
            return Ok(());
        }
        let mut bytes = [0u8; 16];
        bundle::write(&mut bytes, change.new);
        guest::write_at(file, &bytes, change.place).map_err(|error| self.unfinished(&error))
    }

    // The sheet and the layout, and then no redo file.
    fn replace_texts(&self, text: &[u8], parts: Parts) -> io::Result<()> {
        let end = part::within(text, parts.end);
        let middle = part::within(&text[..end], parts.layout);
        let first = part::within(&text[..middle], parts.sheet);
        self.replace(&leaf_of(parts.window), &text[first..middle])?;
        self.replace(b"layout", &text[middle..end])?;
        self.sync()?;
        self.remove(&REDO)?;
        self.sync()
    }
}

// Does something with each changed bundle in turn, up to the first that fails.
fn each_change<F: Fn(Change) -> Result<(), Status>>(
    text: &[u8],
    parts: Parts,
    act: F,
) -> Result<(), Status>
    requires { F.IsAlwaysCallable act }
{
    let mut at = parts.lines;
    for _ in 0..parts.count {
        let Some((change, next)) = redo::line_at(text, at) else {
            return Err(Status::Refused);
        };
        act(change)?;
        at = next;
    }
    Ok(())
}

// The name of a window's sheet: its address in sixteen digits.
pub(crate) fn leaf_of(window: u64) -> [u8; 16] {
    let mut leaf = [0u8; 16];
    message::put_hex(&mut leaf, 0, window, 16);
    leaf
}
