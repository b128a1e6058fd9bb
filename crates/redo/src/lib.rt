// The redo file, by which a commit is finished after a kill: written piece by piece, looked through, and what becomes of a bundle then.
#![tactic(auto)]

mod reader;
mod state;

ghost use Rattle.redo.specs.Redo.{first_line, line_of, end_line};
ghost use Rattle.text.specs.Put.{Put};

use bundle::Halves;
pub use reader::{Parts, line_at, look};
pub use state::{State, state_of};

// A changed bundle: its place in the file, in bytes, and what it was and is to be.
#[derive(Clone, Copy)]
pub struct Change {
    pub place: u64,
    pub old: Halves,
    pub new: Halves,
}

// Writes the first line: how many changes there are, the window's address, and the lengths of the sheet and the layout.
pub fn put_head(
    out: &mut [u8],
    at: usize,
    count: u64,
    window: u64,
    sheet: u64,
    layout: u64,
) -> usize
    ensures { Put out.old at (first_line count window sheet layout) out.new result }
{
    let next = text::put_text(out, at, b"redo\t");
    text::put_fields(out, next, &[count, window, sheet, layout], b"\t\t\t\n")
}

// Writes a change's line.
pub fn put_line(out: &mut [u8], at: usize, change: Change) -> usize
    ensures { Put out.old at (line_of change) out.new result }
{
    let old = change.old;
    let new = change.new;
    text::put_fields(
        out,
        at,
        &[change.place, old.low, old.high, new.low, new.high],
        b"\t\t\t\t\n",
    )
}

// Writes the last line.
pub fn put_end(out: &mut [u8], at: usize) -> usize
    ensures { Put out.old at end_line out.new result }
{
    text::put_text(out, at, b"end\n")
}
