// How a file is read and which of its windows have a sheet, as a text: written, looked through, and with a window listed or not.
#![tactic(auto)]

mod change;
mod reader;
mod walk;

ghost use Rattle.std.specs.Prelude.{◌≡◌};
ghost use Rattle.layout.specs.Layout.{first_line, same_reading};
ghost use Rattle.text.specs.Put.{Put};

pub use change::with_window;
pub use reader::{Found, has, look};
pub use walk::{Windows, window_at, windows_at};

// How a file is read: kind 0 is ELF; kind 1 is raw bytes, so many from an offset on, of which the first has the address `base`.
// A layout may give any number for the kind, and is written as it was read (theorem ReadsOnlyWritten): so it is no enum.
#[derive(Clone, Copy, PartialEq, Eq)]
pub struct Reading {
    pub kind: u64,
    pub base: u64,
    pub offset: u64,
    pub length: u64,
}

// Writes the layout with no windows at the output's start, as far as there is room, and answers its length.
pub fn first_text(reading: Reading, out: &mut [u8]) -> usize
    ensures { Put out.old 0 (first_line reading 0) out.new result }
{
    put_head(out, reading, 0)
}

// Writes the first line: the reading, and how many windows there are.
fn put_head(out: &mut [u8], reading: Reading, count: u64) -> usize
    ensures { Put out.old 0 (first_line reading count) out.new result }
{
    let next = text::put_text(out, 0, b"layout\t");
    text::put_fields(
        out,
        next,
        &[
            reading.kind,
            reading.base,
            reading.offset,
            reading.length,
            count,
        ],
        b"\t\t\t\t\n",
    )
}

// Whether a file is read the same way.
pub fn same_reading(a: Reading, b: Reading) -> bool
    ensures { result ≡ same_reading a b }
{
    a == b
}
