// The layout with a window listed last, or not listed.
ghost use Rattle.std.specs.Prelude.{◌≡◌, [], ◌∷◌, ◌≤◌, length};
ghost use Rattle.text.specs.Put.{Put};
ghost use Rattle.text.specs.Whole.{as_written};
ghost use Rattle.layout.specs.Change.{others, windows_with, with_window_of};
ghost use Rattle.layout.specs.Layout.{lines_of, layout_of};
ghost use Rattle.layout.specs.Read.{windows_at};

use crate::reader::Found;
use crate::walk::windows_at;
use crate::{put_head, reader};
use answer::Refusal;
use text::NEWLINE;

// Writes the layout `text` with the window listed last, or not listed, at the output's start, and answers its length.
pub fn with_window(text: &[u8], window: u64, listed: bool, out: &mut [u8]) -> Result<usize, Refusal>
    ensures { (as_written result, out.new) ≡ with_window_of text.now window listed out.old }
{
    let Some(found) = reader::look(text) else {
        return Err(Refusal::BadSheet);
    };
    let mut none = [0u8; 0];
    if out.len() < put_layout(&mut none, text, found, window, listed) {
        return Err(Refusal::NoRoom);
    }
    Ok(put_layout(out, text, found, window, listed))
}

// Writes the layout that was found in a text, with a window listed last or not listed.
fn put_layout(out: &mut [u8], text: &[u8], found: Found, window: u64, listed: bool) -> usize
    ensures { Put out.old 0 (layout_of (record { reading = found.reading; windows = windows_with window listed (windows_at text.now found.first found.count) })) out.new result }
{
    let reading = found.reading;
    let others = count_others(text, found, window);
    if listed {
        let head = put_head(out, reading, others + 1);
        let end = put_others(out, head, text, found, window);
        return text::put_field(out, end, window, NEWLINE);
    }
    let head = put_head(out, reading, others);
    put_others(out, head, text, found, window)
}

// How many of its windows are others than the one given.
fn count_others(text: &[u8], found: Found, window: u64) -> u64
    ensures { (result ≡ length (others window (windows_at text.now found.first found.count))) × (result ≤ length text.now) }
{
    let mut others = 0;
    for one in windows_at(text, found.first, found.count) {
        others += count_other(one, window);
    }
    others
}

// 1 for a window that is another than the one given, and 0 for that.
fn count_other(one: u64, window: u64) -> u64
    ensures { result ≡ length (others window (one ∷ [])) }
{
    u64::from(one != window)
}

// Writes the lines of the others.
fn put_others(out: &mut [u8], at: usize, text: &[u8], found: Found, window: u64) -> usize
    ensures { Put out.old at (lines_of (others window (windows_at text.now found.first found.count))) out.new result }
{
    let mut end = at;
    for one in windows_at(text, found.first, found.count) {
        end = put_other(out, end, one, window);
    }
    end
}

// Writes a window's line, where it is another than the one given.
fn put_other(out: &mut [u8], at: usize, one: u64, window: u64) -> usize
    ensures { Put out.old at (lines_of (others window (one ∷ []))) out.new result }
{
    if one == window {
        return at;
    }
    text::put_field(out, at, one, NEWLINE)
}
