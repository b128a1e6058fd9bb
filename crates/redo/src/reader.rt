// A text that may be a redo file: where its parts stand, and its changes one after the other.
ghost use Rattle.std.specs.Prelude.{◌≡◌, ◌+◌, ◌≤◌, min, length, drop};
ghost use Rattle.text.specs.Ascii.{same_text};
ghost use Rattle.redo.specs.Redo.{end_line};
ghost use Rattle.redo.specs.Read.{change_at, after_lines, parts_at, look_of};

use crate::Change;
use bundle::Halves;
use text::read_fields;

// The window, how many changes there are and where the first one's line begins; where the sheet begins, where it ends and the layout
// begins, and where that ends.
#[derive(Clone, Copy)]
pub struct Parts {
    pub window: u64,
    pub count: u64,
    pub lines: usize,
    pub sheet: usize,
    pub layout: usize,
    pub end: usize,
}

// Looks through the whole text: where the parts of a redo file stand in it, where it is one.
pub fn look(text: &[u8]) -> Option<Parts>
    ensures { result ≡ look_of text.now }
{
    if !text::begins(text, b"redo\t") {
        return None;
    }
    let (of, lines) = read_fields(text, 5, b"\t\t\t\n")?;
    let sheet = after_lines(text, lines, of[0])?;
    parts_at(text, of, lines, sheet)
}

// The place after so many lines.
fn after_lines(text: &[u8], first: usize, count: u64) -> Option<usize>
    ensures { result ≡ after_lines text.now first count }
{
    let mut at = first;
    for _ in 0..count {
        let (_, next) = line_at(text, at)?;
        at = next;
    }
    Some(at)
}

// The parts by the numbers of the first line, the place after it and the place after the lines.
fn parts_at(text: &[u8], of: [u64; 8], lines: usize, sheet: usize) -> Option<Parts>
    ensures { result ≡ parts_at text.now of lines sheet }
{
    let layout = past(text, sheet, of[2]);
    let end = past(text, layout, of[3]);
    if !is_last(text, end) {
        return None;
    }
    Some(Parts {
        window: of[1],
        count: of[0],
        lines,
        sheet,
        layout,
        end,
    })
}

// The place so many bytes on, and the text's end where that is past it.
fn past(text: &[u8], at: usize, count: u64) -> usize
    ensures { result ≡ min (at + count) (length text.now) }
{
    let end = (at as u64).saturating_add(count);
    end.min(text.len() as u64) as usize
}

// Whether the last line is all that stands from a place on.
fn is_last(text: &[u8], at: usize) -> bool
    requires { at ≤ length text.now }
    ensures { result ≡ same_text (drop at text.now) end_line }
{
    check::same(&text[at..], b"end\n")
}

// The change whose line stands at a place, and the place after it.
pub fn line_at(text: &[u8], at: usize) -> Option<(Change, usize)>
    ensures { result ≡ change_at text.now at }
{
    let (of, next) = read_fields(text, at, b"\t\t\t\t\n")?;
    let old = Halves {
        low: of[1],
        high: of[2],
    };
    let new = Halves {
        low: of[3],
        high: of[4],
    };
    let place = of[0];
    Some((Change { place, old, new }, next))
}
