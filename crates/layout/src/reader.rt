// A text that may be a layout: its reading, and its windows one after the other.
ghost use Rattle.std.specs.Prelude.{◌≡◌};
ghost use Rattle.layout.specs.Change.{has_of};
ghost use Rattle.layout.specs.Read.{ends_after, look_of};

use crate::Reading;
use crate::walk::{window_at, windows_at};

// What a layout has: its reading, how many windows there are and where the first one's line begins.
#[derive(Clone, Copy)]
pub struct Found {
    pub reading: Reading,
    pub count: u64,
    pub first: usize,
}

// Looks through the whole text.
pub fn look(text: &[u8]) -> Option<Found>
    ensures { result ≡ look_of text.now }
{
    if !text::begins(text, b"layout\t") {
        return None;
    }
    let (of, first) = text::read_fields(text, 7, b"\t\t\t\t\n")?;
    let count = of[4];
    if !ends_after(text, first, count) {
        return None;
    }
    let reading = Reading {
        kind: of[0],
        base: of[1],
        offset: of[2],
        length: of[3],
    };
    Some(Found {
        reading,
        count,
        first,
    })
}

// Whether the text ends after so many lines.
fn ends_after(text: &[u8], first: usize, count: u64) -> bool
    ensures { result ≡ ends_after text.now first count }
{
    let mut at = first;
    for _ in 0..count {
        let Some((_, next)) = window_at(text, at) else {
            return false;
        };
        at = next;
    }
    at == text.len()
}

// Whether a layout lists the window.
pub fn has(text: &[u8], window: u64) -> bool
    ensures { result ≡ has_of text.now window }
{
    match look(text) {
        Some(found) => windows_at(text, found.first, found.count).any(|one| one == window),
        None => false,
    }
}
