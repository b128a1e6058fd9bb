// The windows of a layout, a line each.
ghost use Rattle.std.specs.Prelude.{◌≡◌};
ghost use Rattle.std.specs.Iterator.{YieldsFirst, item_count};
ghost use Rattle.layout.specs.Read.{window_at, windows_at};
ghost use Rattle.layout.specs.inner.Left.{windows_left};

use text::NEWLINE;

// The windows of so many lines from a place on, as far as a line has one.
#[derive(Drop)]
pub struct Windows<'a> {
    text: &'a [u8],
    at: usize,
    left: u64,
}

pub fn windows_at(text: &[u8], first: usize, count: u64) -> Windows<'_>
    ensures { windows_left result ≡ windows_at text.now first count }
{
    Windows {
        text,
        at: first,
        left: count,
    }
}

impl<'a> Iterator for Windows<'a> {
    type Item = u64;

    ghost next_gives = { YieldsFirst windows_left };

    ghost remaining = { item_count windows_left };

    fn next(&mut self) -> Option<u64> {
        if self.left == 0 {
            return None;
        }
        let (window, next) = window_at(self.text, self.at)?;
        self.left -= 1;
        self.at = next;
        Some(window)
    }
}

// The window whose line stands at a place, and the place after it.
pub fn window_at(text: &[u8], at: usize) -> Option<(u64, usize)>
    ensures { result ≡ window_at text.now at }
{
    text::read_field(text, at, NEWLINE)
}
