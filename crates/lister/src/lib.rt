// The listing of a code, document 01's last example, as a text.
#![tactic(auto)]

mod line;

ghost use Rattle.std.specs.Prelude.{◌≡◌, [], ◌≤◌, leb, length};
ghost use Rattle.bundle.specs.Bundle.{longest_code};
ghost use Rattle.text.specs.Put.{Put};
ghost use Rattle.text.specs.Whole.{as_written, wrote_of};
ghost use Rattle.lister.specs.Listing.{list_of, list_refusals, listing_of, Decides};

use answer::Refusal;
use bundle::LONGEST_CODE;
use hex_text::Ending;
pub use line::put_units;

// So many characters of a text decide its listing: three for each byte, and two digits of one byte more.
pub const ENOUGH: usize = 3 * LONGEST_CODE + 2;

// No listing is longer.
pub const CAPACITY: usize = 229419;

// The listing of the bytes that a text gives in hex.
pub fn listing(text: &[u8], out: &mut [u8]) -> Result<usize, Refusal>
    ensures out_after { (as_written result, out.new) ≡ wrote_of [] (listing_of text.now) out.old }
    ensures enough { Decides ENOUGH text.now }
{
    let mut code = [0u8; LONGEST_CODE];
    let decoded = hex_text::decode(text, &mut code);
    let count = decoded.count;
    let ending = decoded.ending;
    match ending {
        Ending::Whole => list(&code[..count], out),
        Ending::BadHex => text::put_whole(out, b"badhex\n"),
        Ending::TooLong => text::put_whole(out, b"toolong\n"),
    }
}

// The listing of a code.
pub fn list(code: &[u8], out: &mut [u8]) -> Result<usize, Refusal>
    ensures { (as_written result, out.new) ≡ wrote_of (list_refusals code.now) (list_of code.now) out.old }
{
    if LONGEST_CODE < code.len() {
        return Err(Refusal::TooLong);
    }
    if fits(code, out.len()) {
        return Ok(write(code, out));
    }
    Err(Refusal::NoRoom)
}

// Whether the listing has at most `room` bytes. It is measured only where room may be short.
fn fits(code: &[u8], room: usize) -> bool
    requires { length code.now ≤ longest_code }
    ensures { result ≡ leb (length (list_of code.now)) room }
{
    if CAPACITY <= room {
        return true;
    }
    let mut empty = [0u8; 0];
    write(code, &mut empty) <= room
}

// Writes the listing at the output's start, as far as there is room, and answers its length.
fn write(code: &[u8], out: &mut [u8]) -> usize
    requires { length code.now ≤ longest_code }
    ensures { Put out.old 0 (list_of code.now) out.new result }
{
    let mut at = text::put_text(out, 0, b"bundle\ttag\tunits\tslot0\tslot1\tslot2\n");
    for n in 0..(code.len() / 16) as u64 {
        at = line::put_line(out, at, n, bundle::cut(code, n));
    }
    line::put_rest(out, at, (code.len() % 16) as u64)
}
