// What is said of an image that is left out, on standard error: its number among the images, its name, and why. Each answers the exit status
// then.
use answer::Refusal;
use console::{EprintBytes, Status};
use lines::part;
use std::io;

// Room for the number, a name and a refusal.
const ROOM: usize = 4200;

// It can't be opened or read, as the system says.
pub fn failed(rt: &impl EprintBytes, i: u64, name: &[u8], error: &io::Error) -> Status {
    let mut line = [0u8; ROOM];
    let end = put_name(&mut line, i, name);
    fail(rt, &line, end, error)
}

fn fail(rt: &impl EprintBytes, line: &[u8], end: usize, error: &io::Error) -> Status {
    let n = part::within(line, end);
    console::failed(rt, &line[0..n], error)
}

// It is refused: the refusal's number and name.
pub fn refused(rt: &impl EprintBytes, i: u64, name: &[u8], refusal: Refusal) -> Status {
    let mut line = [0u8; ROOM];
    let end = put_refusal(&mut line, i, name, refusal);
    let n = part::within(&line, end);
    let _ = rt.eprint_bytes(&line[0..n]);
    Status::Refused
}

// Standard input isn't bytes in hex.
pub fn bad_hex(rt: &impl EprintBytes) -> Status {
    let _ = rt.eprint_bytes(b"report: image 1, -: badhex\n");
    Status::Refused
}

fn put_refusal(line: &mut [u8], i: u64, name: &[u8], refusal: Refusal) -> usize {
    let next = put_name(line, i, name);
    let colon = text::put_text(line, next, b": ");
    let space = text::put_field(line, colon, u64::from(refusal.number()), b' ');
    put_word(line, space, refusal)
}

// An image is too long, or its sum would be.
fn put_word(line: &mut [u8], at: usize, refusal: Refusal) -> usize {
    match refusal {
        Refusal::TooLong => text::put_text(line, at, b"TooLong\n"),
        _ => text::put_text(line, at, b"BadValue\n"),
    }
}

fn put_name(line: &mut [u8], i: u64, name: &[u8]) -> usize {
    let start = text::put_text(line, 0, b"report: image ");
    let comma = text::put_field(line, start, i, b',');
    let space = text::put_byte(line, comma, b' ');
    text::put_text(line, space, name)
}
