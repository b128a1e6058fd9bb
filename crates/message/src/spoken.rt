// Lines on standard error: the program, a file's name, and what is said of it.
use console::{EprintBytes, Status};
use lines::part;
use std::io;
use text::put_text;

// Room for a name and what is said of it.
pub const ROOM: usize = 8192;

// What is said of a file, in words.
pub fn said(rt: &impl EprintBytes, name: &[u8], words: &[u8]) {
    let mut line = [0u8; ROOM];
    let end = put_said(&mut line, name, words);
    say(rt, &line, end);
}

fn put_said(line: &mut [u8], name: &[u8], words: &[u8]) -> usize {
    let start = put_name(line, name);
    let colon = put_text(line, start, b": ");
    let next = put_text(line, colon, words);
    put_text(line, next, b"\n")
}

fn put_name(line: &mut [u8], name: &[u8]) -> usize {
    let start = put_text(line, 0, b"glindorsc: ");
    put_text(line, start, name)
}

// The same of a file that is refused for it, which is the status then.
pub fn refused(rt: &impl EprintBytes, name: &[u8], words: &[u8]) -> Status {
    said(rt, name, words);
    Status::Refused
}

// What the system says of a file, which is the status then.
pub fn failed(rt: &impl EprintBytes, name: &[u8], error: &io::Error) -> Status {
    let mut line = [0u8; ROOM];
    let end = put_name(&mut line, name);
    let n = part::within(&line, end);
    console::failed(rt, &line[..n], error);
    Status::System
}

// A line that is ready.
pub fn say(rt: &impl EprintBytes, line: &[u8], end: usize) {
    let n = part::within(line, end);
    let _ = rt.eprint_bytes(&line[..n]);
}
