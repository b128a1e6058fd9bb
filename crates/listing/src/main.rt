// Reads bytes in hex from standard input and writes the listing of them: document 01's last example.
#![tactic(auto)]

use console::{Started, Status};
use std::process::ExitCode;

fn main(rt: HostRuntime) -> ExitCode {
    let started = console::started(&rt);
    console::end(&rt, started, run(&rt, started))
}

fn run(rt: &HostRuntime, started: Started) -> Status {
    if console::has_arguments(rt, started) {
        return console::misused(rt, b"usage: listing <HEX\n");
    }
    let mut text = [0u8; lister::ENOUGH];
    let mut out = [0u8; lister::CAPACITY];
    let count = match console::read_all(&mut rt.stdin(), &mut text) {
        Ok(count) => count,
        Err(cut) => return console::failed(rt, b"listing: standard input", &cut.error),
    };
    // The output has room for every listing.
    let length = lister::listing(&text[..count], &mut out).unwrap_or(0);
    if let Err(error) = console::write_all(&mut rt.stdout(), &out, length) {
        return console::failed(rt, b"listing: standard output", &error);
    }
    status_of(&out)
}

// A text that is refused gives one line, and no listing with its head.
fn status_of(listing: &[u8]) -> Status {
    if text::begins(listing, b"bundle\t") {
        Status::Done
    } else {
        Status::Refused
    }
}
