// Counts the bundles of images by their templates, and writes the report.
// The arguments name files of raw bytes; without arguments standard input gives one image, in hex.
#![tactic(auto)]

mod image;
mod said;

use console::{Started, Status};
use hex_text::Ending;
use std::process::ExitCode;
use tally::NUMBERS;

fn main(rt: HostRuntime) -> ExitCode {
    let started = console::started(&rt);
    console::end(&rt, started, run(&rt, started))
}

fn run(rt: &HostRuntime, started: Started) -> Status {
    let mut report = [0; NUMBERS];
    let status = if console::has_arguments(rt, started) {
        add_named(rt, &mut report, started.first, console::arg_count(rt))
    } else {
        add_typed(rt, &mut report).err().unwrap_or(Status::Done)
    };
    write(rt, report, status)
}

// Adds the files that the arguments name from `first` on, and answers the exit status that says most: what can't be read goes before what
// is refused.
fn add_named(rt: &HostRuntime, report: &mut [u64; NUMBERS], first: usize, count: usize) -> Status {
    let mut worst = Status::Done;
    for i in first..count {
        let image = (i - first) as u64 + 1;
        if let Err(status) = add_file(rt, report, image, i) {
            worst = worst.max(status);
        }
    }
    worst
}

// Adds an image, the file that argument `i` names, where it can be read and isn't refused.
fn add_file(
    rt: &HostRuntime,
    report: &mut [u64; NUMBERS],
    image: u64,
    i: usize,
) -> Result<(), Status> {
    let mut name = [0u8; image::PATH_MAX];
    let length = image::put_name(rt, i, &mut name);
    let name = &name[..length];
    let mut bytes = image::room();
    let count = match image::read(rt, name, &mut bytes) {
        Ok(count) => count,
        Err(error) => {
            said::failed(rt, image, name, &error);
            return Err(Status::System);
        }
    };
    image::add(report, &bytes, count).map_err(|refusal| said::refused(rt, image, name, refusal))
}

// Adds the image that standard input gives in hex, as the listing takes it.
fn add_typed(rt: &HostRuntime, report: &mut [u64; NUMBERS]) -> Result<(), Status> {
    let mut given = [0u8; lister::ENOUGH];
    let mut bytes = image::room();
    let count = match console::read_all(&mut rt.stdin(), &mut given) {
        Ok(count) => count,
        Err(cut) => return Err(said::failed(rt, 1, b"-", &cut.error)),
    };
    let decoded = hex_text::decode(&given[..count], &mut bytes);
    if let Ending::BadHex = decoded.ending {
        return Err(said::bad_hex(rt));
    }
    image::add(report, &bytes, decoded.count).map_err(|refusal| said::refused(rt, 1, b"-", refusal))
}

fn write(rt: &HostRuntime, report: [u64; NUMBERS], status: Status) -> Status {
    let mut out = [0u8; tally::CAPACITY];
    let length = tally::put_report(&mut out, 0, report);
    match console::write_all(&mut rt.stdout(), &out, length) {
        Ok(()) => status,
        Err(error) => console::failed(rt, b"report: standard output", &error),
    }
}
