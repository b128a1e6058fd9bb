// Sets slot 2, B1, of document 01's example to 16, and writes the sheet of that edit.
#![tactic(auto)]

use console::{Started, Status};
use form::{B, Edit, Form};
use operand::Operand;
use std::process::ExitCode;

// Room for the head of a sheet and a record: no line is longer than 116 bytes.
const ROOM: usize = 2 * 116;

fn main(rt: HostRuntime) -> ExitCode {
    let started = console::started(&rt);
    console::end(&rt, started, run(&rt, started))
}

fn run(rt: &HostRuntime, started: Started) -> Status {
    if console::has_arguments(rt, started) {
        return console::misused(rt, b"usage: patches\n");
    }
    let mut out = [0u8; ROOM];
    let length = sheet_of(example(), &mut out);
    match console::write_all(&mut rt.stdout(), &out, length) {
        Ok(()) => Status::Done,
        Err(error) => console::failed(rt, b"patches: standard output", &error),
    }
}

fn example() -> Edit {
    Edit {
        bundle: 0,
        slot: 2,
        form: Form {
            family: B,
            number: 1,
        },
        value: Operand::ImmI64(16),
    }
}

// Writes the sheet of one edit of the example's bundle, and answers its length.
fn sheet_of(edit: Edit, out: &mut [u8]) -> usize {
    let mut code = *b"\x30\x00\x00\x00\x00\x40\x00\x00\x00\x00\x80\x00\x00\x00\x00\x80";
    let mut records = records::free();
    let counts = records::opened(1);
    let edited = journal::edit(&mut code, counts, &mut records, 0, edit);
    sheet::write(edited.unwrap_or(counts), &records, 0, out).unwrap_or(0)
}
