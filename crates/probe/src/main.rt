// One line a call, so that anything can drive the compiled library: standard input is answered line by line.
#![tactic(auto)]

ghost use Rattle.std.specs.Prelude.{◌≡◌, length};

mod calls;
mod command;
mod kept;
mod session;

use calls::Work;
use console::Status;
use record::{NONE, Record};
use std::process::ExitCode;

// Room for the longest line or answer, and more.
fn room() -> [u8; 524288]
    ensures { 524288 ≡ length result }
{
    [0; 524288]
}

fn code_room() -> [u8; 65600]
    ensures { 65600 ≡ length result }
{
    [0; 65600]
}

fn places() -> [Record; kept::MOST_PLACES]
    ensures { 2048 ≡ length result }
{
    [NONE; kept::MOST_PLACES]
}

fn main(rt: HostRuntime) -> ExitCode {
    let started = console::started(&rt);
    let status = if console::has_arguments(&rt, started) {
        console::misused(&rt, b"usage: probe <LINES\n")
    } else {
        run(&rt)
    };
    console::end(&rt, started, status)
}

// Answers standard input, and tells the exit status.
fn run(rt: &HostRuntime) -> Status {
    let mut text = room();
    let mut code = code_room();
    let mut lent = room();
    let mut given = room();
    let mut out = room();
    let mut records = places();
    let mut work = Work {
        code: &mut code,
        lent: &mut lent,
        given: &mut given,
        records: &mut records,
        kept: kept::first(),
    };
    session::run(rt, &mut text, &mut work, &mut out)
}
