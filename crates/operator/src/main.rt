// The operator's program, over files: lists, patches, takes patches out again, verifies and counts (`./glindorsc`).
#![tactic(auto)]

mod aim;
mod asked;
mod call;
mod change;
mod changed;
mod count;
mod fits;
mod help;
mod job;
mod list;
mod listed;
mod look;
mod reading;
mod refusal;
mod room;
mod sheets;
mod show;
mod source;

use asked::{Asked, Command};
use console::Status;
use job::Job;
use std::fs::File;
use std::os::fd::{AsRawFd, IntoRawFd};
use std::process::ExitCode;

// Standard error's descriptor, the last of the standard ones.
const STDERR_FILENO: i32 = 2;

fn main(rt: HostRuntime) -> ExitCode {
    guard(&rt);
    let started = console::started(&rt);
    let asked = Asked::read(&rt, started.first);
    let status = match done(&rt, &asked) {
        Ok(()) => Status::Done,
        Err(status) => status,
    };
    console::end(&rt, started, status)
}

// In the place of a standard descriptor that is closed stands one that can't be written, so that no file of ours gets its number.
fn guard(rt: &HostRuntime) {
    for _ in 0..3 {
        if let Ok(file) = File::open(rt, "/dev/null") {
            if STDERR_FILENO < file.as_raw_fd() {
                return;
            }
            file.into_raw_fd();
        }
    }
}

fn done(rt: &HostRuntime, asked: &Asked) -> Result<(), Status> {
    if asked.version {
        return help::version(rt);
    }
    if asked.help {
        return help::help(rt, asked.command);
    }
    let Some(command) = asked.whole() else {
        return Err(help::misused(rt, asked.command));
    };
    let mut word = [0u8; 4096];
    let length = match asked.file {
        Some(place) => console::arg(rt, place, &mut word),
        None => 0,
    };
    done_of(&Job {
        rt,
        asked,
        command,
        name: &word[..length],
    })
}

// Apart from `main`, so that what tells how the program is used needs no room for what its commands work with.
#[inline(never)]
fn done_of(job: &Job) -> Result<(), Status> {
    match job.command {
        Command::List => list::list(job),
        Command::Show => show::show(job),
        Command::Verify => look::verify(job),
        Command::Status => look::status(job),
        Command::Report => count::report(job),
        Command::Edit | Command::Branch | Command::Undo | Command::Fold => change::change(job),
    }
}
