// What a program does with its arguments, its input and output, and its exit status.
//
// A program writes its status to a descriptor that its first two arguments name, as `--status 3`, and whoever started it (`./run`) ends with
// that. The program itself ends with the status only where it can't be written there.
#![tactic(auto)]

ghost use Rattle.std.specs.Prelude.{◌≡◌};
ghost use Rattle.std.specs.Counts.{IsPrefixLen};

mod start;
mod status;
mod stderr;
mod transfer;

pub use start::Started;
pub use status::Status;
use std::env::FillError;
use std::fs::OpenOptions;
use std::io;
use std::io::Write;
use std::process::ExitCode;
use std::rt::{Env, Files};
pub use stderr::EprintBytes;
pub use transfer::{CutOff, read, read_all, write_all};

// How this program was started.
pub fn started(rt: &impl Env) -> Started {
    let mut word = [0u8; 8];
    let length = arg(rt, 1, &mut word);
    let mut number = [0u8; 1];
    let digits = arg(rt, 2, &mut number);
    start::started_by(&word[..length], &number[..digits])
}

// Writes the status, or a number for one, where there is a descriptor for it, and answers what the program ends with.
pub fn end(rt: &impl Files, started: Started, status: impl Into<u64>) -> ExitCode {
    let number: u64 = status.into();
    if number == u64::from(Status::Unread) {
        return ExitCode::from(Status::Unread.number());
    }
    let Some(path) = started.status.and_then(start::path) else {
        return ExitCode::SUCCESS;
    };
    match put_status(rt, path, number) {
        Ok(()) => ExitCode::SUCCESS,
        Err(_) => ExitCode::from((number % 256) as u8),
    }
}

fn put_status(rt: &impl Files, path: &str, status: u64) -> io::Result<()> {
    let mut file = OpenOptions::new().write(true).open(rt, path)?;
    write!(file, "{status}")
}

// Whether the program was given arguments of its own.
pub fn has_arguments(rt: &impl Env, started: Started) -> bool {
    has_argument(rt, started.first)
}

// Whether there is a word at that place among the arguments, where the program's name stands first.
fn has_argument(rt: &impl Env, place: usize) -> bool {
    !matches!(rt.arg(place, &mut []), Err(FillError::NotPresent))
}

// How many arguments there are, the program's name among them.
pub fn arg_count(rt: &impl Env) -> usize {
    for place in 0..usize::MAX {
        if !has_argument(rt, place) {
            return place;
        }
    }
    usize::MAX
}

// Puts an argument at the start of `word` and answers its length, or 0 where there is none or it is longer than that.
pub fn arg(rt: &impl Env, place: usize, word: &mut [u8]) -> usize
    ensures { IsPrefixLen result word.new }
{
    rt.arg(place, word).unwrap_or(0)
}

// Says on standard error how the program is used, which is the status then.
pub fn misused(rt: &impl EprintBytes, usage: &[u8]) -> Status {
    let _ = rt.eprint_bytes(usage);
    Status::Usage
}

// Says on standard error what failed and the system's word for it, which is the status then; where nobody reads, nothing is said.
pub fn failed(rt: &impl EprintBytes, what: &[u8], error: &io::Error) -> Status {
    if matches!(error.kind(), io::ErrorKind::BrokenPipe) {
        return Status::Unread;
    }
    let _ = stderr::put_failure(rt, what, error);
    Status::System
}
