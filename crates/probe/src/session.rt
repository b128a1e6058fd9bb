// The run over standard input: read in blocks, answered line by line, written in blocks.
ghost use Rattle.std.specs.Prelude.{◌≤◌, IfSome, length};

use crate::calls::Work;
use crate::command;
use console::Status;
use lines::part;
use std::io;
use std::ops::Range;

// The longest line that is answered.
const LONGEST: usize = 400000;

// Output that goes on up to here has room for an answer more.
const FULL: usize = 131072;

// How far the run has come.
#[derive(Drop)]
struct Progress {
    // how many bytes of input are held, and where those begin that are not answered yet
    held: usize,
    from: usize,
    // whether the start of the line at hand is gone, since there was no room for it
    cut: bool,
    // how many bytes of output are not written yet
    at: usize,
    // the exit status, once the input has ended or the system failed
    status: Option<Status>,
}

// A proved loop has to end, and nothing says that the input does: it has as many turns as no run uses up.
pub fn run(rt: &HostRuntime, text: &mut [u8], work: &mut Work<'_>, out: &mut [u8]) -> Status {
    let mut progress = Progress {
        held: 0,
        from: 0,
        cut: false,
        at: 0,
        status: None,
    };
    for _ in 0..u64::MAX {
        if let Some(status) = progress.status {
            return status;
        }
        match progress.line(text) {
            Some(line) => {
                let at = progress.flushed(rt, out);
                let line = &text[line];
                progress.at = command::answer(line, work, out, at);
            }
            None => progress.more(rt, text, out),
        }
    }
    Status::Done
}

impl Progress {
    // The next line that is held, as far as it is answered: of one that is cut or too long, nothing is.
    fn line(&mut self, text: &[u8]) -> Option<Range<usize>>
        ensures { IfSome result (λ line. (line.start ≤ line.end) × (line.end ≤ length text.now)) }
    {
        let held = part::within(text, self.held);
        let from = self.from.min(held);
        let rest = &text[from..held];
        let length = part::first(rest, 0, b'\n');
        if length == rest.len() {
            return None;
        }
        let skipped = self.cut || LONGEST < length;
        self.from = from + length + 1;
        self.cut = false;
        Some(from..if skipped { from } else { from + length })
    }

    // Writes the answers, and reads once more where that can be done.
    fn more(&mut self, rt: &HostRuntime, text: &mut [u8], out: &mut [u8]) {
        self.write(rt, out, self.at);
        self.at = 0;
        if self.status.is_none() {
            self.take(rt, text, out);
        }
    }

    // Reads once after the bytes that are held and not answered.
    fn take(&mut self, rt: &HostRuntime, text: &mut [u8], out: &mut [u8]) {
        let left = self.moved(text);
        let count = match read(rt, text, left) {
            Ok(count) => count,
            Err(error) => return self.fail(rt, b"probe: standard input", &error),
        };
        self.held = count;
        self.from = 0;
        if count == left {
            self.last(rt, left, out);
        }
    }

    // What isn't answered goes to the text's front; its length. Where no line ends in the whole of the text, it is dropped.
    fn moved(&mut self, text: &mut [u8]) -> usize {
        let held = part::within(text, self.held);
        let from = self.from.min(held);
        if from == 0 && held == text.len() {
            self.cut = true;
            return 0;
        }
        part::shift(&mut text[..held], from);
        held - from
    }

    // What stands after the last newline is no line.
    fn last(&mut self, rt: &HostRuntime, left: usize, out: &mut [u8]) {
        self.status = Some(Status::Done);
        if self.cut || 0 < left {
            let to = command::ended(out, 0, None);
            self.write(rt, out, to);
        }
    }

    // Writes the output where it could have no room for another answer, and answers where it stands then.
    fn flushed(&mut self, rt: &HostRuntime, out: &[u8]) -> usize {
        if self.at < FULL {
            return self.at;
        }
        self.write(rt, out, self.at);
        0
    }

    fn write(&mut self, rt: &HostRuntime, out: &[u8], at: usize) {
        if let Err(error) = console::write_all(&mut rt.stdout(), out, at) {
            self.fail(rt, b"probe: standard output", &error);
        }
    }

    // The system failed, which is said, and the run is over.
    fn fail(&mut self, rt: &HostRuntime, what: &[u8], error: &io::Error) {
        self.status = Some(console::failed(rt, what, error));
    }
}

// Reads once after the bytes that are held, and counts those that are held then.
fn read(rt: &HostRuntime, text: &mut [u8], held: usize) -> io::Result<usize> {
    let from = part::within(text, held);
    let count = console::read(&mut rt.stdin(), &mut text[from..])?;
    Ok(from + count)
}
