// What is said of a call that was refused: the file, the address, the answer by number and name, and what would be right.
use crate::job::Job;
use answer::Refusal;
use console::Status;
use form::Form;
use message::{put_answer, put_takes};
use text::put_text;

impl Job<'_> {
    // Says it, which is the status then.
    pub fn refuse(&self, address: u64, answer: Refusal, form: Form) -> Status {
        let mut line = [0u8; 8192];
        let end = put_refusal(&mut line, self.name, address, answer, form);
        message::say(self.rt, &line, end);
        Status::Refused
    }
}

fn put_refusal(line: &mut [u8], name: &[u8], address: u64, answer: Refusal, form: Form) -> usize {
    let at = put_place(line, name, address);
    let number = put_answer(line, at, answer);
    let colon = put_text(line, number, b": ");
    let end = put_right(line, colon, answer, form);
    text::put_byte(line, end, b'\n')
}

// As `glindorsc: guest: 0x4052: `.
pub fn put_place(line: &mut [u8], name: &[u8], address: u64) -> usize {
    let start = put_text(line, 0, b"glindorsc: ");
    let file = put_text(line, start, name);
    let colon = put_text(line, file, b": ");
    let next = message::put_address(line, colon, address);
    put_text(line, next, b": ")
}

fn put_right(line: &mut [u8], at: usize, answer: Refusal, form: Form) -> usize {
    match answer {
        Refusal::ExhaustedInput => put_text(line, at, b"no code stands there"),
        Refusal::BadBundle => put_text(line, at, b"the bundle's template is reserved"),
        Refusal::BadForm => put_formed(line, at, form, b" has no such number"),
        Refusal::BadSlot => put_formed(line, at, form, b" doesn't fit that slot"),
        Refusal::BadValue => put_takes(line, at, form),
        Refusal::Full => put_text(
            line,
            at,
            b"1,024 patches stand in this window: fold or undo some",
        ),
        Refusal::Empty => put_text(line, at, b"no patch stands there"),
        Refusal::BadOpcode => put_formed(
            line,
            at,
            form,
            b" isn't the form of the word there (list shows it); --plain doesn't ask",
        ),
        Refusal::Retired => put_formed(
            line,
            at,
            form,
            b" is of break, nop or hint, whose numbers aren't patched any more",
        ),
        Refusal::BadSheet => put_text(line, at, b"the window's sheet isn't one"),
        _ => put_text(line, at, b"the window's sheet or code can't be worked with"),
    }
}

fn put_formed(line: &mut [u8], at: usize, form: Form, words: &[u8]) -> usize {
    let next = name::put_name(line, at, form);
    put_text(line, next, words)
}
