// A command as it is done: what was asked of which file, its words, and what is said of the file and printed.
use crate::asked::{Asked, Command};
use console::Status;
use folder::Folder;
use form::Form;
use operand::Operand;
use std::io;
use words::{Given, Place};

#[derive(Clone, Copy)]
pub struct Job<'a> {
    pub rt: &'a HostRuntime,
    pub asked: &'a Asked,
    pub command: Command,
    pub name: &'a [u8],
}

impl Job<'_> {
    // The folder beside FILE.
    pub fn folder(&self) -> Folder<'_> {
        Folder {
            rt: self.rt,
            name: self.name,
        }
    }

    pub fn said(&self, words: &[u8]) {
        message::said(self.rt, self.name, words);
    }

    // What is said where FILE is refused, which is the status then.
    pub fn refused(&self, words: &[u8]) -> Status {
        message::refused(self.rt, self.name, words)
    }

    // What is said where the words after FILE are wrong.
    pub fn misused(&self, words: &[u8]) -> Status {
        self.said(words);
        Status::Usage
    }

    // What the system says of FILE.
    pub fn failed(&self, error: &io::Error) -> Status {
        message::failed(self.rt, self.name, error)
    }

    // Writes what was asked for.
    pub fn printed(&self, out: &[u8], end: usize) -> Result<(), Status> {
        console::write_all(&mut io::writer(self.rt), out, end).map_err(|error| console::failed(
            self.rt,
            b"glindorsc: standard output",
            &error,
        ))
    }

    // The bundle's address and the slot that an argument is.
    pub fn place(&self, at: Option<usize>) -> Result<Place, Status> {
        let mut word = [0u8; 4096];
        match words::place(self.word(at, &mut word)) {
            Some(place) => Ok(place),
            None => Err(self.misused(
                b"an ADDRESS is that of a bundle, plus 0, 1 or 2 for the slot: decimal, or hex after 0x",
            )),
        }
    }

    // The form that an argument is.
    pub fn form(&self, at: Option<usize>) -> Result<Form, Status> {
        let mut word = [0u8; 4096];
        match words::form(self.word(at, &mut word)) {
            Some(form) => Ok(form),
            None => { Err(self.misused(b"a FORM is a family's letter and a number, as B3")) }
        }
    }

    // The value of a form that an argument is, or none.
    pub fn value(&self, at: Option<usize>, form: Form) -> Operand {
        let mut word = [0u8; 4096];
        words::value(form, self.word(at, &mut word))
    }

    // The number that an argument is.
    pub fn number(&self, at: Option<usize>) -> Result<u64, Status> {
        let mut word = [0u8; 4096];
        match words::number(self.word(at, &mut word)) {
            Some(Given::Unsigned(number)) => Ok(number),
            Some(Given::Negative(_)) | None => Err(self.misused(
                b"--base, --offset, --length, COUNT and TARGET are numbers: decimal, or hex after 0x",
            )),
        }
    }

    // The number that an argument is, where there is one, and else the other.
    pub fn number_or(&self, at: Option<usize>, other: u64) -> Result<u64, Status> {
        if at.is_none() {
            return Ok(other);
        }
        self.number(at)
    }

    // An argument, or no bytes where there is none.
    fn word<'b>(&self, at: Option<usize>, word: &'b mut [u8]) -> &'b [u8] {
        let length = match at {
            Some(place) => console::arg(self.rt, place, word),
            None => 0,
        };
        &word[..length]
    }
}
