// The lock of a folder: a file that is made where none is, with the process that holds it and its host.
ghost use Rattle.std.specs.Prelude.{◌≤◌, length};

use crate::Folder;
use console::Status;
use lines::part;
use std::fs::{File, Metadata};
use std::io::ErrorKind;
use std::time::Duration;
use std::{fs, io};
use text::TAB;

const LOCK: [u8; 4] = *b"lock";

// While a lock is broken whose process is gone, this stands.
const BREAKING: [u8; 8] = *b"breaking";

// Room for a process and a host.
const ROOM: usize = 320;

// How often it is tried to make a lock, and how many tries are left when one that still says nothing was left so.
const TRIES: u64 = 1000;

const UNSAID: u64 = 500;

// Whose a lock is: nobody's, that of a process that is gone, or another's; or it says nothing yet, or can't be read.
#[derive(Clone, Copy, PartialEq, Eq)]
pub enum Owner {
    Nobody,
    Gone,
    Other,
    Unsaid,
    Unread,
}

impl Folder<'_> {
    // Takes the lock; that it isn't held is said.
    pub fn take(&self) -> Result<(), Status> {
        for left in (0..TRIES).rev() {
            match self.make_lock() {
                Ok(file) => return self.held(file),
                Err(error) => self.look(&error, left + 1)?,
            }
        }
        Err(self.busy())
    }

    fn make_lock(&self) -> io::Result<File> {
        self.make()?;
        self.create(&LOCK)
    }

    // Writes who holds the lock. One that was taken for left behind meanwhile is another's now.
    fn held(&self, file: File) -> Result<(), Status> {
        let mut own = [0u8; ROOM];
        let end = write_own(self.rt, file, &mut own).map_err(|error| self.not_held(&error))?;
        if self.is_said(&own[..end.min(ROOM)]) {
            Ok(())
        } else {
            Err(self.busy())
        }
    }

    fn not_held(&self, error: &io::Error) -> Status {
        let status = self.failed(error);
        let _ = self.remove(&LOCK);
        status
    }

    // Whether the lock says just that.
    fn is_said(&self, own: &[u8]) -> bool {
        let mut text = [0u8; ROOM];
        self.said_in(&mut text) == own
    }

    // What the lock says: no bytes where it can't be read.
    fn said_in<'b>(&self, text: &'b mut [u8]) -> &'b [u8] {
        let Ok(mut file) = self.open(&LOCK) else {
            return &[];
        };
        let count = read_some(&mut file, text);
        &text[..count]
    }

    // What is to be done where the lock couldn't be made, before it is tried again.
    fn look(&self, error: &io::Error, tries: u64) -> Result<(), Status> {
        if error.kind() != ErrorKind::AlreadyExists {
            return Err(self.failed(error));
        }
        match self.owner_of(&LOCK, tries) {
            Owner::Nobody => Ok(()),
            Owner::Gone => self.broken(tries),
            Owner::Unsaid => waited(self.rt),
            Owner::Other | Owner::Unread => Err(self.busy()),
        }
    }

    // Whose a lock is, with so many tries left.
    fn owner_of(&self, leaf: &[u8], tries: u64) -> Owner {
        match self.open(leaf) {
            Ok(file) => owner_by(self.rt, file, tries),
            Err(error) if error.kind() == ErrorKind::NotFound => Owner::Nobody,
            Err(_) => Owner::Unread,
        }
    }

    // Whose the lock is, to one who doesn't wait for it.
    pub fn owner(&self) -> Owner {
        self.owner_of(&LOCK, 0)
    }

    // Removes the lock of a process that is gone, while no other does: it is looked at again then.
    fn broken(&self, tries: u64) -> Result<(), Status> {
        match self.create(&BREAKING) {
            Ok(file) => self.broken_by(file, tries),
            Err(error) => self.breaking(&error, tries),
        }
    }

    fn broken_by(&self, file: File, tries: u64) -> Result<(), Status> {
        let mut own = [0u8; ROOM];
        let _ = write_own(self.rt, file, &mut own);
        if self.owner_of(&LOCK, tries) == Owner::Gone {
            let _ = self.remove(&LOCK);
        }
        let _ = self.remove(&BREAKING);
        Ok(())
    }

    // The same where another was at it.
    fn breaking(&self, error: &io::Error, tries: u64) -> Result<(), Status> {
        if error.kind() != ErrorKind::AlreadyExists {
            return Err(self.failed(error));
        }
        if self.owner_of(&BREAKING, tries) == Owner::Gone {
            let _ = self.remove(&BREAKING);
            return Ok(());
        }
        waited(self.rt)
    }

    // Says who has the lock, which is the status then.
    fn busy(&self) -> Status {
        let mut text = [0u8; ROOM];
        let mut line = [0u8; 8192];
        let end = put_busy(&mut line, self.name, self.said_in(&mut text));
        message::say(self.rt, &line, end);
        Status::Locked
    }

    // Gives the lock back; a folder in which nothing stands goes, too.
    pub fn give_back(&self) {
        let _ = self.remove(&LOCK);
        self.remove_self();
    }
}

fn write_own(rt: &HostRuntime, mut file: File, text: &mut [u8]) -> io::Result<usize> {
    let end = put_own(rt, text)?;
    console::write_all(&mut file, text, end)?;
    Ok(end)
}

// This process and its host.
fn put_own(rt: &HostRuntime, out: &mut [u8]) -> io::Result<usize> {
    let mut host = [0u8; 256];
    read_host(rt, &mut host)?;
    let id = std::process::id(rt.process());
    let next = text::put_field(out, 0, u64::from(id), TAB);
    let end = put_host(out, next, &host);
    Ok(text::put_byte(out, end, b'\n'))
}

// The host's name and a line's end, where the system tells it.
fn read_host(rt: &HostRuntime, host: &mut [u8]) -> io::Result<()> {
    match File::open(rt, "/proc/sys/kernel/hostname") {
        Ok(file) => read_name(file, host),
        Err(error) if error.kind() == ErrorKind::NotFound => Ok(()),
        Err(error) => Err(error),
    }
}

fn read_name(mut file: File, host: &mut [u8]) -> io::Result<()> {
    match console::read_all(&mut file, host) {
        Ok(_) => Ok(()),
        Err(cut) => Err(cut.error),
    }
}

fn put_host(out: &mut [u8], at: usize, host: &[u8]) -> usize {
    let name = &host[..part::first(host, 0, b'\n')];
    text::put_text(out, at, &name[..part::first(name, 0, 0)])
}

fn waited(rt: &HostRuntime) -> Result<(), Status> {
    let _ = std::thread::sleep(rt, Duration::from_micros(1));
    Ok(())
}

// Reads a file as far as it can be, and answers how many bytes that were.
fn read_some(file: &mut File, bytes: &mut [u8]) -> usize
    ensures { result ≤ length bytes.new }
{
    match console::read_all(file, bytes) {
        Ok(count) => count,
        Err(cut) => cut.count,
    }
}

fn owner_by(rt: &HostRuntime, mut file: File, tries: u64) -> Owner {
    let mut text = [0u8; ROOM];
    match read_some(&mut file, &mut text) {
        0 if tries < UNSAID => Owner::Gone,
        0 => Owner::Unsaid,
        n => owner_in(rt, &text[..n]),
    }
}

fn owner_in(rt: &HostRuntime, text: &[u8]) -> Owner {
    let Some((id, next)) = text::read_decimal(text, 0) else {
        return Owner::Other;
    };
    if is_here(rt, &text[next.min(text.len())..]) && is_gone(rt, id) {
        Owner::Gone
    } else {
        Owner::Other
    }
}

// Whether what stands after a process is this host.
fn is_here(rt: &HostRuntime, host: &[u8]) -> bool {
    let mut own = [0u8; ROOM];
    match put_own(rt, &mut own) {
        Ok(end) => is_host(host, &own[..end.min(ROOM)]),
        Err(_) => false,
    }
}

fn is_host(host: &[u8], own: &[u8]) -> bool {
    let from = part::first(own, 0, TAB);
    &own[from..] == host
}

// Whether no process has that number. Where the system doesn't show even the first, that can't be told.
fn is_gone(rt: &HostRuntime, id: u64) -> bool {
    if id == 0 || 0x7fff_ffff < id || shown(rt, 1).is_err() {
        return false;
    }
    match shown(rt, id) {
        Ok(_) => false,
        Err(error) => error.kind() == ErrorKind::NotFound,
    }
}

// What the system shows of a process.
fn shown(rt: &HostRuntime, id: u64) -> io::Result<Metadata> {
    let mut path = [0u8; 32];
    let next = text::put_text(&mut path, 0, b"/proc/");
    let end = text::put_decimal(&mut path, next, id);
    let n = part::within(&path, end);
    fs::metadata(rt, guest::text_of(&path[..n])?)
}

fn put_busy(line: &mut [u8], name: &[u8], owner: &[u8]) -> usize {
    let start = text::put_text(line, 0, b"glindorsc: ");
    let next = text::put_text(line, start, name);
    let by = text::put_text(line, next, b": locked by process and host ");
    let last = text::put_text(line, by, owner);
    if owner.is_empty() {
        return text::put_byte(line, last, b'\n');
    }
    last
}
