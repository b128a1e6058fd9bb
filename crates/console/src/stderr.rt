// Standard error, as bytes that need not be text.
ghost use Rattle.std.specs.Prelude.{◌≤◌, length};

use std::io;
use std::io::{Cursor, Print, Write};

// Prints bytes on standard error.
pub trait EprintBytes {
    fn eprint_bytes(&self, bytes: &[u8]) -> io::Result<()>;
}

impl EprintBytes for HostRuntime {
    fn eprint_bytes(&self, bytes: &[u8]) -> io::Result<()> {
        Print::write_all(&self.stderr(), bytes)
    }
}

impl<R: EprintBytes> EprintBytes for &R {
    fn eprint_bytes(&self, bytes: &[u8]) -> io::Result<()> {
        (**self).eprint_bytes(bytes)
    }
}

// A line: what failed, and the system's word for it.
pub fn put_failure(rt: &impl EprintBytes, what: &[u8], error: &io::Error) -> io::Result<()> {
    let mut words = Cursor::new([0u8; 256]);
    write!(words, "{error}")?;
    let text = words.into_inner();
    rt.eprint_bytes(what)?;
    rt.eprint_bytes(b": ")?;
    rt.eprint_bytes(&text[..end_of_words(&text)])?;
    rt.eprint_bytes(b"\n")
}

// Where the words end that come before the error's number, as in `No such file or directory (os error 2)`, or the text without one.
fn end_of_words(text: &[u8]) -> usize
    ensures { result ≤ length text.now }
{
    for end in 0..text.len() {
        if text[end] == 0 || text[end..].starts_with(b" (os error ") {
            return end;
        }
    }
    text.len()
}
