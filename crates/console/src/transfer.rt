// Bytes read and written. A call that a signal interrupts is made again.
ghost use Rattle.std.specs.Prelude.{◌≡◌, IfOk, MatchResult};
ghost use Rattle.std.specs.Counts.{IsPrefixLen};

use std::io;
use std::io::{ErrorKind, Read, Write};

// How often a call is made again: a proved loop has to end.
const TRIES: u64 = 1000;

// Why not all was read, and how many bytes were.
#[derive(Drop)]
pub struct CutOff {
    pub error: io::Error,
    pub count: usize,
}

// Reads up to the file's end, or as far as there is room, and answers how many bytes.
pub fn read_all<F: Read>(file: &mut F, bytes: &mut [u8]) -> Result<usize, CutOff>
    ensures { MatchResult result (λ n. IsPrefixLen n bytes.new) (λ e. IsPrefixLen e.count bytes.new) }
{
    let mut count = 0;
    while count < bytes.len() {
        match read(file, &mut bytes[count..]) {
            Ok(0) => return Ok(count),
            Ok(more) => count += more,
            Err(error) => return Err(CutOff { error, count }),
        }
    }
    Ok(count)
}

// Reads once, and again where a signal interrupts that: no byte is the file's end.
pub fn read<F: Read>(file: &mut F, bytes: &mut [u8]) -> io::Result<usize>
    ensures { IfOk result (λ n. IsPrefixLen n bytes.new) }
{
    for _ in 0..TRIES {
        let got = file.read(bytes);
        if !is_interrupted(&got) {
            return got;
        }
    }
    file.read(bytes)
}

// Writes the bytes up to `end`, or all where there are fewer, and answers whether they are written.
pub fn write_all<F: Write>(file: &mut F, bytes: &[u8], end: usize) -> io::Result<()> {
    if end < bytes.len() {
        return write_whole(file, &bytes[0..end]);
    }
    write_whole(file, bytes)
}

fn write_whole<F: Write>(file: &mut F, bytes: &[u8]) -> io::Result<()> {
    let mut rest = bytes;
    while !rest.is_empty() {
        let put = write(file, rest)?;
        if put == 0 {
            return Err(io::Error::from(ErrorKind::WriteZero));
        }
        rest = &rest[put..];
    }
    Ok(())
}

// Writes once, and again where a signal interrupts that; answers how many bytes are written.
fn write<F: Write>(file: &mut F, bytes: &[u8]) -> io::Result<usize>
    ensures { IfOk result (λ n. IsPrefixLen n bytes.now) }
{
    for _ in 0..TRIES {
        let put = file.write(bytes);
        if !is_interrupted(&put) {
            return put;
        }
    }
    file.write(bytes)
}

// Whether a call that answered so was interrupted.
fn is_interrupted(got: &io::Result<usize>) -> bool {
    matches!(got, Err(error) if error.kind() == ErrorKind::Interrupted)
}
