// All bytes of a slice, read from a place of a file or written there. As std's read_exact_at and write_all_at, but for the words where the
// file ends before, and a call that a signal interrupts fails.
use std::fs::File;
use std::io;
use std::io::{ErrorKind, Seek, SeekFrom};
use std::os::unix::fs::FileExt;

// How many bytes a file has.
pub fn file_length(file: &File) -> io::Result<u64> {
    let mut end = file;
    end.seek(SeekFrom::End(0))
}

// A file's offset, so many bytes past a place.
fn offset(place: u64, done: usize) -> u64 {
    place.wrapping_add(done as u64)
}

// Reads all of the slice from a place on.
pub fn read_at(file: &File, bytes: &mut [u8], place: u64) -> io::Result<()> {
    let mut done = 0;
    while done < bytes.len() {
        let more = file.read_at(&mut bytes[done..], offset(place, done))?;
        if more == 0 {
            return ends_before();
        }
        done += more;
    }
    Ok(())
}

// Writes all of the slice from a place on.
pub fn write_at(file: &File, bytes: &[u8], place: u64) -> io::Result<()> {
    let mut done = 0;
    while done < bytes.len() {
        let more = file.write_at(&bytes[done..], offset(place, done))?;
        if more == 0 {
            return ends_before();
        }
        done += more;
    }
    Ok(())
}

// The file ends before the bytes do.
pub fn ends_before() -> io::Result<()> {
    Err(io::Error::from(ErrorKind::UnexpectedEof))
}
