// A name as the system takes it, and whether it is that of a symbolic link.
use std::{fs, io};

// The system's word for bytes that are no text.
const EILSEQ: i32 = 84;

// A name as text, which a path is here.
pub fn text_of(name: &[u8]) -> io::Result<&str> {
    std::str::from_utf8(name).map_err(|_| io::Error::from_raw_os_error(EILSEQ))
}

pub fn is_link(rt: &HostRuntime, name: &[u8]) -> bool {
    let Ok(text) = text_of(name) else {
        return false;
    };
    match fs::symlink_metadata(rt, text) {
        Ok(found) => found.is_symlink(),
        Err(_) => false,
    }
}
