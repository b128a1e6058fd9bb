// The code of a file: where it stands, by the file's ELF headers or as an operator says, and a window of it read.
#![tactic(auto)]

mod exact;
mod extents;
mod headers;
mod link;

use console::Status;
pub use exact::{read_at, write_at};
pub use extents::Extents;
pub use headers::{headers_of, linked};
use lines::part;
pub use link::text_of;
use message::{failed, refused};
use std::fs::File;
use std::io;
use window::Extent;

// An open file, how many bytes it has, and where its code stands.
#[derive(Drop)]
pub struct Guest {
    pub file: File,
    pub length: u64,
    pub extents: Extents,
}

// Opens a file that is no symbolic link, for reading, and finds how many bytes it has; that it can't be is said.
pub fn open(rt: &HostRuntime, name: &[u8]) -> Result<(File, u64), Status> {
    if link::is_link(rt, name) {
        return Err(refused(rt, name, b"a symbolic link: name the file itself"));
    }
    let file = open_read(rt, name).map_err(|error| failed(rt, name, &error))?;
    let length = exact::file_length(&file).map_err(|error| failed(rt, name, &error))?;
    Ok((file, length))
}

fn open_read(rt: &HostRuntime, name: &[u8]) -> io::Result<File> {
    File::open(rt, text_of(name)?)
}

impl Guest {
    // Reads a window: its code at its place, and zeros where it has none.
    pub fn load(&self, window: u64, code: &mut [u8]) -> io::Result<()> {
        code.fill(0);
        for extent in self.extents.as_slice() {
            self.load_part(*extent, window, code)?;
        }
        Ok(())
    }

    fn load_part(&self, extent: Extent, window: u64, code: &mut [u8]) -> io::Result<()> {
        let Some(shown) = window::part_of(extent, self.length, window) else {
            return Ok(());
        };
        let from = part::within(code, shown.first as usize);
        let to = part::end(code, shown.first, shown.size).unwrap_or(code.len());
        if to < from {
            return exact::ends_before();
        }
        read_at(&self.file, &mut code[from..to], shown.offset)
    }

    // Where in the file the sixteen bytes from an address on stand.
    pub fn place_of(&self, address: u64) -> Option<u64> {
        self.extents
            .as_slice()
            .iter()
            .find_map(|extent| window::place_of(*extent, self.length, address))
    }
}
