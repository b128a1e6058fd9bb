// What stands beside FILE, in the folder FILE.patches: a sheet for each window, the layout, and while it is worked in the lock and the redo
// file of a commit.
#![tactic(auto)]

mod commits;
mod files;
mod lock;
mod names;

pub use commits::{Commit, address_of, differs, halves};
use console::Status;
pub use lock::Owner;
use std::io;

// The folder of the file of a name.
#[derive(Clone, Copy)]
pub struct Folder<'a> {
    pub rt: &'a HostRuntime,
    pub name: &'a [u8],
}

impl Folder<'_> {
    // Reads the layout, where there is one; that it can't be read is said.
    pub fn read_layout<'b>(&self, bytes: &'b mut [u8]) -> Result<Option<&'b [u8]>, Status> {
        self.read(b"layout", bytes)
    }

    // Reads a window's sheet, where there is one; that it can't be read is said.
    pub fn read_sheet<'b>(
        &self,
        window: u64,
        bytes: &'b mut [u8],
    ) -> Result<Option<&'b [u8]>, Status> {
        self.read(&commits::leaf_of(window), bytes)
    }

    fn said(&self, words: &[u8]) {
        message::said(self.rt, self.name, words);
    }

    fn refused(&self, words: &[u8]) -> Status {
        message::refused(self.rt, self.name, words)
    }

    fn failed(&self, error: &io::Error) -> Status {
        message::failed(self.rt, self.name, error)
    }
}
