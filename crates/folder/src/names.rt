// The files of the folder, by their names.
use crate::Folder;
use guest::text_of;
use std::fs::File;
use std::io::ErrorKind;
use std::{fs, io};
use text::put_text;

// A path has fewer bytes.
const PATH_MAX: usize = 4096;

impl Folder<'_> {
    // The path of a file in the folder, or where that has no name of the folder, with room for it.
    fn path<'b>(&self, path: &'b mut [u8; PATH_MAX], leaf: &[u8]) -> io::Result<&'b str> {
        let next = put_text(path, 0, self.name);
        let slash = put_text(path, next, b".patches/");
        let end = put_text(path, slash, leaf);
        text_of(&path[..end.min(PATH_MAX)])
    }

    pub(crate) fn open(&self, leaf: &[u8]) -> io::Result<File> {
        let mut path = [0u8; PATH_MAX];
        File::open(self.rt, self.path(&mut path, leaf)?)
    }

    // Opens a file to be written anew.
    pub(crate) fn open_anew(&self, leaf: &[u8]) -> io::Result<File> {
        let mut path = [0u8; PATH_MAX];
        File::create(self.rt, self.path(&mut path, leaf)?)
    }

    // Makes a file that isn't there yet.
    pub(crate) fn create(&self, leaf: &[u8]) -> io::Result<File> {
        let mut path = [0u8; PATH_MAX];
        let text = self.path(&mut path, leaf)?;
        File::options()
            .write(true)
            .create_new(true)
            .open(self.rt, text)
    }

    // Removes a file, where it is there.
    pub(crate) fn remove(&self, leaf: &[u8]) -> io::Result<()> {
        let mut path = [0u8; PATH_MAX];
        let text = self.path(&mut path, leaf)?;
        unless(fs::remove_file(self.rt, text), ErrorKind::NotFound)
    }

    pub(crate) fn rename(&self, leaf: &[u8], to: &[u8]) -> io::Result<()> {
        let mut path = [0u8; PATH_MAX];
        let mut path_to = [0u8; PATH_MAX];
        let from = self.path(&mut path, leaf)?;
        fs::rename(self.rt, from, self.path(&mut path_to, to)?)
    }

    // Makes the folder, where it isn't there; its own entry is synced.
    pub(crate) fn make(&self) -> io::Result<()> {
        let mut path = [0u8; PATH_MAX];
        match fs::create_dir(self.rt, self.path(&mut path, b"")?) {
            Ok(()) => self.sync_parent(),
            Err(error) => unless(Err(error), ErrorKind::AlreadyExists),
        }
    }

    // Removes the folder, where nothing stands in it.
    pub(crate) fn remove_self(&self) {
        let mut path = [0u8; PATH_MAX];
        if let Ok(text) = self.path(&mut path, b"") {
            let _ = fs::remove_dir(self.rt, text);
        }
    }

    // Sees to it that the folder's entries are on the disk.
    pub(crate) fn sync(&self) -> io::Result<()> {
        self.open(b"")?.sync_all()
    }

    // The same of the folder that FILE stands in.
    fn sync_parent(&self) -> io::Result<()> {
        File::open(self.rt, parent_of(self.name)?)?.sync_all()
    }
}

// An error of that kind is none.
fn unless(done: io::Result<()>, kind: ErrorKind) -> io::Result<()> {
    match done {
        Err(error) if error.kind() == kind => Ok(()),
        other => other,
    }
}

// The folder that a file stands in.
fn parent_of(name: &[u8]) -> io::Result<&str> {
    match name.iter().rposition(|byte| *byte == b'/') {
        Some(slash) => text_of(&name[..slash + 1]),
        None => Ok("."),
    }
}
