// Texts in the folder, read and replaced whole.
use crate::Folder;
use console::Status;
use std::fs::File;
use std::io;
use std::io::ErrorKind;

impl Folder<'_> {
    // A text, where there is such a file; that it can't be read is said.
    pub(crate) fn read<'b>(
        &self,
        leaf: &[u8],
        bytes: &'b mut [u8],
    ) -> Result<Option<&'b [u8]>, Status> {
        match self.open(leaf) {
            Ok(file) => self.read_of(file, bytes).map(Some),
            Err(error) if error.kind() == ErrorKind::NotFound => Ok(None),
            Err(error) => Err(self.failed(&error)),
        }
    }

    fn read_of<'b>(&self, mut file: File, bytes: &'b mut [u8]) -> Result<&'b [u8], Status> {
        let count = console::read_all(&mut file, bytes).map_err(|cut| self.failed(&cut.error))?;
        if bytes.len() <= count {
            self.said(b"a file in its folder is longer than any that is written there");
            return Err(Status::System);
        }
        Ok(&bytes[..count])
    }

    // Puts a text on the disk, in a file of that name.
    pub(crate) fn write(&self, leaf: &[u8], bytes: &[u8]) -> io::Result<()> {
        let mut file = self.open_anew(leaf)?;
        console::write_all(&mut file, bytes, bytes.len())?;
        file.sync_all()
    }

    // Makes a file have a text, all of it or as it was; of no bytes, sees to it that there is no such file.
    pub(crate) fn replace(&self, leaf: &[u8], bytes: &[u8]) -> io::Result<()> {
        if bytes.is_empty() {
            return self.remove(leaf);
        }
        self.write(b"new", bytes)?;
        self.rename(b"new", leaf)
    }
}
