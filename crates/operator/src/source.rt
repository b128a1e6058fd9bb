// FILE as a command reads it: as the layout says, where patches stand in it, and else by its headers or the options.
use crate::job::Job;
use crate::reading::{agreed, way_of};
use crate::room;
use console::Status;
use guest::{Extents, Guest};
use layout::Reading;
use std::fs;
use window::Extent;

pub const ELF: u64 = 0;

pub const RAW: u64 = 1;

// The file with its code, and how it is read.
#[derive(Drop)]
pub struct Source {
    pub guest: Guest,
    pub reading: Reading,
}

impl Source {
    // Opens FILE and finds its code.
    pub fn open(job: &Job) -> Result<Source, Status> {
        let (file, length) = guest::open(job.rt, job.name)?;
        let reading = by_layout(job, &file, length)?;
        let extents = extents_of(job, &file, length, reading)?;
        if extents.as_slice().is_empty() {
            return Err(job.refused(b"no code in it"));
        }
        let guest = Guest {
            file,
            length,
            extents,
        };
        Ok(Source { guest, reading })
    }
}

// How the layout says that the file is read, and where there is none the options.
fn by_layout(job: &Job, file: &fs::File, length: u64) -> Result<Reading, Status> {
    let mut layout = room::sheet();
    match job.folder().read_layout(&mut layout)? {
        Some(text) => by_text(job, file, length, text),
        None => way_of(job, file, length),
    }
}

fn by_text(job: &Job, file: &fs::File, length: u64, layout: &[u8]) -> Result<Reading, Status> {
    match layout::look(layout) {
        Some(found) => agreed(job, file, length, found.reading),
        None => Err(no_layout(job)),
    }
}

pub fn no_layout(job: &Job) -> Status {
    job.refused(b"13 BadSheet: the layout in its folder can't be read")
}

fn extents_of(
    job: &Job,
    file: &fs::File,
    length: u64,
    reading: Reading,
) -> Result<Extents, Status> {
    if reading.kind == ELF {
        return of_elf(job, file, length);
    }
    of_raw(job, length, reading)
}

fn of_raw(job: &Job, length: u64, reading: Reading) -> Result<Extents, Status> {
    let mut extents = Extents::new();
    let extent = Extent {
        code: true,
        address: reading.base,
        offset: reading.offset,
        size: reading.length,
    };
    extents.add(job.rt, job.name, length, extent)?;
    Ok(extents)
}

// A header that can't be read is a refusal here.
fn of_elf(job: &Job, file: &fs::File, length: u64) -> Result<Extents, Status> {
    match guest::headers_of(file, length) {
        Ok(Ok(Some(tables))) => guest::linked(job.rt, job.name, file, length, tables),
        Ok(_) => Err(job.refused(
            b"patches stand in it read as an ELF file, and it is none any more",
        )),
        Err(error) => {
            job.failed(&error);
            Err(Status::Refused)
        }
    }
}
