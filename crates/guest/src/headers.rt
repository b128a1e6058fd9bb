// What a file's headers say: whether it is an ELF file, and the extents of one's code.
ghost use Rattle.std.specs.Prelude.{◌≤◌};

use crate::exact::read_at;
use crate::extents::Extents;
use console::Status;
use elf::{Refusal, Table, Tables};
use message::{failed, refused};
use std::{fs, io};
use window::Extent;

// Where an ELF file's headers stand, or why it isn't taken; of another file nothing.
pub fn headers_of(file: &fs::File, length: u64) -> io::Result<Result<Option<Tables>, Refusal>> {
    if length < elf::HEADER as u64 {
        return Ok(Ok(None));
    }
    let mut head = [0u8; elf::HEADER];
    read_at(file, &mut head, 0)?;
    Ok(elf::header(&head))
}

// The extents of a linked file's code: its sections, or where it has no section headers its segments.
pub fn linked(
    rt: &HostRuntime,
    name: &[u8],
    file: &fs::File,
    length: u64,
    tables: Tables,
) -> Result<Extents, Status> {
    if tables.sections.count == 0 {
        let size = elf::SEGMENT;
        return of_table(rt, name, file, length, tables.segments, size, elf::segment);
    }
    let size = elf::SECTION;
    of_table(rt, name, file, length, tables.sections, size, elf::section)
}

// The longest header.
const LONGEST: usize = 64;

// The extents that are code, by headers of so many bytes.
fn of_table<F: Fn(&[u8]) -> Option<Extent>>(
    rt: &HostRuntime,
    name: &[u8],
    file: &fs::File,
    length: u64,
    table: Table,
    size: usize,
    read: F,
) -> Result<Extents, Status>
    requires fits { size ≤ 64 }
    requires reads { F.IsAlwaysCallable read }
{
    let mut extents = Extents::new();
    for k in 0..table.count {
        let Some(place) = elf::entry_of(table, k, size as u64, length) else {
            return Err(refused(rt, name, b"a header of the ELF file lies past its end"));
        };
        let mut bytes = [0u8; LONGEST];
        let head = &mut bytes[..size];
        if let Err(error) = read_at(file, head, place) {
            failed(rt, name, &error);
            return Err(Status::Refused);
        }
        if let Some(extent) = read(head) {
            extents.add(rt, name, length, extent)?;
        }
    }
    Ok(extents)
}
