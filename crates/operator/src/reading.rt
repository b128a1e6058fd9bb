// How the options say that FILE is read, and whether that is as its layout says.
use crate::asked::Asked;
use crate::job::Job;
use crate::source::{ELF, RAW};
use console::Status;
use elf::Refusal;
use layout::Reading;
use message::say;
use std::fs;

const AS_ELF: Reading = Reading {
    kind: ELF,
    base: 0,
    offset: 0,
    length: 0,
};

// As the layout says, where no option says otherwise.
pub fn agreed(
    job: &Job,
    file: &fs::File,
    length: u64,
    reading: Reading,
) -> Result<Reading, Status> {
    if !job.asked.raw && !has_numbers(job.asked) {
        return Ok(reading);
    }
    let wanted = way_of(job, file, length)?;
    if layout::same_reading(wanted, reading) {
        return Ok(reading);
    }
    let mut line = [0u8; 8192];
    let end = put_both(&mut line, job.name, wanted, reading);
    say(job.rt, &line, end);
    Err(Status::Refused)
}

fn put_both(line: &mut [u8], name: &[u8], wanted: Reading, reading: Reading) -> usize {
    let start = text::put_text(line, 0, b"glindorsc: ");
    let next = text::put_text(line, start, name);
    let read = text::put_text(line, next, b": read as ");
    let first = put_reading(line, read, wanted);
    let stand = text::put_text(line, first, b", and patches stand in it read as ");
    let last = put_reading(line, stand, reading);
    text::put_byte(line, last, b'\n')
}

// A reading, in words.
pub fn put_reading(line: &mut [u8], at: usize, reading: Reading) -> usize {
    if reading.kind == ELF {
        return text::put_text(line, at, b"elf");
    }
    let next = text::put_text(line, at, b"raw, base ");
    let base = message::put_address(line, next, reading.base);
    let from = text::put_text(line, base, b", offset ");
    let offset = text::put_decimal(line, from, reading.offset);
    let long = text::put_text(line, offset, b", length ");
    text::put_decimal(line, long, reading.length)
}

fn has_numbers(asked: &Asked) -> bool {
    asked.base.is_some() || asked.offset.is_some() || asked.length.is_some()
}

// How the options read the file.
pub fn way_of(job: &Job, file: &fs::File, length: u64) -> Result<Reading, Status> {
    if job.asked.raw {
        return raw_way(job, length);
    }
    match guest::headers_of(file, length).map_err(|error| job.failed(&error))? {
        Ok(None) => raw_way(job, length),
        Ok(Some(_)) => elf_way(job),
        Err(why) => Err(refused(job, why)),
    }
}

fn elf_way(job: &Job) -> Result<Reading, Status> {
    if has_numbers(job.asked) {
        return Err(job.misused(
            b"an ELF file says itself where its code is; --raw reads it as raw bytes",
        ));
    }
    Ok(AS_ELF)
}

// Why an ELF file isn't taken.
fn refused(job: &Job, why: Refusal) -> Status {
    match why {
        Refusal::NotClass64 => job.refused(b"an ELF file that isn't of 64 bits"),
        Refusal::NotLittleEndian => job.refused(b"an ELF file that isn't little-endian"),
        Refusal::NotItanium => job.refused(b"an ELF file of another machine than Itanium"),
        Refusal::Relocatable => job.refused(
            b"a relocatable object: the linker writes its numbers; patch the linked file",
        ),
    }
}

fn raw_way(job: &Job, length: u64) -> Result<Reading, Status> {
    let base = job.number_or(job.asked.base, 0)?;
    let offset = job.number_or(job.asked.offset, 0)?;
    let size = job.number_or(job.asked.length, length.saturating_sub(offset))?;
    if base % 16 != 0 {
        return Err(job.misused(b"a base is a multiple of 16"));
    }
    Ok(Reading {
        kind: RAW,
        base,
        offset,
        length: size,
    })
}
