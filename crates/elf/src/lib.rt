// What an ELF64 little-endian Itanium file says of its code: in its header, in a section header, in a program header.
#![tactic(auto)]

ghost use Rattle.std.specs.Prelude.{◌≡◌, ◌+◌, ◌*◌, ◌≤◌, ◌<◌, leb, length};
ghost use Rattle.answer.specs.Answer.{first};
ghost use Rattle.elf.specs.Elf.{is_elf, elf_refusals, as_taken, as_header, tables_of, elf_header, header_place, Lies, part_by, section_of, segment_of};
ghost use Rattle.elf.specs.Elf.{field};

use window::Extent;

// How many bytes a header, a section header and a program header have.
pub const HEADER: usize = 64;

pub const SECTION: usize = 64;

pub const SEGMENT: usize = 56;

// Why an ELF file can't be taken.
#[derive(Clone, Copy, PartialEq, Eq)]
pub enum Refusal {
    NotClass64,
    NotLittleEndian,
    NotItanium,
    Relocatable,
}

// The first four bytes, 7f and ELF, as a number.
const MAGIC: u64 = 0x464c457f;

const ITANIUM: u64 = 50;

// So many headers of a size, from an offset on.
#[derive(Clone, Copy)]
pub struct Table {
    pub offset: u64,
    pub size: u64,
    pub count: u64,
}

#[derive(Clone, Copy)]
pub struct Tables {
    pub sections: Table,
    pub segments: Table,
}

// Where a header of a part has its kind, its flags of so many bytes and among them the bit of what is executed, and its part's offset.
#[derive(Clone, Copy)]
struct Fields {
    header: usize,
    kind: usize,
    flags: usize,
    width: usize,
    executed: u64,
    offset: usize,
}

const OF_SECTION: Fields = Fields {
    header: SECTION,
    kind: 4,
    flags: 8,
    width: 8,
    executed: 2,
    offset: 24,
};

const OF_SEGMENT: Fields = Fields {
    header: SEGMENT,
    kind: 0,
    flags: 4,
    width: 4,
    executed: 0,
    offset: 8,
};

// What a file's first 64 bytes say: where a linked file's headers stand; of one that is no ELF file nothing.
pub fn header(bytes: &[u8]) -> Result<Option<Tables>, Refusal>
    ensures { as_header result ≡ elf_header bytes.now }
{
    if !is_elf(bytes) {
        return Ok(None);
    }
    taken(bytes)?;
    Ok(Some(tables_of(bytes)))
}

// Whether they are those of an ELF file.
fn is_elf(bytes: &[u8]) -> bool
    ensures { result ≡ is_elf bytes.now }
{
    if bytes.len() < HEADER {
        return false;
    }
    field(bytes, 0, 4) == MAGIC
}

// Whether an ELF file can be taken; where it can't, the first refusal that applies.
fn taken(bytes: &[u8]) -> Result<(), Refusal>
    requires { 64 ≤ length bytes.now }
    ensures { as_taken result ≡ first (elf_refusals bytes.now) }
{
    if field(bytes, 4, 1) != 2 {
        return Err(Refusal::NotClass64);
    }
    if field(bytes, 5, 1) != 1 {
        return Err(Refusal::NotLittleEndian);
    }
    if field(bytes, 18, 2) != ITANIUM {
        return Err(Refusal::NotItanium);
    }
    if field(bytes, 16, 2) == 1 {
        return Err(Refusal::Relocatable);
    }
    Ok(())
}

fn tables_of(bytes: &[u8]) -> Tables
    requires { 64 ≤ length bytes.now }
    ensures { result ≡ tables_of bytes.now }
{
    let sections = Table {
        offset: field(bytes, 40, 8),
        size: field(bytes, 58, 2),
        count: field(bytes, 60, 2),
    };
    let segments = Table {
        offset: field(bytes, 32, 8),
        size: field(bytes, 54, 2),
        count: field(bytes, 56, 2),
    };
    Tables { sections, segments }
}

// Where header k of a table stands in a file of so many bytes, of which it takes `need`.
pub fn entry_of(table: Table, k: u64, need: u64, length: u64) -> Option<u64>
    ensures { result ≡ header_place table k need length }
{
    if table.count <= k {
        return None;
    }
    let last = length.checked_sub(need)?;
    let room = last.checked_sub(table.offset)?;
    if !is_within(table.size, k, room) {
        return None;
    }
    Some(table.offset + table.size * k)
}

// Whether a product is at most so much.
fn is_within(a: u64, b: u64, most: u64) -> bool
    ensures { result ≡ leb (a * b) most }
{
    if b == 0 {
        return true;
    }
    a <= most / b
}

// What a section header's 64 bytes say.
pub fn section(bytes: &[u8]) -> Option<Extent>
    ensures { result ≡ section_of bytes.now }
{
    part_of(bytes, OF_SECTION)
}

// What a program header's 56 bytes say.
pub fn segment(bytes: &[u8]) -> Option<Extent>
    ensures { result ≡ segment_of bytes.now }
{
    part_of(bytes, OF_SEGMENT)
}

// What a header says whose fields stand so.
fn part_of(bytes: &[u8], of: Fields) -> Option<Extent>
    requires { Lies of }
    ensures { result ≡ part_by of bytes.now }
{
    if bytes.len() < of.header {
        return None;
    }
    let kind = field(bytes, of.kind, 4);
    let flags = field(bytes, of.flags, of.width);
    Some(Extent {
        code: (kind == 1) & ((flags >> of.executed) % 2 == 1),
        address: field(bytes, 16, 8),
        offset: field(bytes, of.offset, 8),
        size: field(bytes, 32, 8),
    })
}

// The number in so many bytes from an offset on.
fn field(bytes: &[u8], at: usize, width: usize) -> u64
    requires { (width ≤ 8) × (at + width ≤ length bytes.now) }
    ensures { result ≡ field bytes.now at width }
{
    let mut eight = [0; 8];
    eight[..width].copy_from_slice(&bytes[at..at + width]);
    u64::from_le_bytes(eight)
}
