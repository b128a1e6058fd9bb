// An image: the bytes of a file, or as many as tell that it is too long.
ghost use Rattle.std.specs.Prelude.{◌≡◌, length};
ghost use Rattle.std.specs.Counts.{IsPrefixLen};

use answer::Refusal;
use bundle::LONGEST_CODE;
use lines::part;
use std::rt::{Env, Files};
use std::{fs, io, str};
use tally::NUMBERS;

// Room for the longest name of a file.
pub const PATH_MAX: usize = 4096;

// The system's numbers of two errors: a name is too long, and it is no text in UTF-8.
const TOO_LONG: i32 = 36;

const NO_TEXT: i32 = 84;

// Room for the longest image, and a byte more.
pub fn room() -> [u8; LONGEST_CODE + 1]
    ensures { 65537 ≡ length result }
{
    [0; LONGEST_CODE + 1]
}

// Puts argument `i`, a file's name, at the start of `name`, and answers its length. One that is too long fills it, and no file is called so.
pub fn put_name(rt: &impl Env, i: usize, name: &mut [u8; PATH_MAX]) -> usize
    ensures { IsPrefixLen result name.new }
{
    rt.arg(i, name).unwrap_or(PATH_MAX)
}

// Reads the file of that name, and answers how many bytes it has.
pub fn read(rt: &impl Files, name: &[u8], bytes: &mut [u8]) -> io::Result<usize> {
    let mut file = open(rt, name)?;
    console::read_all(&mut file, bytes).map_err(|cut| cut.error)
}

fn open<R: Files>(rt: &R, name: &[u8]) -> io::Result<R::File> {
    fs::open(rt, text_of(name)?)
}

fn text_of(name: &[u8]) -> io::Result<&str> {
    if PATH_MAX <= name.len() {
        return Err(io::Error::from_raw_os_error(TOO_LONG));
    }
    match str::from_utf8(name) {
        Ok(text) => Ok(text),
        Err(_) => Err(io::Error::from_raw_os_error(NO_TEXT)),
    }
}

// Adds the first bytes to the report.
pub fn add(report: &mut [u64; NUMBERS], bytes: &[u8], count: usize) -> Result<(), Refusal> {
    let n = part::within(bytes, count);
    tally::add(report, &bytes[0..n])
}
