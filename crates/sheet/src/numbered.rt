// The lines of a sheet by their number: the first has the count, and then each has a record.
ghost use Rattle.std.specs.Prelude.{◌≡◌, []};
ghost use Rattle.text.specs.Put.{Put};
ghost use Rattle.text.specs.Whole.{as_written, wrote_of};
ghost use Rattle.sheet.specs.Sheet.{header_of, numbered};

use crate::line;
use answer::Refusal;
use record::Record;
use text::NEWLINE;

pub fn put_head(out: &mut [u8], count: u64) -> usize
    ensures { Put out.old 0 (header_of count) out.new result }
{
    let start = text::put_text(out, 0, b"patches\t");
    text::put_field(out, start, count, NEWLINE)
}

// Writes line i, whose record is the one given, of a journal with so many.
fn put_numbered(out: &mut [u8], i: u64, count: u64, one: Record) -> usize
    ensures { Put out.old 0 (numbered i count one) out.new result }
{
    if i == 0 {
        return put_head(out, count);
    }
    if i <= count {
        return line::put_line(out, 0, one);
    }
    0
}

// The same where there is room for the line.
pub fn write_numbered(out: &mut [u8], i: u64, count: u64, one: Record) -> Result<usize, Refusal>
    ensures { (as_written result, out.new) ≡ wrote_of [] (numbered i count one) out.old }
{
    let mut none = [0u8; 0];
    if out.len() < put_numbered(&mut none, i, count, one) {
        return Err(Refusal::NoRoom);
    }
    let length = put_numbered(out, i, count, one);
    Ok(length)
}
