// The report as a text. Each function writes at a place and answers the place after it.
ghost use Rattle.std.specs.Prelude.{◌≤◌, length};
ghost use Rattle.text.specs.Put.{Put};
ghost use Rattle.tally.specs.Text.{label_of, number_line, text_of};

use crate::{CAPACITY, NUMBERS};
use text::{NEWLINE, TAB, put_byte, put_decimal, put_field, put_text};

// A line for each number.
pub fn put_report(out: &mut [u8], at: usize, report: [u64; NUMBERS]) -> usize
    ensures text { Put out.old at (text_of report) out.new result }
    ensures room { length (text_of report) ≤ CAPACITY }
{
    let mut next = at;
    for (i, n) in report.iter().enumerate() {
        next = put_line(out, next, i as u64, *n);
    }
    next
}

// The line of number `i`.
fn put_line(out: &mut [u8], at: usize, i: u64, n: u64) -> usize
    ensures { Put out.old at (number_line i n) out.new result }
{
    let mut next = put_label(out, at, i);
    next = put_byte(out, next, TAB);
    put_field(out, next, n, NEWLINE)
}

fn put_label(out: &mut [u8], at: usize, i: u64) -> usize
    ensures { Put out.old at (label_of i) out.new result }
{
    match i {
        32 => put_text(out, at, b"bundles"),
        33 => put_text(out, at, b"reserved"),
        34 => put_text(out, at, b"stops"),
        35 => put_text(out, at, b"rest"),
        _ => put_decimal(out, at, i),
    }
}
