// Text as bytes: numbers in decimal and fields of them, read and written.
//
// A `put` function writes at a place of the output and answers the place after what it wrote, or the
// last that a number can tell where that is past it. A byte for which the output has no place is lost,
// so a run on an output with none measures the text.
#![tactic(auto)]

mod decimal;
mod fields;
mod number;
mod put;
mod whole;

pub use decimal::put_decimal;
pub use fields::{NEWLINE, TAB, begins, is_at, read_field, read_fields};
pub use number::read_decimal;
pub use put::{put_byte, put_field, put_fields, put_text};
pub use whole::put_whole;
