// Lines of fields that one space parts, read and written: numbers, bytes, operands. A line that has no room
// is cut off and nothing is asked of a place, so that a program over lines needs no proof of its own for them.
#![tactic(auto)]

pub mod fields;
pub mod operands;
pub mod out;
pub mod part;
pub mod spelt;
