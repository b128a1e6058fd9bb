// What a word is read as.

// A number: so much, or so much below zero, which is at least 1 and at most 2^63.
#[derive(Clone, Copy)]
pub enum Given {
    Unsigned(u64),
    Negative(u64),
}

// The address of a bundle, and a slot in it.
#[derive(Clone, Copy)]
pub struct Place {
    pub address: u64,
    pub slot: u64,
}
