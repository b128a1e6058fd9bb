// `records`: the journal's counts, and each place that isn't all zero.
use lines::{out, part};
use record::Record;
use records::Counts;

pub fn told(counts: Counts, length: usize, lent: &[u8], out: &mut [u8], at: usize) -> usize {
    let to = out::numbers(out, at, &[counts.parties, counts.lower, counts.upper]);
    let n = part::within(lent, length);
    text::put_text(out, to, &lent[..n])
}

// A place of the journal, nothing where it is free.
pub fn show_place(i: u64, one: Record, out: &mut [u8], at: usize) -> usize {
    if record::is_free(one) {
        return at;
    }
    let form = one.form;
    let old = one.old;
    let new = one.new;
    let to = out::number(out, at, i);
    let done = numbers(&[one.bundle, one.slot], out, to);
    let mark = text::put_byte(out, done, b':');
    let named = name::put_name(out, mark, form);
    numbers(
        &[one.value, old.low, old.high, new.low, new.high, one.party],
        out,
        named,
    )
}

// Numbers, each after a colon.
fn numbers(of: &[u64], out: &mut [u8], at: usize) -> usize {
    let mut to = at;
    for n in of {
        let mark = text::put_byte(out, to, b':');
        to = text::put_decimal(out, mark, *n);
    }
    to
}
