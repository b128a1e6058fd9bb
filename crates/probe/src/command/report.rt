// `report`: the code's report added to the one that is kept.
use crate::kept::Kept;
use answer::answer_of;
use lines::out;

pub fn answer(code: &[u8], kept: &mut Kept, out: &mut [u8], at: usize) -> usize {
    let mut report = kept.report;
    let added = tally::add(&mut report, code);
    kept.report = report;
    let to = out::number(out, at, u64::from(answer_of(&added)));
    out::numbers(out, to, &report)
}
