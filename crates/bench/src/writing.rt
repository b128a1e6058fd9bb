// Calls that write: immediates, `edit` and `undo`, `fold`, and sheets. A journal's counts come one by one, by the C interface.
use crate::sum;
use crate::sum::{NO_HALVES, plus};
use answer::answer_of;
use form::{B, Edit, Form};
use operand::Operand;
use record::Record;
use records::Counts;

// An immediate's value for a row with a sign, or without.
fn value_of(signed: u64, pattern: u64) -> Operand {
    if signed == 0 {
        return Operand::ImmU64(pattern);
    }
    let integer = pattern.cast_signed();
    Operand::ImmI64(integer)
}

// Writes each value into a form's immediate in a slot of the bundle at the same place.
#[unsafe(no_mangle)]
pub extern "C" fn bench_write(
    code: &mut [u8],
    slot: u64,
    family: u64,
    number: u64,
    signed: u64,
    values: &[u64],
) -> u64 {
    let form = Form { family, number };
    let mut sum = 0;
    for n in 0..code.len() / 16 {
        let value = value_of(signed, sum::at(values, n));
        let edit = Edit {
            bundle: n as u64,
            slot,
            form,
            value,
        };
        let changed = immediate::change(sum::halves(code, n as u64), edit);
        bundle::write(&mut code[16 * n..16 * n + 16], changed.unwrap_or(NO_HALVES));
        sum = plus(sum, u64::from(answer_of(&changed)));
    }
    sum
}

// Slot 2, B1, of a bundle set to a value.
fn branch(bundle: u64, to: i64) -> Edit {
    let form = Form {
        family: B,
        number: 1,
    };
    let value = Operand::ImmI64(to);
    Edit {
        bundle,
        slot: 2,
        form,
        value,
    }
}

// So many edits of a party, each undone, after those that stand.
#[unsafe(no_mangle)]
pub extern "C" fn bench_edit(
    code: &mut [u8],
    parties: u64,
    lower: u64,
    upper: u64,
    records: &mut [Record],
    party: u64,
    times: u64,
) -> u64 {
    let mut counts = Counts {
        parties,
        lower,
        upper,
    };
    let mut sum = 0;
    for _ in 0..times {
        let edited = journal::edit(code, counts, records, party, branch(63, 32));
        counts = edited.unwrap_or(counts);
        let undone = journal::undo(code, counts, records, party);
        counts = undone.unwrap_or(counts);
        sum = plus(sum, u64::from(answer_of(&edited)));
        sum = plus(sum, u64::from(answer_of(&undone)));
    }
    sum
}

// A party's records folded, once: the answer, and how many are left of party 0.
#[unsafe(no_mangle)]
pub extern "C" fn bench_fold(
    parties: u64,
    lower: u64,
    upper: u64,
    records: &mut [Record],
    party: u64,
) -> u64 {
    let counts = Counts {
        parties,
        lower,
        upper,
    };
    let folded = fold::fold(counts, records, party);
    let answer = u64::from(answer_of(&folded));
    plus(answer, folded.unwrap_or(counts).lower)
}

// The sheet of a party's journal, written so many times.
#[unsafe(no_mangle)]
pub extern "C" fn bench_sheet(
    parties: u64,
    lower: u64,
    upper: u64,
    records: &[Record],
    party: u64,
    out: &mut [u8],
    times: u64,
) -> u64 {
    let counts = Counts {
        parties,
        lower,
        upper,
    };
    let mut sum = 0;
    for _ in 0..times {
        let written = sheet::write(counts, records, party, out);
        sum = plus(sum, written.unwrap_or(0) as u64);
    }
    sum
}

// A sheet, loaded for a party so many times.
#[unsafe(no_mangle)]
pub extern "C" fn bench_load(
    parties: u64,
    lower: u64,
    upper: u64,
    records: &mut [Record],
    party: u64,
    text: &[u8],
    times: u64,
) -> u64 {
    let mut counts = Counts {
        parties,
        lower,
        upper,
    };
    let mut sum = 0;
    for _ in 0..times {
        let loaded = sheet::load(counts, records, party, text);
        counts = loaded.unwrap_or(counts);
        sum = plus(sum, u64::from(answer_of(&loaded)));
    }
    sum
}
