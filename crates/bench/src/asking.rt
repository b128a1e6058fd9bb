// Calls that read: `cut`, `operands`, `choose`, `immediate`, a record's test, the listing and the report.
use crate::sum;
use crate::sum::plus;
use answer::answer_of;
use form::Form;
use opcodes::Opcode;
use operand::Operand;
use record::Record;
use tally::NUMBERS;

// Every bundle of a code, cut.
#[unsafe(no_mangle)]
pub extern "C" fn bench_cut(code: &[u8]) -> u64 {
    let mut sum = 0;
    for n in 0..code.len() / 16 {
        sum = plus(sum, sum::of_cut(bundle::cut(code, n as u64)));
    }
    sum
}

// The operands of a family's forms, each in its word and L word.
#[unsafe(no_mangle)]
pub extern "C" fn bench_operands(family: u64, numbers: &[u64], words: &[u64], ls: &[u64]) -> u64 {
    let mut sum = 0;
    for (i, word) in words.iter().enumerate() {
        let form = Form {
            family,
            number: sum::at(numbers, i),
        };
        if let Ok(reading) = readers::operands(form, *word, sum::at(ls, i)) {
            sum = plus(sum, sum::of_reading(reading));
        }
    }
    sum
}

// Opcode and form of a unit's words. The opcodes are put out, each by its place among them.
#[unsafe(no_mangle)]
pub extern "C" fn bench_choose(unit: u64, words: &[u64], opcodes: &mut [u64]) -> u64 {
    let mut sum = 0;
    for (i, word) in words.iter().enumerate() {
        let chosen = choice::choose(unit, *word);
        let (opcode, number) = match chosen {
            Ok(named) => (named.opcode, named.form.number),
            Err(_) => (Opcode::No, 0),
        };
        sum::put(opcodes, i, opcode as u64);
        sum = plus(sum, plus(u64::from(answer_of(&chosen)), number));
    }
    sum
}

// The immediate of a form in a slot of every bundle.
#[unsafe(no_mangle)]
pub extern "C" fn bench_immediate(code: &[u8], slot: u64, family: u64, number: u64) -> u64 {
    let form = Form { family, number };
    let mut sum = 0;
    for n in 0..code.len() / 16 {
        let value = immediate::immediate(code, n as u64, slot, form).unwrap_or(Operand::None);
        sum = plus(sum, sum::of_operand(value));
    }
    sum
}

// How many records may stand, of edits that set a form in a slot of every bundle to a value and gave another code.
#[unsafe(no_mangle)]
pub extern "C" fn bench_record(
    code: &[u8],
    other: &[u8],
    slot: u64,
    family: u64,
    number: u64,
    values: &[u64],
) -> u64 {
    let form = Form { family, number };
    let mut sum = 0;
    for n in 0..code.len() / 16 {
        let one = Record {
            party: 0,
            bundle: n as u64,
            slot,
            form,
            value: sum::at(values, n),
            old: sum::halves(code, n as u64),
            new: sum::halves(other, n as u64),
        };
        sum = plus(sum, u64::from(record::may_stand(0, one)));
    }
    sum
}

// The listing of a text.
#[unsafe(no_mangle)]
pub extern "C" fn bench_listing(text: &[u8], out: &mut [u8]) -> u64 {
    lister::listing(text, out).unwrap_or(0) as u64
}

// The report of an image, added up so many times.
#[unsafe(no_mangle)]
pub extern "C" fn bench_report(image: &[u8], times: u64) -> u64 {
    let mut report = [0; NUMBERS];
    let mut answer = 0;
    for _ in 0..times {
        answer = answer_of(&tally::add(&mut report, image));
    }
    sum::of_report(answer, &report)
}
