// Sums, by a wrapping add, of what the calls give.
use bundle::{Bundle, Halves, Uncut};
use operand::{Operand, Reading};
use tally::NUMBERS;

pub fn plus(sum: u64, n: u64) -> u64 {
    sum.wrapping_add(n)
}

// The number at a place, 0 past the last.
pub fn at(numbers: &[u64], i: usize) -> u64 {
    numbers.get(i).copied().unwrap_or(0)
}

// Puts a number at a place, unless it is past the last.
pub fn put(numbers: &mut [u64], i: usize, n: u64) {
    if let Some(place) = numbers.get_mut(i) {
        *place = n;
    }
}

pub const NO_HALVES: Halves = Halves { low: 0, high: 0 };

// A bundle's halves, zeros where the code has none.
pub fn halves(code: &[u8], bundle: u64) -> Halves {
    bundle::load(code, bundle).unwrap_or(NO_HALVES)
}

// Where a bundle isn't cut, its tag alone.
pub fn of_cut(cut: Result<Bundle, Uncut>) -> u64 {
    match cut {
        Ok(bundle) => of_bundle(bundle),
        Err(Uncut::Reserved(tag)) => u64::from(tag),
        Err(Uncut::Missing(_)) => 0,
    }
}

fn of_bundle(cut: Bundle) -> u64 {
    let mut sum = u64::from(cut.template.tag);
    for unit in cut.template.units {
        sum = plus(sum, u64::from(unit));
    }
    for stop in cut.template.stops {
        sum = plus(sum, u64::from(stop));
    }
    for slot in cut.slots {
        sum = plus(sum, slot);
    }
    sum
}

pub fn of_reading(reading: Reading) -> u64 {
    let mut sum = match reading.position {
        None => 0,
        Some(n) => 1 + u64::from(n),
    };
    for shown in reading.operands {
        sum = plus(sum, of_operand(shown.0));
    }
    sum
}

pub fn of_operand(operand: Operand) -> u64 {
    match operand {
        Operand::None => 0,
        Operand::GPRegister(r) => 1000 + u64::from(r.0),
        Operand::FloatRegister(r) => 2000 + u64::from(r.0),
        Operand::PredicateRegister(r) => 3000 + u64::from(r.0),
        Operand::ImmI64(n) => n.cast_unsigned(),
        Operand::ImmU64(n) => n,
        Operand::Memory(r) => 4000 + u64::from(r.0),
        Operand::PSR => 5000,
        Operand::PSR_l => 5001,
        Operand::PSR_um => 5002,
        Operand::PR => 5003,
        Operand::IP => 5004,
        Operand::ApplicationRegister(r) => 6000 + u64::from(r.0),
        Operand::BranchRegister(r) => 7000 + u64::from(r.0),
        Operand::ControlRegister(r) => 8000 + u64::from(r.0),
        Operand::Indirection(_, r) => 9000 + u64::from(r.0),
    }
}

pub fn of_report(answer: u8, report: &[u64; NUMBERS]) -> u64 {
    let mut sum = u64::from(answer);
    for n in report {
        sum = plus(sum, *n);
    }
    sum
}
