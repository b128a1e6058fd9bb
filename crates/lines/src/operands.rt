// Operands as text, written after a space and read: a name, and after some of them a number.
use crate::part;
use operand::{
    ApplicationRegister, BranchRegister, ControlRegister, FloatRegister, GPRegister,
    IndirectionReg, Operand, PredicateRegister,
};
use text::{put_byte, put_decimal, put_text};

pub fn write(out: &mut [u8], at: usize, o: Operand) -> usize {
    let to = put_byte(out, at, b' ');
    match o {
        Operand::None => put_text(out, to, b"None"),
        Operand::PSR => put_text(out, to, b"PSR"),
        Operand::PSR_l => put_text(out, to, b"PSR_l"),
        Operand::PSR_um => put_text(out, to, b"PSR_um"),
        Operand::PR => put_text(out, to, b"PR"),
        Operand::IP => put_text(out, to, b"IP"),
        Operand::ImmI64(n) => put_integer(out, to, n),
        Operand::ImmU64(n) => put_numbered(out, to, b"U", n),
        Operand::GPRegister(r) => put_register(out, to, b"G", r.0),
        Operand::FloatRegister(r) => put_register(out, to, b"F", r.0),
        Operand::PredicateRegister(r) => put_register(out, to, b"P", r.0),
        Operand::BranchRegister(r) => put_register(out, to, b"B", r.0),
        Operand::ApplicationRegister(r) => put_register(out, to, b"AR", r.0),
        Operand::ControlRegister(r) => put_register(out, to, b"CR", r.0),
        Operand::Memory(r) => put_register(out, to, b"Mem", r.0),
        Operand::Indirection(i, r) => put_register(out, to, indirect(i), r.0),
    }
}

fn put_register(out: &mut [u8], at: usize, name: &[u8], number: u8) -> usize {
    put_numbered(out, at, name, u64::from(number))
}

fn put_numbered(out: &mut [u8], at: usize, name: &[u8], number: u64) -> usize {
    let to = put_text(out, at, name);
    put_decimal(out, to, number)
}

fn put_integer(out: &mut [u8], at: usize, n: i64) -> usize {
    let to = put_text(out, at, if n < 0 { b"I-" } else { b"I" });
    put_decimal(out, to, n.unsigned_abs())
}

fn indirect(i: IndirectionReg) -> &'static [u8] {
    match i {
        IndirectionReg::Cpuid => b"Ind:Cpuid:",
        IndirectionReg::Dbr => b"Ind:Dbr:",
        IndirectionReg::Dtr => b"Ind:Dtr:",
        IndirectionReg::Ibr => b"Ind:Ibr:",
        IndirectionReg::Itr => b"Ind:Itr:",
        IndirectionReg::Msr => b"Ind:Msr:",
        IndirectionReg::Pkr => b"Ind:Pkr:",
        IndirectionReg::Pmc => b"Ind:Pmc:",
        IndirectionReg::Pmd => b"Ind:Pmd:",
        IndirectionReg::Rr => b"Ind:Rr:",
    }
}

// A name, or a name with a number after it.
pub fn read(s: &[u8]) -> Option<Operand> {
    let (name, number) = s.split_at(part::below(s, b':'));
    match name {
        b"I" => Some(Operand::ImmI64(read_integer(number)?)),
        b"U" => Some(Operand::ImmU64(read_decimal(number)?)),
        _ => {
            if number.is_empty() {
                alone(name)
            } else {
                register(name, u8::try_from(read_decimal(number)?).ok()?)
            }
        }
    }
}

// A name that no number follows.
fn alone(name: &[u8]) -> Option<Operand> {
    match name {
        b"None" => Some(Operand::None),
        b"PSR" => Some(Operand::PSR),
        b"PSR_l" => Some(Operand::PSR_l),
        b"PSR_um" => Some(Operand::PSR_um),
        b"PR" => Some(Operand::PR),
        b"IP" => Some(Operand::IP),
        _ => None,
    }
}

fn register(name: &[u8], number: u8) -> Option<Operand> {
    match name {
        b"G" => Some(Operand::GPRegister(GPRegister(number))),
        b"F" => Some(Operand::FloatRegister(FloatRegister(number))),
        b"P" => Some(Operand::PredicateRegister(PredicateRegister(number))),
        b"B" => Some(Operand::BranchRegister(BranchRegister(number))),
        b"AR" => Some(Operand::ApplicationRegister(ApplicationRegister(number))),
        b"CR" => Some(Operand::ControlRegister(ControlRegister(number))),
        b"Mem" => Some(Operand::Memory(GPRegister(number))),
        _ => Some(Operand::Indirection(indirection(name)?, GPRegister(number))),
    }
}

fn indirection(name: &[u8]) -> Option<IndirectionReg> {
    match name {
        b"Ind:Cpuid:" => Some(IndirectionReg::Cpuid),
        b"Ind:Dbr:" => Some(IndirectionReg::Dbr),
        b"Ind:Dtr:" => Some(IndirectionReg::Dtr),
        b"Ind:Ibr:" => Some(IndirectionReg::Ibr),
        b"Ind:Itr:" => Some(IndirectionReg::Itr),
        b"Ind:Msr:" => Some(IndirectionReg::Msr),
        b"Ind:Pkr:" => Some(IndirectionReg::Pkr),
        b"Ind:Pmc:" => Some(IndirectionReg::Pmc),
        b"Ind:Pmd:" => Some(IndirectionReg::Pmd),
        b"Ind:Rr:" => Some(IndirectionReg::Rr),
        _ => None,
    }
}

// The decimal that the whole text is.
fn read_decimal(s: &[u8]) -> Option<u64> {
    let (n, end) = text::read_decimal(s, 0)?;
    if end == s.len() { Some(n) } else { None }
}

// A number from -2^63 on and below 2^63.
fn read_integer(s: &[u8]) -> Option<i64> {
    match s {
        [b'-', digits @ ..] => negative(read_decimal(digits)?),
        _ => i64::try_from(read_decimal(s)?).ok(),
    }
}

// The number below 0 that is so far from it.
fn negative(n: u64) -> Option<i64> {
    if n == 0 || i64::MIN.unsigned_abs() < n {
        return None;
    }
    Some(n.wrapping_neg().cast_signed())
}
