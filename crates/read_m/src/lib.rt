// `read_m_operands`: an arm of 000's `match` a function, in its order.
#![tactic(auto)]

ghost use Rattle.std.specs.Prelude.{◌≡◌, [], ◌∷◌, ◌++◌};
ghost use Rattle.reading.specs.Line.{◌‥◌, is, mem, i64, s64, dest, no-dest, reading_of};
ghost use Rattle.read_m.specs.Table.{m_forms, m_forms17, m_forms31, m35, m36, m42, m43};

use operand::{
    ApplicationRegister, ControlRegister, FloatRegister, GPRegister, IndirectionReg, Operand,
    Reading, five_op, four_op, no_op, one_op, three_op, two_op,
};
use reading::{Difference, field, field_u8};

fn read_m1(word: u64) -> Reading
    ensures { result ≡ reading_of m_forms 1 word 0 }
{
    let r1 = field_u8(word, 6..13);
    let r3 = field_u8(word, 20..27);
    two_op(
        Some(0),
        Operand::GPRegister(GPRegister(r1)),
        Operand::Memory(GPRegister(r3)),
    )
}

fn read_m2_m16(word: u64) -> Reading
    ensures { result ≡ reading_of m_forms 2 word 0 }
{
    let r1 = field_u8(word, 6..13);
    let r2 = field_u8(word, 13..20);
    let r3 = field_u8(word, 20..27);
    three_op(
        Some(0),
        Operand::GPRegister(GPRegister(r1)),
        Operand::Memory(GPRegister(r3)),
        Operand::GPRegister(GPRegister(r2)),
    )
}

fn read_m3(word: u64) -> Reading
    ensures { result ≡ reading_of m_forms 3 word 0 }
{
    let r1 = field_u8(word, 6..13);
    load_imm(word, Operand::GPRegister(GPRegister(r1)))
}

// M3, M8
fn load_imm(word: u64, op1: Operand) -> Reading
    ensures { result ≡ dest 0 (is op1 ∷ mem (20 ‥ 27) ∷ s64 (13 ‥ 20 ∷ 27 ‥ 28 ∷ []) 36 ∷ []) word 0 }
{
    let imm7 = field(word, 13..20);
    let i = field(word, 27..28);
    let s = field(word, 36..37);
    let imm = Difference(imm7 + (1 << 7) * i, (1 << 8) * s);
    let r3 = field_u8(word, 20..27);
    three_op(Some(0), op1, Operand::Memory(GPRegister(r3)), imm.operand())
}

fn read_m4(word: u64) -> Reading
    ensures { result ≡ reading_of m_forms 4 word 0 }
{
    let r2 = field_u8(word, 13..20);
    let r3 = field_u8(word, 20..27);
    two_op(
        Some(0),
        Operand::Memory(GPRegister(r3)),
        Operand::GPRegister(GPRegister(r2)),
    )
}

fn read_m5(word: u64) -> Reading
    ensures { result ≡ reading_of m_forms 5 word 0 }
{
    let r2 = field_u8(word, 13..20);
    store_imm(word, Operand::GPRegister(GPRegister(r2)))
}

// M5, M10
fn store_imm(word: u64, op2: Operand) -> Reading
    ensures { result ≡ dest 0 (mem (20 ‥ 27) ∷ is op2 ∷ s64 (6 ‥ 13 ∷ 27 ‥ 28 ∷ []) 36 ∷ []) word 0 }
{
    let imm7 = field(word, 6..13);
    let i = field(word, 27..28);
    let s = field(word, 36..37);
    let imm = Difference(imm7 + (1 << 7) * i, (1 << 8) * s);
    let r3 = field_u8(word, 20..27);
    three_op(Some(0), Operand::Memory(GPRegister(r3)), op2, imm.operand())
}

fn read_m6(word: u64) -> Reading
    ensures { result ≡ reading_of m_forms 6 word 0 }
{
    let f1 = field_u8(word, 6..13);
    let r3 = field_u8(word, 20..27);
    two_op(
        Some(0),
        Operand::FloatRegister(FloatRegister(f1)),
        Operand::Memory(GPRegister(r3)),
    )
}

fn read_m7(word: u64) -> Reading
    ensures { result ≡ reading_of m_forms 7 word 0 }
{
    let f1 = field_u8(word, 6..13);
    let r2 = field_u8(word, 13..20);
    let r3 = field_u8(word, 20..27);
    three_op(
        Some(0),
        Operand::FloatRegister(FloatRegister(f1)),
        Operand::Memory(GPRegister(r3)),
        Operand::GPRegister(GPRegister(r2)),
    )
}

fn read_m8(word: u64) -> Reading
    ensures { result ≡ reading_of m_forms 8 word 0 }
{
    let f1 = field_u8(word, 6..13);
    load_imm(word, Operand::FloatRegister(FloatRegister(f1)))
}

fn read_m9(word: u64) -> Reading
    ensures { result ≡ reading_of m_forms 9 word 0 }
{
    let f2 = field_u8(word, 13..20);
    let r3 = field_u8(word, 20..27);
    two_op(
        Some(0),
        Operand::Memory(GPRegister(r3)),
        Operand::FloatRegister(FloatRegister(f2)),
    )
}

fn read_m10(word: u64) -> Reading
    ensures { result ≡ reading_of m_forms 10 word 0 }
{
    let f2 = field_u8(word, 13..20);
    store_imm(word, Operand::FloatRegister(FloatRegister(f2)))
}

fn read_m11(word: u64) -> Reading
    ensures { result ≡ reading_of m_forms 11 word 0 }
{
    let f1 = field_u8(word, 6..13);
    let f2 = field_u8(word, 13..20);
    let r3 = field_u8(word, 20..27);
    three_op(
        Some(1),
        Operand::FloatRegister(FloatRegister(f1)),
        Operand::FloatRegister(FloatRegister(f2)),
        Operand::Memory(GPRegister(r3)),
    )
}

fn read_m12(word: u64) -> Reading
    ensures { result ≡ reading_of m_forms 12 word 0 }
{
    let f1 = field_u8(word, 6..13);
    let f2 = field_u8(word, 13..20);
    let r3 = field_u8(word, 20..27);
    let size = 8 + 8 * field(word, 30..31);
    four_op(
        Some(1),
        Operand::FloatRegister(FloatRegister(f1)),
        Operand::FloatRegister(FloatRegister(f2)),
        Operand::Memory(GPRegister(r3)),
        Operand::ImmU64(size),
    )
}

fn read_m13(word: u64) -> Reading
    ensures { result ≡ reading_of m_forms 13 word 0 }
{
    let r3 = field_u8(word, 20..27);
    one_op(false, Operand::Memory(GPRegister(r3)))
}

fn read_m14(word: u64) -> Reading
    ensures { result ≡ reading_of m_forms 14 word 0 }
{
    let r2 = field_u8(word, 13..20);
    let r3 = field_u8(word, 20..27);
    two_op(
        None,
        Operand::Memory(GPRegister(r3)),
        Operand::GPRegister(GPRegister(r2)),
    )
}

fn read_m15(word: u64) -> Reading
    ensures { result ≡ reading_of m_forms 15 word 0 }
{
    let imm7b = field(word, 13..20);
    let r3 = field_u8(word, 20..27);
    let i = field(word, 27..28);
    let s = field(word, 36..37);
    let imm = Difference(imm7b + (1 << 7) * (i + 2 * s), 0);
    two_op(None, Operand::Memory(GPRegister(r3)), imm.operand())
}

fn read_m17(word: u64) -> Reading
    ensures { result ≡ reading_of m_forms 17 word 0 }
{
    let r1 = field_u8(word, 6..13);
    let i = field(word, 13..15);
    let s = field(word, 15..16);
    let imm = Difference(i, (1 << 2) * s);
    let r3 = field_u8(word, 20..27);
    three_op(
        Some(0),
        Operand::GPRegister(GPRegister(r1)),
        Operand::Memory(GPRegister(r3)),
        imm.operand(),
    )
}

fn read_m18(word: u64) -> Reading
    ensures { result ≡ reading_of m_forms 18 word 0 }
{
    let f1 = field_u8(word, 6..13);
    let r2 = field_u8(word, 13..20);
    two_op(
        Some(0),
        Operand::FloatRegister(FloatRegister(f1)),
        Operand::GPRegister(GPRegister(r2)),
    )
}

fn read_m19(word: u64) -> Reading
    ensures { result ≡ reading_of m_forms 19 word 0 }
{
    let r1 = field_u8(word, 6..13);
    let f2 = field_u8(word, 13..20);
    two_op(
        Some(0),
        Operand::GPRegister(GPRegister(r1)),
        Operand::FloatRegister(FloatRegister(f2)),
    )
}

fn read_m20(word: u64) -> Reading
    ensures { result ≡ reading_of m_forms 20 word 0 }
{
    let r2 = field_u8(word, 13..20);
    check_speculation(word, Operand::GPRegister(GPRegister(r2)))
}

// M20, M21
fn check_speculation(word: u64, op1: Operand) -> Reading
    ensures { result ≡ no-dest (is op1 ∷ s64 (6 ‥ 13 ∷ 20 ‥ 33 ∷ []) 36 ∷ []) word 0 }
{
    let imm7a = field(word, 6..13);
    let imm13c = field(word, 20..33);
    let s = field(word, 36..37);
    let imm = Difference(imm7a + (1 << 7) * imm13c, (1 << 20) * s);
    two_op(None, op1, imm.operand())
}

fn read_m21(word: u64) -> Reading
    ensures { result ≡ reading_of m_forms 21 word 0 }
{
    let f2 = field_u8(word, 13..20);
    check_speculation(word, Operand::FloatRegister(FloatRegister(f2)))
}

fn read_m22(word: u64) -> Reading
    ensures { result ≡ reading_of m_forms 22 word 0 }
{
    let r1 = field_u8(word, 6..13);
    check_load(word, Operand::GPRegister(GPRegister(r1)))
}

// M22, M23: never negative, unlike M20 and M21
fn check_load(word: u64, op1: Operand) -> Reading
    ensures { result ≡ no-dest (is op1 ∷ i64 (13 ‥ 33 ∷ 36 ‥ 37 ∷ []) ∷ []) word 0 }
{
    let imm20b = field(word, 13..33);
    let s = field(word, 36..37);
    let imm = Difference(imm20b + (1 << 20) * s, 0);
    two_op(None, op1, imm.operand())
}

fn read_m23(word: u64) -> Reading
    ensures { result ≡ reading_of m_forms 23 word 0 }
{
    let f1 = field_u8(word, 6..13);
    check_load(word, Operand::FloatRegister(FloatRegister(f1)))
}

fn read_m26(word: u64) -> Reading
    ensures { result ≡ reading_of m_forms 26 word 0 }
{
    let r1 = field_u8(word, 6..13);
    one_op(false, Operand::GPRegister(GPRegister(r1)))
}

fn read_m27(word: u64) -> Reading
    ensures { result ≡ reading_of m_forms 27 word 0 }
{
    let f1 = field_u8(word, 6..13);
    one_op(false, Operand::FloatRegister(FloatRegister(f1)))
}

fn read_m28_m47(word: u64) -> Reading
    ensures { result ≡ reading_of m_forms 28 word 0 }
{
    let r3 = field_u8(word, 20..27);
    one_op(false, Operand::GPRegister(GPRegister(r3)))
}

fn read_m29(word: u64) -> Reading
    ensures { result ≡ reading_of m_forms 29 word 0 }
{
    let r2 = field_u8(word, 13..20);
    let ar3 = field_u8(word, 20..27);
    two_op(
        Some(0),
        Operand::ApplicationRegister(ApplicationRegister(ar3)),
        Operand::GPRegister(GPRegister(r2)),
    )
}

fn read_m30(word: u64) -> Reading
    ensures { result ≡ reading_of m_forms 30 word 0 }
{
    let imm7b = field(word, 13..20);
    let ar3 = field_u8(word, 20..27);
    let s = field(word, 36..37);
    let imm = Difference(imm7b, (1 << 7) * s);
    two_op(
        Some(0),
        Operand::ApplicationRegister(ApplicationRegister(ar3)),
        imm.operand(),
    )
}

fn read_m31(word: u64) -> Reading
    ensures { result ≡ reading_of m_forms 31 word 0 }
{
    let r1 = field_u8(word, 6..13);
    let ar3 = field_u8(word, 20..27);
    two_op(
        Some(0),
        Operand::GPRegister(GPRegister(r1)),
        Operand::ApplicationRegister(ApplicationRegister(ar3)),
    )
}

fn read_m32(word: u64) -> Reading
    ensures { result ≡ reading_of m_forms 32 word 0 }
{
    let r2 = field_u8(word, 13..20);
    let cr3 = field_u8(word, 20..27);
    two_op(
        Some(0),
        Operand::ControlRegister(ControlRegister(cr3)),
        Operand::GPRegister(GPRegister(r2)),
    )
}

fn read_m33(word: u64) -> Reading
    ensures { result ≡ reading_of m_forms 33 word 0 }
{
    let r1 = field_u8(word, 6..13);
    let cr3 = field_u8(word, 20..27);
    two_op(
        Some(0),
        Operand::GPRegister(GPRegister(r1)),
        Operand::ControlRegister(ControlRegister(cr3)),
    )
}

const PFS: ApplicationRegister = ApplicationRegister(64);

fn read_m34(word: u64) -> Reading
    ensures { result ≡ reading_of m_forms 34 word 0 }
{
    let r1 = field_u8(word, 6..13);
    let sof = field(word, 13..20);
    let sol = field(word, 20..27);
    let sor = field(word, 27..31);
    five_op(
        Some(0),
        Operand::GPRegister(GPRegister(r1)),
        Operand::ApplicationRegister(PFS),
        Operand::ImmU64(sof),
        Operand::ImmU64(sol),
        Operand::ImmU64(sor),
    )
}

fn read_m35(word: u64) -> Reading
    ensures { result ≡ reading_of m_forms 35 word 0 }
{
    let x6 = field(word, 27..33);
    match x6 {
        0x2d => to_psr(word, Operand::PSR_l),
        0x29 => to_psr(word, Operand::PSR_um),
        _ => to_psr(word, Operand::None),
    }
}

// M35 with the operand that x6 decides
fn to_psr(word: u64, psr: Operand) -> Reading
    ensures { result ≡ m35 psr word 0 }
{
    let r2 = field_u8(word, 13..20);
    two_op(Some(0), psr, Operand::GPRegister(GPRegister(r2)))
}

fn read_m36(word: u64) -> Reading
    ensures { result ≡ reading_of m_forms 36 word 0 }
{
    let x6 = field(word, 27..33);
    match x6 {
        0x25 => from_psr(word, Operand::PSR),
        0x21 => from_psr(word, Operand::PSR_um),
        _ => from_psr(word, Operand::None),
    }
}

// M36 with the operand that x6 decides
fn from_psr(word: u64, psr: Operand) -> Reading
    ensures { result ≡ m36 psr word 0 }
{
    let r1 = field_u8(word, 6..13);
    two_op(Some(0), Operand::GPRegister(GPRegister(r1)), psr)
}

fn read_m37_m48(word: u64) -> Reading
    ensures { result ≡ reading_of m_forms 37 word 0 }
{
    let i = field(word, 6..26) + (1 << 20) * field(word, 36..37);
    one_op(false, Operand::ImmU64(i))
}

fn read_m38(word: u64) -> Reading
    ensures { result ≡ reading_of m_forms 38 word 0 }
{
    let r1 = field_u8(word, 6..13);
    let r2 = field_u8(word, 13..20);
    let r3 = field_u8(word, 20..27);
    three_op(
        Some(0),
        Operand::GPRegister(GPRegister(r1)),
        Operand::GPRegister(GPRegister(r3)),
        Operand::GPRegister(GPRegister(r2)),
    )
}

fn read_m39(word: u64) -> Reading
    ensures { result ≡ reading_of m_forms 39 word 0 }
{
    let r1 = field_u8(word, 6..13);
    let i2b = field(word, 13..15);
    let r3 = field_u8(word, 20..27);
    three_op(
        Some(0),
        Operand::GPRegister(GPRegister(r1)),
        Operand::GPRegister(GPRegister(r3)),
        Operand::ImmU64(i2b),
    )
}

fn read_m40(word: u64) -> Reading
    ensures { result ≡ reading_of m_forms 40 word 0 }
{
    let i2b = field(word, 13..15);
    let r3 = field_u8(word, 20..27);
    two_op(
        None,
        Operand::GPRegister(GPRegister(r3)),
        Operand::ImmU64(i2b),
    )
}

fn read_m41(word: u64) -> Reading
    ensures { result ≡ reading_of m_forms 41 word 0 }
{
    let r2 = field_u8(word, 13..20);
    one_op(false, Operand::GPRegister(GPRegister(r2)))
}

fn read_m42(word: u64) -> Reading
    ensures { result ≡ reading_of m_forms 42 word 0 }
{
    let x6 = field(word, 27..33);
    match x6 {
        0x00 => to_indirect(word, IndirectionReg::Rr),
        0x01 => to_indirect(word, IndirectionReg::Dbr),
        0x02 => to_indirect(word, IndirectionReg::Ibr),
        0x03 => to_indirect(word, IndirectionReg::Pkr),
        0x04 => to_indirect(word, IndirectionReg::Pmc),
        0x05 => to_indirect(word, IndirectionReg::Pmd),
        0x06 => to_indirect(word, IndirectionReg::Msr),
        0x0e => to_indirect(word, IndirectionReg::Dtr),
        0x0f => to_indirect(word, IndirectionReg::Itr),
        _ => one_op(false, Operand::None),
    }
}

// M42 with the register that x6 decides
fn to_indirect(word: u64, ind: IndirectionReg) -> Reading
    ensures { result ≡ m42 ind word 0 }
{
    let r2 = field_u8(word, 13..20);
    let r3 = field_u8(word, 20..27);
    two_op(
        Some(0),
        Operand::Indirection(ind, GPRegister(r3)),
        Operand::GPRegister(GPRegister(r2)),
    )
}

fn read_m43(word: u64) -> Reading
    ensures { result ≡ reading_of m_forms 43 word 0 }
{
    let x6 = field(word, 27..33);
    match x6 {
        0x10 => from_indirect(word, IndirectionReg::Rr),
        0x11 => from_indirect(word, IndirectionReg::Dbr),
        0x12 => from_indirect(word, IndirectionReg::Ibr),
        0x13 => from_indirect(word, IndirectionReg::Pkr),
        0x14 => from_indirect(word, IndirectionReg::Pmc),
        0x15 => from_indirect(word, IndirectionReg::Pmd),
        0x16 => from_indirect(word, IndirectionReg::Msr),
        0x17 => from_indirect(word, IndirectionReg::Cpuid),
        _ => one_op(false, Operand::None),
    }
}

// M43 with the register that x6 decides
fn from_indirect(word: u64, ind: IndirectionReg) -> Reading
    ensures { result ≡ m43 ind word 0 }
{
    let r1 = field_u8(word, 6..13);
    let r3 = field_u8(word, 20..27);
    two_op(
        Some(0),
        Operand::GPRegister(GPRegister(r1)),
        Operand::Indirection(ind, GPRegister(r3)),
    )
}

fn read_m44(word: u64) -> Reading
    ensures { result ≡ reading_of m_forms 44 word 0 }
{
    let imm21a = field(word, 6..27);
    let i2d = field(word, 31..33);
    let i = field(word, 36..37);
    let imm = imm21a + (1 << 21) * (i2d + (1 << 2) * i);
    one_op(false, Operand::ImmU64(imm))
}

fn read_m45(word: u64) -> Reading
    ensures { result ≡ reading_of m_forms 45 word 0 }
{
    let r2 = field_u8(word, 13..20);
    let r3 = field_u8(word, 20..27);
    two_op(
        None,
        Operand::GPRegister(GPRegister(r3)),
        Operand::GPRegister(GPRegister(r2)),
    )
}

fn read_m46(word: u64) -> Reading
    ensures { result ≡ reading_of m_forms 46 word 0 }
{
    let r1 = field_u8(word, 6..13);
    let r3 = field_u8(word, 20..27);
    two_op(
        Some(0),
        Operand::GPRegister(GPRegister(r1)),
        Operand::GPRegister(GPRegister(r3)),
    )
}

pub fn read_m_operands(number: u64, word: u64) -> Reading
    ensures { result ≡ reading_of m_forms number word 0 }
{
    match number {
        1 => read_m1(word),
        2 | 16 => read_m2_m16(word),
        3 => read_m3(word),
        4 => read_m4(word),
        5 => read_m5(word),
        6 => read_m6(word),
        7 => read_m7(word),
        8 => read_m8(word),
        9 => read_m9(word),
        10 => read_m10(word),
        11 => read_m11(word),
        12 => read_m12(word),
        13 => read_m13(word),
        14 => read_m14(word),
        15 => read_m15(word),
        _ => read_m17_on(number, word),
    }
}

fn read_m17_on(number: u64, word: u64) -> Reading
    ensures { result ≡ reading_of (m_forms17 ++ m_forms31) number word 0 }
{
    match number {
        17 => read_m17(word),
        18 => read_m18(word),
        19 => read_m19(word),
        20 => read_m20(word),
        21 => read_m21(word),
        22 => read_m22(word),
        23 => read_m23(word),
        24 | 25 => one_op(false, Operand::None),
        26 => read_m26(word),
        27 => read_m27(word),
        28 | 47 => read_m28_m47(word),
        29 => read_m29(word),
        30 => read_m30(word),
        _ => read_m31_on(number, word),
    }
}

fn read_m31_on(number: u64, word: u64) -> Reading
    ensures { result ≡ reading_of m_forms31 number word 0 }
{
    match number {
        31 => read_m31(word),
        32 => read_m32(word),
        33 => read_m33(word),
        34 => read_m34(word),
        35 => read_m35(word),
        36 => read_m36(word),
        37 | 48 => read_m37_m48(word),
        38 => read_m38(word),
        39 => read_m39(word),
        40 => read_m40(word),
        41 => read_m41(word),
        42 => read_m42(word),
        43 => read_m43(word),
        44 => read_m44(word),
        45 => read_m45(word),
        46 => read_m46(word),
        _ => no_op(),
    }
}
