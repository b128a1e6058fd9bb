// `read_i_operands`: an arm of 000's `match` a function, in its order.
#![tactic(auto)]

ghost use Rattle.std.specs.Prelude.{◌≡◌};
ghost use Rattle.reading.specs.Line.{reading_of};
ghost use Rattle.read_i.specs.Table.{i_forms, i_forms16, i25};

use operand::{
    ApplicationRegister, BranchRegister, GPRegister, Operand, PredicateRegister, Reading, five_op,
    four_op, no_op, one_op, three_op, two_op,
};
use reading::{Difference, field, field_u8};

fn read_i1(word: u64) -> Reading
    ensures { result ≡ reading_of i_forms 1 word 0 }
{
    let r1 = field_u8(word, 6..13);
    let r2 = field_u8(word, 13..20);
    let r3 = field_u8(word, 20..27);
    let count = field(word, 30..32);
    four_op(
        Some(0),
        Operand::GPRegister(GPRegister(r1)),
        Operand::GPRegister(GPRegister(r2)),
        Operand::GPRegister(GPRegister(r3)),
        Operand::ImmU64(count),
    )
}

fn read_i2_i7(word: u64) -> Reading
    ensures { result ≡ reading_of i_forms 2 word 0 }
{
    let r1 = field_u8(word, 6..13);
    let r2 = field_u8(word, 13..20);
    let r3 = field_u8(word, 20..27);
    three_op(
        Some(0),
        Operand::GPRegister(GPRegister(r1)),
        Operand::GPRegister(GPRegister(r2)),
        Operand::GPRegister(GPRegister(r3)),
    )
}

fn read_i3(word: u64) -> Reading
    ensures { result ≡ reading_of i_forms 3 word 0 }
{
    let r1 = field_u8(word, 6..13);
    let r2 = field_u8(word, 13..20);
    let mbt = field(word, 20..24);
    three_op(
        Some(0),
        Operand::GPRegister(GPRegister(r1)),
        Operand::GPRegister(GPRegister(r2)),
        Operand::ImmU64(mbt),
    )
}

fn read_i4(word: u64) -> Reading
    ensures { result ≡ reading_of i_forms 4 word 0 }
{
    let r1 = field_u8(word, 6..13);
    let r2 = field_u8(word, 13..20);
    let mht = field(word, 20..28);
    three_op(
        Some(0),
        Operand::GPRegister(GPRegister(r1)),
        Operand::GPRegister(GPRegister(r2)),
        Operand::ImmU64(mht),
    )
}

fn read_i5(word: u64) -> Reading
    ensures { result ≡ reading_of i_forms 5 word 0 }
{
    let r1 = field_u8(word, 6..13);
    let r2 = field_u8(word, 13..20);
    let r3 = field_u8(word, 20..27);
    three_op(
        Some(0),
        Operand::GPRegister(GPRegister(r1)),
        Operand::GPRegister(GPRegister(r3)),
        Operand::GPRegister(GPRegister(r2)),
    )
}

fn read_i6(word: u64) -> Reading
    ensures { result ≡ reading_of i_forms 6 word 0 }
{
    let r1 = field_u8(word, 6..13);
    let count = field(word, 14..19);
    let r3 = field_u8(word, 20..27);
    three_op(
        Some(0),
        Operand::GPRegister(GPRegister(r1)),
        Operand::GPRegister(GPRegister(r3)),
        Operand::ImmU64(count),
    )
}

fn read_i8(word: u64) -> Reading
    ensures { result ≡ reading_of i_forms 8 word 0 }
{
    let r1 = field_u8(word, 6..13);
    let r2 = field_u8(word, 13..20);
    let count = field(word, 20..25);
    three_op(
        Some(0),
        Operand::GPRegister(GPRegister(r1)),
        Operand::GPRegister(GPRegister(r2)),
        Operand::ImmU64(count),
    )
}

fn read_i9(word: u64) -> Reading
    ensures { result ≡ reading_of i_forms 9 word 0 }
{
    let r1 = field_u8(word, 6..13);
    let r3 = field_u8(word, 20..27);
    two_op(
        Some(0),
        Operand::GPRegister(GPRegister(r1)),
        Operand::GPRegister(GPRegister(r3)),
    )
}

fn read_i10(word: u64) -> Reading
    ensures { result ≡ reading_of i_forms 10 word 0 }
{
    let r1 = field_u8(word, 6..13);
    let r2 = field_u8(word, 13..20);
    let r3 = field_u8(word, 20..27);
    let count = field(word, 27..33);
    four_op(
        Some(0),
        Operand::GPRegister(GPRegister(r1)),
        Operand::GPRegister(GPRegister(r2)),
        Operand::GPRegister(GPRegister(r3)),
        Operand::ImmU64(count),
    )
}

fn read_i11(word: u64) -> Reading
    ensures { result ≡ reading_of i_forms 11 word 0 }
{
    let r1 = field_u8(word, 6..13);
    let pos = field(word, 14..20);
    let r3 = field_u8(word, 20..27);
    let len = field(word, 27..33) + 1;
    four_op(
        Some(0),
        Operand::GPRegister(GPRegister(r1)),
        Operand::GPRegister(GPRegister(r3)),
        Operand::ImmU64(pos),
        Operand::ImmU64(len),
    )
}

fn read_i12(word: u64) -> Reading
    ensures { result ≡ reading_of i_forms 12 word 0 }
{
    let r1 = field_u8(word, 6..13);
    let r2 = field_u8(word, 13..20);
    let cpos = 63 - field(word, 20..26);
    let len = field(word, 27..33) + 1;
    four_op(
        Some(0),
        Operand::GPRegister(GPRegister(r1)),
        Operand::GPRegister(GPRegister(r2)),
        Operand::ImmU64(cpos),
        Operand::ImmU64(len),
    )
}

fn read_i13(word: u64) -> Reading
    ensures { result ≡ reading_of i_forms 13 word 0 }
{
    let r1 = field_u8(word, 6..13);
    let imm7b = field(word, 13..20);
    let s = field(word, 36..37);
    let imm = imm7b + (1 << 7) * (((1 << 57) - 1) * s);
    let cpos = 63 - field(word, 20..26);
    let len = field(word, 27..33) + 1;
    four_op(
        Some(0),
        Operand::GPRegister(GPRegister(r1)),
        Operand::ImmU64(imm),
        Operand::ImmU64(cpos),
        Operand::ImmU64(len),
    )
}

fn read_i14(word: u64) -> Reading
    ensures { result ≡ reading_of i_forms 14 word 0 }
{
    let r1 = field_u8(word, 6..13);
    let imm = field(word, 36..37);
    let r3 = field_u8(word, 20..27);
    let cpos = 63 - field(word, 14..20);
    let len = field(word, 27..33) + 1;
    five_op(
        Some(0),
        Operand::GPRegister(GPRegister(r1)),
        Operand::ImmU64(imm),
        Operand::GPRegister(GPRegister(r3)),
        Operand::ImmU64(cpos),
        Operand::ImmU64(len),
    )
}

fn read_i15(word: u64) -> Reading
    ensures { result ≡ reading_of i_forms 15 word 0 }
{
    let r1 = field_u8(word, 6..13);
    let r2 = field_u8(word, 13..20);
    let r3 = field_u8(word, 20..27);
    let len = field(word, 27..31) + 1;
    let cpos = 63 - field(word, 31..37);
    five_op(
        Some(0),
        Operand::GPRegister(GPRegister(r1)),
        Operand::GPRegister(GPRegister(r2)),
        Operand::GPRegister(GPRegister(r3)),
        Operand::ImmU64(cpos),
        Operand::ImmU64(len),
    )
}

fn read_i16(word: u64) -> Reading
    ensures { result ≡ reading_of i_forms 16 word 0 }
{
    let p1 = field_u8(word, 6..12);
    let pos = field(word, 14..20);
    let r3 = field_u8(word, 20..27);
    let p2 = field_u8(word, 27..33);
    four_op(
        Some(1),
        Operand::PredicateRegister(PredicateRegister(p1)),
        Operand::PredicateRegister(PredicateRegister(p2)),
        Operand::GPRegister(GPRegister(r3)),
        Operand::ImmU64(pos),
    )
}

fn read_i17(word: u64) -> Reading
    ensures { result ≡ reading_of i_forms 17 word 0 }
{
    let p1 = field_u8(word, 6..12);
    let r3 = field_u8(word, 20..27);
    let p2 = field_u8(word, 27..33);
    three_op(
        Some(1),
        Operand::PredicateRegister(PredicateRegister(p1)),
        Operand::PredicateRegister(PredicateRegister(p2)),
        Operand::GPRegister(GPRegister(r3)),
    )
}

fn read_i18_i19(word: u64) -> Reading
    ensures { result ≡ reading_of i_forms 18 word 0 }
{
    let imm20 = field(word, 6..26);
    let imm = imm20 + (1 << 20) * field(word, 36..37);
    one_op(false, Operand::ImmU64(imm))
}

fn read_i20(word: u64) -> Reading
    ensures { result ≡ reading_of i_forms 20 word 0 }
{
    let p1 = field_u8(word, 6..12);
    let r3 = field_u8(word, 20..27);
    let p2 = field_u8(word, 27..33);
    three_op(
        None,
        Operand::PredicateRegister(PredicateRegister(p1)),
        Operand::PredicateRegister(PredicateRegister(p2)),
        Operand::GPRegister(GPRegister(r3)),
    )
}

fn read_i21(word: u64) -> Reading
    ensures { result ≡ reading_of i_forms 21 word 0 }
{
    let b1 = field_u8(word, 6..9);
    let r2 = field_u8(word, 13..20);
    let wh = field(word, 20..22);
    let ih = field(word, 23..24);
    let tag = field(word, 24..33);
    five_op(
        Some(0),
        Operand::BranchRegister(BranchRegister(b1)),
        Operand::GPRegister(GPRegister(r2)),
        Operand::ImmU64(tag),
        Operand::ImmU64(ih),
        Operand::ImmU64(wh),
    )
}

fn read_i22(word: u64) -> Reading
    ensures { result ≡ reading_of i_forms 22 word 0 }
{
    let r1 = field_u8(word, 6..13);
    let b2 = field_u8(word, 13..16);
    two_op(
        Some(0),
        Operand::GPRegister(GPRegister(r1)),
        Operand::BranchRegister(BranchRegister(b2)),
    )
}

fn read_i23(word: u64) -> Reading
    ensures { result ≡ reading_of i_forms 23 word 0 }
{
    let mask7a = field(word, 6..13);
    let r2 = field_u8(word, 13..20);
    let mask8c = field(word, 24..32);
    let mask = mask7a + (1 << 7) * mask8c;
    three_op(
        Some(0),
        Operand::PR,
        Operand::GPRegister(GPRegister(r2)),
        Operand::ImmU64(mask),
    )
}

fn read_i24(word: u64) -> Reading
    ensures { result ≡ reading_of i_forms 24 word 0 }
{
    let imm = field(word, 6..33);
    let s = field(word, 36..37);
    let extended = imm + (1 << 27) * (((1 << 37) - 1) * s);
    two_op(Some(0), Operand::PR, Operand::ImmU64(extended))
}

fn read_i25(word: u64) -> Reading
    ensures { result ≡ reading_of i_forms 25 word 0 }
{
    let x6 = field(word, 27..33);
    match x6 {
        0x30 => from_source(word, Operand::IP),
        0x33 => from_source(word, Operand::PR),
        _ => from_source(word, Operand::None),
    }
}

// I25 with the operand that x6 decides
fn from_source(word: u64, source: Operand) -> Reading
    ensures { result ≡ i25 source word 0 }
{
    let r1 = field_u8(word, 6..13);
    two_op(Some(0), Operand::GPRegister(GPRegister(r1)), source)
}

fn read_i26(word: u64) -> Reading
    ensures { result ≡ reading_of i_forms 26 word 0 }
{
    let r2 = field_u8(word, 13..20);
    let ar3 = field_u8(word, 20..27);
    two_op(
        Some(0),
        Operand::ApplicationRegister(ApplicationRegister(ar3)),
        Operand::GPRegister(GPRegister(r2)),
    )
}

fn read_i27(word: u64) -> Reading
    ensures { result ≡ reading_of i_forms 27 word 0 }
{
    let imm7b = field(word, 13..20);
    let s = field(word, 36..37);
    let imm = Difference(imm7b, (1 << 7) * s);
    let ar3 = field_u8(word, 20..27);
    two_op(
        Some(0),
        Operand::ApplicationRegister(ApplicationRegister(ar3)),
        imm.operand(),
    )
}

fn read_i28(word: u64) -> Reading
    ensures { result ≡ reading_of i_forms 28 word 0 }
{
    let r1 = field_u8(word, 6..13);
    let ar3 = field_u8(word, 20..27);
    two_op(
        Some(0),
        Operand::GPRegister(GPRegister(r1)),
        Operand::ApplicationRegister(ApplicationRegister(ar3)),
    )
}

fn read_i29(word: u64) -> Reading
    ensures { result ≡ reading_of i_forms 29 word 0 }
{
    let r1 = field_u8(word, 6..13);
    let r3 = field_u8(word, 20..27);
    two_op(
        Some(0),
        Operand::GPRegister(GPRegister(r1)),
        Operand::GPRegister(GPRegister(r3)),
    )
}

fn read_i30(word: u64) -> Reading
    ensures { result ≡ reading_of i_forms 30 word 0 }
{
    let p1 = field_u8(word, 6..13);
    let imm = field(word, 14..19);
    let p2 = field_u8(word, 27..33);
    three_op(
        Some(1),
        Operand::PredicateRegister(PredicateRegister(p1)),
        Operand::PredicateRegister(PredicateRegister(p2)),
        Operand::ImmU64(imm),
    )
}

pub fn read_i_operands(number: u64, word: u64) -> Reading
    ensures { result ≡ reading_of i_forms number word 0 }
{
    match number {
        1 => read_i1(word),
        2 | 7 => read_i2_i7(word),
        3 => read_i3(word),
        4 => read_i4(word),
        5 => read_i5(word),
        6 => read_i6(word),
        8 => read_i8(word),
        9 => read_i9(word),
        10 => read_i10(word),
        11 => read_i11(word),
        12 => read_i12(word),
        13 => read_i13(word),
        14 => read_i14(word),
        15 => read_i15(word),
        _ => read_i16_on(number, word),
    }
}

fn read_i16_on(number: u64, word: u64) -> Reading
    ensures { result ≡ reading_of i_forms16 number word 0 }
{
    match number {
        16 => read_i16(word),
        17 => read_i17(word),
        18 | 19 => read_i18_i19(word),
        20 => read_i20(word),
        21 => read_i21(word),
        22 => read_i22(word),
        23 => read_i23(word),
        24 => read_i24(word),
        25 => read_i25(word),
        26 => read_i26(word),
        27 => read_i27(word),
        28 => read_i28(word),
        29 => read_i29(word),
        30 => read_i30(word),
        _ => no_op(),
    }
}
