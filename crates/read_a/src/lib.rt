// `read_a_operands`: an arm of 000's `match` a function, in its order.
#![tactic(auto)]

ghost use Rattle.std.specs.Prelude.{◌≡◌};
ghost use Rattle.reading.specs.Line.{reading_of};
ghost use Rattle.read_a.specs.Table.{a_forms};

use operand::{GPRegister, Operand, PredicateRegister, Reading, four_op, no_op, three_op};
use reading::{Difference, field, field_u8};

fn read_a1_a9(word: u64) -> Reading
    ensures { result ≡ reading_of a_forms 1 word 0 }
{
    let r1 = field_u8(word, 6..13);
    let r2 = field_u8(word, 13..20);
    let r3 = field_u8(word, 20..27);
    three_op(
        Some(0),
        Operand::GPRegister(GPRegister(r1)),
        Operand::GPRegister(GPRegister(r2)),
        Operand::GPRegister(GPRegister(r3)),
    )
}

fn read_a2(word: u64) -> Reading
    ensures { result ≡ reading_of a_forms 2 word 0 }
{
    let r1 = field_u8(word, 6..13);
    let r2 = field_u8(word, 13..20);
    let r3 = field_u8(word, 20..27);
    let ct = field(word, 27..29) + 1;
    four_op(
        Some(0),
        Operand::GPRegister(GPRegister(r1)),
        Operand::GPRegister(GPRegister(r2)),
        Operand::ImmU64(ct),
        Operand::GPRegister(GPRegister(r3)),
    )
}

fn read_a3(word: u64) -> Reading
    ensures { result ≡ reading_of a_forms 3 word 0 }
{
    let r1 = field_u8(word, 6..13);
    let r3 = field_u8(word, 20..27);
    let immb = field(word, 13..20);
    let s = field(word, 36..37);
    let imm = Difference(immb, (1 << 7) * s);
    three_op(
        Some(0),
        Operand::GPRegister(GPRegister(r1)),
        imm.operand(),
        Operand::GPRegister(GPRegister(r3)),
    )
}

fn read_a4(word: u64) -> Reading
    ensures { result ≡ reading_of a_forms 4 word 0 }
{
    let r1 = field_u8(word, 6..13);
    let r3 = field_u8(word, 20..27);
    let immb = field(word, 13..20);
    let immd = field(word, 27..33);
    let s = field(word, 36..37);
    let imm = Difference(immb + (1 << 7) * immd, (1 << 13) * s);
    three_op(
        Some(0),
        Operand::GPRegister(GPRegister(r1)),
        imm.operand(),
        Operand::GPRegister(GPRegister(r3)),
    )
}

fn read_a5(word: u64) -> Reading
    ensures { result ≡ reading_of a_forms 5 word 0 }
{
    let r1 = field_u8(word, 6..13);
    let r3 = field_u8(word, 20..22);
    let immb = field(word, 13..20);
    let immc = field(word, 22..27);
    let immd = field(word, 27..36);
    let s = field(word, 36..37);
    let imm = Difference(immb + (1 << 7) * (immd + (1 << 9) * immc), (1 << 21) * s);
    three_op(
        Some(0),
        Operand::GPRegister(GPRegister(r1)),
        imm.operand(),
        Operand::GPRegister(GPRegister(r3)),
    )
}

fn read_a6(word: u64) -> Reading
    ensures { result ≡ reading_of a_forms 6 word 0 }
{
    let p1 = field_u8(word, 6..12);
    let r2 = field_u8(word, 13..20);
    let r3 = field_u8(word, 20..27);
    let p2 = field_u8(word, 27..33);
    four_op(
        Some(1),
        Operand::PredicateRegister(PredicateRegister(p1)),
        Operand::PredicateRegister(PredicateRegister(p2)),
        Operand::GPRegister(GPRegister(r2)),
        Operand::GPRegister(GPRegister(r3)),
    )
}

fn read_a7(word: u64) -> Reading
    ensures { result ≡ reading_of a_forms 7 word 0 }
{
    let p1 = field_u8(word, 6..12);
    let r3 = field_u8(word, 20..27);
    let p2 = field_u8(word, 27..33);
    four_op(
        Some(1),
        Operand::PredicateRegister(PredicateRegister(p1)),
        Operand::PredicateRegister(PredicateRegister(p2)),
        Operand::GPRegister(GPRegister(0)),
        Operand::GPRegister(GPRegister(r3)),
    )
}

fn read_a8(word: u64) -> Reading
    ensures { result ≡ reading_of a_forms 8 word 0 }
{
    let p1 = field_u8(word, 6..12);
    let imm7b = field(word, 13..20);
    let s = field(word, 36..37);
    let imm = Difference(imm7b, (1 << 7) * s);
    let r3 = field_u8(word, 20..27);
    let p2 = field_u8(word, 27..33);
    four_op(
        Some(1),
        Operand::PredicateRegister(PredicateRegister(p1)),
        Operand::PredicateRegister(PredicateRegister(p2)),
        imm.operand(),
        Operand::GPRegister(GPRegister(r3)),
    )
}

fn read_a10(word: u64) -> Reading
    ensures { result ≡ reading_of a_forms 10 word 0 }
{
    let r1 = field_u8(word, 6..13);
    let r2 = field_u8(word, 13..20);
    let r3 = field_u8(word, 20..27);
    let ct = field(word, 27..29) + 1;
    four_op(
        Some(0),
        Operand::GPRegister(GPRegister(r1)),
        Operand::GPRegister(GPRegister(r2)),
        Operand::GPRegister(GPRegister(r3)),
        Operand::ImmU64(ct),
    )
}

pub fn read_a_operands(number: u64, word: u64) -> Reading
    ensures { result ≡ reading_of a_forms number word 0 }
{
    match number {
        1 | 9 => read_a1_a9(word),
        2 => read_a2(word),
        3 => read_a3(word),
        4 => read_a4(word),
        5 => read_a5(word),
        6 => read_a6(word),
        7 => read_a7(word),
        8 => read_a8(word),
        10 => read_a10(word),
        _ => no_op(),
    }
}
