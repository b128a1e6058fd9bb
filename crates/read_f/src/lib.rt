// `read_f_operands`: an arm of 000's `match` a function, in its order.
#![tactic(auto)]

ghost use Rattle.std.specs.Prelude.{◌≡◌};
ghost use Rattle.reading.specs.Line.{reading_of};
ghost use Rattle.read_f.specs.Table.{f_forms};

use operand::{
    FloatRegister, Operand, PredicateRegister, Reading, four_op, no_op, one_op, three_op, two_op,
};
use reading::{field, field_u8};

fn read_f1_f3(word: u64) -> Reading
    ensures { result ≡ reading_of f_forms 1 word 0 }
{
    let f1 = field_u8(word, 6..13);
    let f2 = field_u8(word, 13..20);
    let f3 = field_u8(word, 20..27);
    let f4 = field_u8(word, 27..34);
    four_op(
        Some(0),
        Operand::FloatRegister(FloatRegister(f1)),
        Operand::FloatRegister(FloatRegister(f3)),
        Operand::FloatRegister(FloatRegister(f4)),
        Operand::FloatRegister(FloatRegister(f2)),
    )
}

fn read_f4(word: u64) -> Reading
    ensures { result ≡ reading_of f_forms 4 word 0 }
{
    let p1 = field_u8(word, 6..12);
    let f2 = field_u8(word, 13..20);
    let f3 = field_u8(word, 20..27);
    let p2 = field_u8(word, 27..33);
    four_op(
        Some(1),
        Operand::PredicateRegister(PredicateRegister(p1)),
        Operand::PredicateRegister(PredicateRegister(p2)),
        Operand::FloatRegister(FloatRegister(f2)),
        Operand::FloatRegister(FloatRegister(f3)),
    )
}

fn read_f5(word: u64) -> Reading
    ensures { result ≡ reading_of f_forms 5 word 0 }
{
    let p1 = field_u8(word, 6..12);
    let f2 = field_u8(word, 13..20);
    let fclass7c = field(word, 20..27);
    let fc2 = field(word, 33..35);
    let fclass = fclass7c + (1 << 7) * fc2;
    let p2 = field_u8(word, 27..33);
    four_op(
        Some(1),
        Operand::PredicateRegister(PredicateRegister(p1)),
        Operand::PredicateRegister(PredicateRegister(p2)),
        Operand::FloatRegister(FloatRegister(f2)),
        Operand::ImmU64(fclass),
    )
}

fn read_f6(word: u64) -> Reading
    ensures { result ≡ reading_of f_forms 6 word 0 }
{
    let f1 = field_u8(word, 6..13);
    let f2 = field_u8(word, 13..20);
    let f3 = field_u8(word, 20..27);
    let p2 = field_u8(word, 27..33);
    four_op(
        Some(1),
        Operand::FloatRegister(FloatRegister(f1)),
        Operand::PredicateRegister(PredicateRegister(p2)),
        Operand::FloatRegister(FloatRegister(f2)),
        Operand::FloatRegister(FloatRegister(f3)),
    )
}

fn read_f7(word: u64) -> Reading
    ensures { result ≡ reading_of f_forms 7 word 0 }
{
    let f1 = field_u8(word, 6..13);
    let f3 = field_u8(word, 20..27);
    let p2 = field_u8(word, 27..33);
    three_op(
        Some(1),
        Operand::FloatRegister(FloatRegister(f1)),
        Operand::PredicateRegister(PredicateRegister(p2)),
        Operand::FloatRegister(FloatRegister(f3)),
    )
}

fn read_f8_f9(word: u64) -> Reading
    ensures { result ≡ reading_of f_forms 8 word 0 }
{
    let f1 = field_u8(word, 6..13);
    let f2 = field_u8(word, 13..20);
    let f3 = field_u8(word, 20..27);
    three_op(
        Some(0),
        Operand::FloatRegister(FloatRegister(f1)),
        Operand::FloatRegister(FloatRegister(f2)),
        Operand::FloatRegister(FloatRegister(f3)),
    )
}

fn read_f10_f11(word: u64) -> Reading
    ensures { result ≡ reading_of f_forms 10 word 0 }
{
    let f1 = field_u8(word, 6..13);
    let f2 = field_u8(word, 13..20);
    two_op(
        Some(0),
        Operand::FloatRegister(FloatRegister(f1)),
        Operand::FloatRegister(FloatRegister(f2)),
    )
}

fn read_f12(word: u64) -> Reading
    ensures { result ≡ reading_of f_forms 12 word 0 }
{
    let amask = field(word, 13..20);
    let omask = field(word, 20..27);
    two_op(None, Operand::ImmU64(amask), Operand::ImmU64(omask))
}

fn read_f14_f16(word: u64) -> Reading
    ensures { result ≡ reading_of f_forms 14 word 0 }
{
    let imm20a = field(word, 6..26);
    let imm = imm20a + (1 << 20) * field(word, 36..37);
    one_op(false, Operand::ImmU64(imm))
}

pub fn read_f_operands(number: u64, word: u64) -> Reading
    ensures { result ≡ reading_of f_forms number word 0 }
{
    match number {
        1 | 2 | 3 => read_f1_f3(word),
        4 => read_f4(word),
        5 => read_f5(word),
        6 => read_f6(word),
        7 => read_f7(word),
        8 | 9 => read_f8_f9(word),
        10 | 11 => read_f10_f11(word),
        12 => read_f12(word),
        13 => one_op(false, Operand::None),
        14 | 15 | 16 => read_f14_f16(word),
        _ => no_op(),
    }
}
