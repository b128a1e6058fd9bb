// `read_b_operands`: an arm of 000's `match` a function, in its order.
#![tactic(auto)]

ghost use Rattle.std.specs.Prelude.{◌≡◌};
ghost use Rattle.reading.specs.Line.{reading_of};
ghost use Rattle.read_b.specs.Table.{b_forms};

use operand::{BranchRegister, Operand, Reading, five_op, four_op, no_op, one_op};
use reading::{Difference, field, field_u8};

fn read_b1_b2(word: u64) -> Reading
    ensures { result ≡ reading_of b_forms 1 word 0 }
{
    let imm20b = field(word, 13..33);
    let s = field(word, 36..37);
    let imm = Difference((1 << 4) * imm20b, (1 << 24) * s);
    let wh = field(word, 33..35);
    let d = field(word, 35..36);
    let p = field(word, 12..13);
    four_op(
        None,
        imm.operand(),
        Operand::ImmU64(p),
        Operand::ImmU64(wh),
        Operand::ImmU64(d),
    )
}

fn read_b3(word: u64) -> Reading
    ensures { result ≡ reading_of b_forms 3 word 0 }
{
    let imm20b = field(word, 13..33);
    let s = field(word, 36..37);
    let imm = Difference((1 << 4) * imm20b, (1 << 24) * s);
    let wh = field(word, 33..35);
    let d = field(word, 35..36);
    let p = field(word, 12..13);
    let b1 = field_u8(word, 6..9);
    five_op(
        None,
        Operand::BranchRegister(BranchRegister(b1)),
        imm.operand(),
        Operand::ImmU64(p),
        Operand::ImmU64(wh),
        Operand::ImmU64(d),
    )
}

fn read_b4(word: u64) -> Reading
    ensures { result ≡ reading_of b_forms 4 word 0 }
{
    let b2 = field_u8(word, 13..16);
    let wh = field(word, 33..35);
    let d = field(word, 35..36);
    let p = field(word, 12..13);
    four_op(
        None,
        Operand::BranchRegister(BranchRegister(b2)),
        Operand::ImmU64(p),
        Operand::ImmU64(wh),
        Operand::ImmU64(d),
    )
}

fn read_b5(word: u64) -> Reading
    ensures { result ≡ reading_of b_forms 5 word 0 }
{
    let b2 = field_u8(word, 13..16);
    let wh = field(word, 33..35);
    let d = field(word, 35..36);
    let p = field(word, 12..13);
    let b1 = field_u8(word, 6..9);
    five_op(
        None,
        Operand::BranchRegister(BranchRegister(b1)),
        Operand::BranchRegister(BranchRegister(b2)),
        Operand::ImmU64(p),
        Operand::ImmU64(wh),
        Operand::ImmU64(d),
    )
}

fn read_b6(word: u64) -> Reading
    ensures { result ≡ reading_of b_forms 6 word 0 }
{
    let timm7a = field(word, 6..13);
    let imm20b = field(word, 13..33);
    let wh = field(word, 3..5);
    let t2e = field(word, 33..35);
    let tag = timm7a + (1 << 7) * t2e;
    let ih = field(word, 33..35);
    let s = field(word, 36..37);
    let imm = Difference(imm20b + (1 << 20) * s, 0);
    four_op(
        None,
        imm.operand(),
        Operand::ImmU64(tag),
        Operand::ImmU64(ih),
        Operand::ImmU64(wh),
    )
}

fn read_b7(word: u64) -> Reading
    ensures { result ≡ reading_of b_forms 7 word 0 }
{
    let timm7a = field(word, 6..13);
    let b2 = field_u8(word, 13..16);
    let wh = field(word, 3..5);
    let t2e = field(word, 33..35);
    let tag = timm7a + (1 << 7) * t2e;
    let ih = field(word, 35..36);
    four_op(
        None,
        Operand::BranchRegister(BranchRegister(b2)),
        Operand::ImmU64(tag),
        Operand::ImmU64(ih),
        Operand::ImmU64(wh),
    )
}

fn read_b9(word: u64) -> Reading
    ensures { result ≡ reading_of b_forms 9 word 0 }
{
    let imm20b = field(word, 6..26);
    let imm = imm20b + (1 << 20) * field(word, 20..21);
    one_op(false, Operand::ImmU64(imm))
}

pub fn read_b_operands(number: u64, word: u64) -> Reading
    ensures { result ≡ reading_of b_forms number word 0 }
{
    match number {
        1 | 2 => read_b1_b2(word),
        3 => read_b3(word),
        4 => read_b4(word),
        5 => read_b5(word),
        6 => read_b6(word),
        7 => read_b7(word),
        8 => one_op(false, Operand::None),
        9 => read_b9(word),
        _ => no_op(),
    }
}
