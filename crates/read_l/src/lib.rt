// `read_l_operands`: an arm of 000's `match` a function, in its order.
#![tactic(auto)]

ghost use Rattle.std.specs.Prelude.{◌≡◌};
ghost use Rattle.reading.specs.Line.{reading_of};
ghost use Rattle.read_l.specs.Table.{x_forms};

use operand::{BranchRegister, GPRegister, Operand, Reading, no_op, one_op, two_op};
use reading::{field, field_u8};

fn read_x1_x5(word: u64, word2: u64) -> Reading
    ensures { result ≡ reading_of x_forms 1 word word2 }
{
    let imm20a = field(word, 6..26);
    let i = field(word, 36..37);
    let imm41 = field(word2, 0..41);
    let imm = imm20a + (1 << 20) * (i + 2 * imm41);
    one_op(false, Operand::ImmU64(imm))
}

fn read_x2(word: u64, word2: u64) -> Reading
    ensures { result ≡ reading_of x_forms 2 word word2 }
{
    let r1 = field_u8(word, 6..13);
    let imm7b = field(word, 13..20);
    let ic = field(word, 21..22);
    let immd = field(word, 27..36);
    let immc = field(word, 22..27);
    let i = field(word, 36..37);
    let imm41 = field(word2, 0..41);
    let imm = imm7b
        + (1 << 7) * (immd + (1 << 9) * (immc + (1 << 5) * (ic + 2 * (imm41 + (1 << 41) * i))));
    two_op(
        Some(0),
        Operand::GPRegister(GPRegister(r1)),
        Operand::ImmU64(imm),
    )
}

fn read_x3(word: u64, word2: u64) -> Reading
    ensures { result ≡ reading_of x_forms 3 word word2 }
{
    let imm20b = field(word, 13..33);
    let i = field(word, 36..37);
    let imm39 = field(word2, 2..41);
    let imm = imm20b + (1 << 20) * (i + 2 * imm39);
    one_op(false, Operand::ImmU64(imm))
}

fn read_x4(word: u64, word2: u64) -> Reading
    ensures { result ≡ reading_of x_forms 4 word word2 }
{
    let b1 = field_u8(word, 6..9);
    let imm20b = field(word, 13..33);
    let i = field(word, 36..37);
    let imm39 = field(word2, 2..41);
    let imm = imm20b + (1 << 20) * (i + 2 * imm39);
    two_op(
        Some(0),
        Operand::BranchRegister(BranchRegister(b1)),
        Operand::ImmU64(imm),
    )
}

pub fn read_l_operands(number: u64, word: u64, word2: u64) -> Reading
    ensures { result ≡ reading_of x_forms number word word2 }
{
    match number {
        1 | 5 => read_x1_x5(word, word2),
        2 => read_x2(word, word2),
        3 => read_x3(word, word2),
        4 => read_x4(word, word2),
        _ => no_op(),
    }
}
