// Opcode and form of an A word, by 000's A table: a function for each part of it, and one `match` or one list in each.
#![tactic(auto)]

ghost use Rattle.std.specs.Prelude.{◌≡◌, cond, [], ◌∷◌, ◌+◌, ◌<◌, T, ltb};
ghost use Rattle.bits.specs.Part.{part};
ghost use Rattle.opcodes.specs.Tables.{a_table, none, short, opcode, alu, multimedia};
ghost use Rattle.table.specs.Entry.{holds, chosen};

use bits::get;
use opcodes::{Named, Opcode};

// Opcode 8, x2a 0, ve 0: table 4-9, by x4 and x2b.
fn arithmetic(word: u64) -> Option<Named>
    requires { T (holds (alu []) word) }
    ensures { result ≡ short (chosen a_table word none) }
{
    let key = get(word, 27, 6);
    match key {
        0 => Some(Named(Opcode::Add, 1)),
        1 => Some(Named(Opcode::AddPlusOne, 1)),
        4 => Some(Named(Opcode::SubMinusOne, 1)),
        5 => Some(Named(Opcode::Sub, 1)),
        8 => Some(Named(Opcode::Addp4, 1)),
        12 => Some(Named(Opcode::And, 1)),
        13 => Some(Named(Opcode::Andcm, 1)),
        14 => Some(Named(Opcode::Or, 1)),
        15 => Some(Named(Opcode::Xor, 1)),
        16 => Some(Named(Opcode::Shladd, 2)),
        17 => Some(Named(Opcode::Shladd, 2)),
        18 => Some(Named(Opcode::Shladd, 2)),
        19 => Some(Named(Opcode::Shladd, 2)),
        24 => Some(Named(Opcode::Shladdp4, 2)),
        25 => Some(Named(Opcode::Shladdp4, 2)),
        26 => Some(Named(Opcode::Shladdp4, 2)),
        27 => Some(Named(Opcode::Shladdp4, 2)),
        37 => Some(Named(Opcode::Sub, 3)),
        44 => Some(Named(Opcode::And, 3)),
        45 => Some(Named(Opcode::Andcm, 3)),
        46 => Some(Named(Opcode::Or, 3)),
        47 => Some(Named(Opcode::Xor, 3)),
        _ => None,
    }
}

// Opcode 8, x2a 1, za 0, zb 0: table 4-13, by x4 and x2b.
fn multimedia_1(word: u64) -> Option<Named>
    requires { T (holds (multimedia 0 0 []) word) }
    ensures { result ≡ short (chosen a_table word none) }
{
    let key = get(word, 27, 6);
    match key {
        0 => Some(Named(Opcode::Padd1, 9)),
        1 => Some(Named(Opcode::Padd1_sss, 9)),
        2 => Some(Named(Opcode::Padd1_uuu, 9)),
        3 => Some(Named(Opcode::Padd1_uus, 9)),
        4 => Some(Named(Opcode::Psub1, 9)),
        5 => Some(Named(Opcode::Psub1_sss, 9)),
        6 => Some(Named(Opcode::Psub1_uuu, 9)),
        7 => Some(Named(Opcode::Psub1_uus, 9)),
        10 => Some(Named(Opcode::Pavg1, 9)),
        11 => Some(Named(Opcode::Pavg1_raz, 9)),
        14 => Some(Named(Opcode::Pavgsub1, 9)),
        36 => Some(Named(Opcode::Pcmp1_eq, 9)),
        37 => Some(Named(Opcode::Pcmp1_gt, 9)),
        _ => None,
    }
}

// Opcode 8, x2a 1, za 0, zb 1: table 4-14, by x4 and x2b.
fn multimedia_2(word: u64) -> Option<Named>
    requires { T (holds (multimedia 0 1 []) word) }
    ensures { result ≡ short (chosen a_table word none) }
{
    let key = get(word, 27, 6);
    match key {
        0 => Some(Named(Opcode::Padd2, 9)),
        1 => Some(Named(Opcode::Padd2_sss, 9)),
        2 => Some(Named(Opcode::Padd2_uuu, 9)),
        3 => Some(Named(Opcode::Padd2_uus, 9)),
        4 => Some(Named(Opcode::Psub2, 9)),
        5 => Some(Named(Opcode::Psub2_sss, 9)),
        6 => Some(Named(Opcode::Psub2_uuu, 9)),
        7 => Some(Named(Opcode::Psub2_uus, 9)),
        10 => Some(Named(Opcode::Pavg2, 9)),
        11 => Some(Named(Opcode::Pavg2_raz, 9)),
        14 => Some(Named(Opcode::Pavgsub2, 9)),
        16 => Some(Named(Opcode::Pshladd2, 10)),
        17 => Some(Named(Opcode::Pshladd2, 10)),
        18 => Some(Named(Opcode::Pshladd2, 10)),
        19 => Some(Named(Opcode::Pshladd2, 10)),
        24 => Some(Named(Opcode::Pshradd2, 10)),
        25 => Some(Named(Opcode::Pshradd2, 10)),
        26 => Some(Named(Opcode::Pshradd2, 10)),
        27 => Some(Named(Opcode::Pshradd2, 10)),
        36 => Some(Named(Opcode::Pcmp2_eq, 9)),
        37 => Some(Named(Opcode::Pcmp2_gt, 9)),
        _ => None,
    }
}

// Opcode 8, x2a 1, za 1, zb 0: table 4-15, by x4 and x2b.
fn multimedia_4(word: u64) -> Option<Named>
    requires { T (holds (multimedia 1 0 []) word) }
    ensures { result ≡ short (chosen a_table word none) }
{
    let key = get(word, 27, 6);
    match key {
        0 => Some(Named(Opcode::Padd4, 9)),
        4 => Some(Named(Opcode::Psub4, 9)),
        36 => Some(Named(Opcode::Pcmp4_eq, 9)),
        37 => Some(Named(Opcode::Pcmp4_gt, 9)),
        _ => None,
    }
}

// Opcode 8: table 4-8, by ve or zb, x2a, and za.
fn integer(word: u64) -> Option<Named>
    requires { T (holds (opcode 8 ∷ []) word) }
    ensures { result ≡ short (chosen a_table word none) }
{
    let key = get(word, 33, 4);
    match key {
        0 => arithmetic(word),
        2 => multimedia_1(word),
        3 => multimedia_2(word),
        4 => Some(Named(Opcode::Adds, 4)),
        6 => Some(Named(Opcode::Addp4, 4)),
        8 => arithmetic(word),
        10 => multimedia_4(word),
        12 => Some(Named(Opcode::Adds, 4)),
        14 => Some(Named(Opcode::Addp4, 4)),
        _ => None,
    }
}

// 000's tables 4-10, of opcodes 12, 13 and 14, one after the other. Its tables 4-11 are the entries of these with tb 0.
const COMPARES: [Opcode; 48] = [
    Opcode::Cmp_lt,
    Opcode::Cmp_lt_unc,
    Opcode::Cmp_eq_and,
    Opcode::Cmp_ne_and,
    Opcode::Cmp_gt_and,
    Opcode::Cmp_le_and,
    Opcode::Cmp_ge_and,
    Opcode::Cmp_lt_and,
    Opcode::Cmp4_lt,
    Opcode::Cmp4_lt_unc,
    Opcode::Cmp4_eq_and,
    Opcode::Cmp4_ne_and,
    Opcode::Cmp4_gt_and,
    Opcode::Cmp4_le_and,
    Opcode::Cmp4_ge_and,
    Opcode::Cmp4_lt_and,
    Opcode::Cmp_ltu,
    Opcode::Cmp_ltu_unc,
    Opcode::Cmp_eq_or,
    Opcode::Cmp_ne_or,
    Opcode::Cmp_gt_or,
    Opcode::Cmp_le_or,
    Opcode::Cmp_ge_or,
    Opcode::Cmp_lt_or,
    Opcode::Cmp4_ltu,
    Opcode::Cmp4_ltu_unc,
    Opcode::Cmp4_eq_or,
    Opcode::Cmp4_ne_or,
    Opcode::Cmp4_gt_or,
    Opcode::Cmp4_le_or,
    Opcode::Cmp4_ge_or,
    Opcode::Cmp4_lt_or,
    Opcode::Cmp_eq,
    Opcode::Cmp_eq_unc,
    Opcode::Cmp_eq_or_andcm,
    Opcode::Cmp_ne_or_andcm,
    Opcode::Cmp_gt_or_andcm,
    Opcode::Cmp_le_or_andcm,
    Opcode::Cmp_ge_or_andcm,
    Opcode::Cmp_lt_or_andcm,
    Opcode::Cmp4_eq,
    Opcode::Cmp4_eq_unc,
    Opcode::Cmp4_eq_or_andcm,
    Opcode::Cmp4_ne_or_andcm,
    Opcode::Cmp4_gt_or_andcm,
    Opcode::Cmp4_le_or_andcm,
    Opcode::Cmp4_ge_or_andcm,
    Opcode::Cmp4_lt_or_andcm,
];

// Opcode 12 + row: tables 4-10 and 4-11, by x2, tb, ta and c. The odd form, 7, is the one with tb 1.
fn compare(row: u64, word: u64) -> Option<Named>
    requires { (row < 3) × (part word 37 4 ≡ 12 + row) }
    ensures { result ≡ short (chosen a_table word none) }
{
    let x2 = get(word, 34, 2);
    let ta = get(word, 33, 1);
    let c = get(word, 12, 1);
    let form = compare_form(x2, word);
    let at = row * 16 + x2 % 2 * 8 + form % 2 * 4 + ta * 2 + c;
    Some(Named(COMPARES[at as usize], form))
}

// The form of a compare: 8, with an immediate, where x2 is 2 or 3, whatever tb is; else 6 or 7, by tb.
fn compare_form(x2: u64, word: u64) -> u64
    ensures { result ≡ cond (ltb 1 x2) 8 (part word 36 1 + 6) }
{
    if 1 < x2 {
        return 8;
    }
    get(word, 36, 1) + 6
}

// Opcodes 8 to 11.
fn from_8(word: u64) -> Option<Named>
    requires { T (holds ((39, 2, 2) ∷ []) word) }
    ensures { result ≡ short (chosen a_table word none) }
{
    let key = get(word, 37, 4);
    match key {
        8 => integer(word),
        9 => Some(Named(Opcode::Addl, 5)),
        _ => None,
    }
}

// Opcodes 12 to 15.
fn from_12(word: u64) -> Option<Named>
    requires { T (holds ((39, 2, 3) ∷ []) word) }
    ensures { result ≡ short (chosen a_table word none) }
{
    let key = get(word, 37, 4);
    match key {
        12 => compare(0, word),
        13 => compare(1, word),
        14 => compare(2, word),
        _ => None,
    }
}

// 000's A table, by the opcode's upper half first: a few arms are compares, and many a table of jumps, which is slower.
pub fn named_a(word: u64) -> Option<Named>
    ensures { result ≡ short (chosen a_table word none) }
{
    let key = get(word, 39, 2);
    match key {
        2 => from_8(word),
        3 => from_12(word),
        _ => None,
    }
}
