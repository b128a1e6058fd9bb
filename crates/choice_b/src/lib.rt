// Opcode and form of a B word, by 000's B table: a function for each part of it, and one `match` in each.
#![tactic(auto)]

ghost use Rattle.std.specs.Prelude.{◌≡◌, [], ◌∷◌, T};
ghost use Rattle.opcodes.specs.Tables.{b_table, none, short, opcode, x6};
ghost use Rattle.table.specs.Entry.{holds, chosen};

use bits::get;
use opcodes::{Named, Opcode};

// Opcode 0, x6 32: table 4-49, by btype.
fn indirect(word: u64) -> Option<Named>
    requires { T (holds (opcode 0 ∷ x6 32 ∷ []) word) }
    ensures { result ≡ short (chosen b_table word none) }
{
    let key = get(word, 6, 3);
    match key {
        0 => Some(Named(Opcode::Br_cond, 4)),
        1 => Some(Named(Opcode::Br_ia, 4)),
        _ => None,
    }
}

// Opcode 0, x6 33: table 4-50, by btype.
fn returning(word: u64) -> Option<Named>
    requires { T (holds (opcode 0 ∷ x6 33 ∷ []) word) }
    ensures { result ≡ short (chosen b_table word none) }
{
    let key = get(word, 6, 3);
    match key {
        4 => Some(Named(Opcode::Br_ret, 4)),
        _ => None,
    }
}

// Opcode 0: table 4-48, by x6.
fn miscellaneous(word: u64) -> Option<Named>
    requires { T (holds (opcode 0 ∷ []) word) }
    ensures { result ≡ short (chosen b_table word none) }
{
    let key = get(word, 27, 6);
    match key {
        0 => Some(Named(Opcode::Break_b, 9)),
        2 => Some(Named(Opcode::Cover, 8)),
        4 => Some(Named(Opcode::Clrrb, 8)),
        5 => Some(Named(Opcode::Clrrb_pr, 8)),
        8 => Some(Named(Opcode::Rfi, 8)),
        12 => Some(Named(Opcode::Bsw_0, 8)),
        13 => Some(Named(Opcode::Bsw_1, 8)),
        16 => Some(Named(Opcode::Epc, 8)),
        24 => Some(Named(Opcode::Vmsw_0, 8)),
        25 => Some(Named(Opcode::Vmsw_1, 8)),
        32 => indirect(word),
        33 => returning(word),
        _ => None,
    }
}

// Opcode 2: table 4-55, by x6.
fn hints(word: u64) -> Option<Named>
    requires { T (holds (opcode 2 ∷ []) word) }
    ensures { result ≡ short (chosen b_table word none) }
{
    let key = get(word, 27, 6);
    match key {
        0 => Some(Named(Opcode::Nop_b, 9)),
        1 => Some(Named(Opcode::Hint_b, 9)),
        16 => Some(Named(Opcode::Brp, 7)),
        17 => Some(Named(Opcode::Brp_ret, 7)),
        _ => None,
    }
}

// Opcode 4: table 4-47, by btype.
fn relative(word: u64) -> Option<Named>
    requires { T (holds (opcode 4 ∷ []) word) }
    ensures { result ≡ short (chosen b_table word none) }
{
    let key = get(word, 6, 3);
    match key {
        0 => Some(Named(Opcode::Br_cond, 1)),
        2 => Some(Named(Opcode::Br_wexit, 1)),
        3 => Some(Named(Opcode::Br_wtop, 1)),
        5 => Some(Named(Opcode::Br_cloop, 2)),
        6 => Some(Named(Opcode::Br_cexit, 2)),
        7 => Some(Named(Opcode::Br_ctop, 2)),
        _ => None,
    }
}

// Opcodes 0 to 3.
fn from_0(word: u64) -> Option<Named>
    requires { T (holds ((39, 2, 0) ∷ []) word) }
    ensures { result ≡ short (chosen b_table word none) }
{
    let key = get(word, 37, 4);
    match key {
        0 => miscellaneous(word),
        1 => Some(Named(Opcode::Br_call, 5)),
        2 => hints(word),
        _ => None,
    }
}

// Opcodes 4 to 7.
fn from_4(word: u64) -> Option<Named>
    requires { T (holds ((39, 2, 1) ∷ []) word) }
    ensures { result ≡ short (chosen b_table word none) }
{
    let key = get(word, 37, 4);
    match key {
        4 => relative(word),
        5 => Some(Named(Opcode::Br_call, 3)),
        7 => Some(Named(Opcode::Brp_ipwh_ih, 6)),
        _ => None,
    }
}

// 000's B table, by the opcode's upper half first: a few arms are compares, and many a table of jumps, which is slower.
pub fn named_b(word: u64) -> Option<Named>
    ensures { result ≡ short (chosen b_table word none) }
{
    let key = get(word, 39, 2);
    match key {
        0 => from_0(word),
        1 => from_4(word),
        _ => None,
    }
}
