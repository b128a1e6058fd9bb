// An instruction's operands with 000's names, and a reading: the last-written position and five operands.
#![tactic(auto)]

mod twos;

ghost use Rattle.std.specs.Prelude.{◌≡◌, [], ◌∷◌};
ghost use Rattle.operand.specs.Reading.{listed, one, unread};

pub use twos::pattern_in;

#[derive(Clone, Copy, PartialEq, Eq)]
pub struct GPRegister(pub u8);

#[derive(Clone, Copy, PartialEq, Eq)]
pub struct FloatRegister(pub u8);

#[derive(Clone, Copy, PartialEq, Eq)]
pub struct PredicateRegister(pub u8);

#[derive(Clone, Copy, PartialEq, Eq)]
pub struct ControlRegister(pub u8);

#[derive(Clone, Copy, PartialEq, Eq)]
pub struct BranchRegister(pub u8);

#[derive(Clone, Copy, PartialEq, Eq)]
pub enum IndirectionReg {
    Cpuid,
    Dbr,
    Dtr,
    Ibr,
    Itr,
    Msr,
    Pkr,
    Pmc,
    Pmd,
    Rr,
}

#[derive(Clone, Copy, PartialEq, Eq)]
pub struct ApplicationRegister(pub u8);

#[derive(Clone, Copy, PartialEq, Eq)]
pub enum Operand {
    None,
    GPRegister(GPRegister),
    FloatRegister(FloatRegister),
    PredicateRegister(PredicateRegister),
    ImmI64(i64),
    ImmU64(u64),
    Memory(GPRegister),
    PSR, // processor status register
    PSR_l, // its lower 32 bits
    PSR_um, // its user mask
    PR, // all 64 predicate registers
    IP,
    ApplicationRegister(ApplicationRegister),
    BranchRegister(BranchRegister),
    ControlRegister(ControlRegister),
    Indirection(IndirectionReg, GPRegister),
}

#[derive(Clone, Copy, PartialEq, Eq)]
pub struct Shown(pub Operand);

#[derive(Clone, Copy, PartialEq, Eq)]
pub struct Reading {
    // the last operand that the instruction writes
    pub position: Option<u8>,
    pub operands: [Shown; 5],
}

// No position, five `None`: what a refusal shows.
pub fn no_op() -> Reading
    ensures { result ≡ unread }
{
    two_op(None, Operand::None, Operand::None)
}

pub fn one_op(dest: bool, op: Operand) -> Reading
    ensures { result ≡ one dest op }
{
    if dest {
        two_op(Some(0), op, Operand::None)
    } else {
        two_op(None, op, Operand::None)
    }
}

pub fn two_op(dest: Option<u8>, op1: Operand, op2: Operand) -> Reading
    ensures { result ≡ listed dest (op1 ∷ op2 ∷ []) }
{
    five_op(dest, op1, op2, Operand::None, Operand::None, Operand::None)
}

pub fn three_op(dest: Option<u8>, op1: Operand, op2: Operand, op3: Operand) -> Reading
    ensures { result ≡ listed dest (op1 ∷ op2 ∷ op3 ∷ []) }
{
    five_op(dest, op1, op2, op3, Operand::None, Operand::None)
}

pub fn four_op(dest: Option<u8>, op1: Operand, op2: Operand, op3: Operand, op4: Operand) -> Reading
    ensures { result ≡ listed dest (op1 ∷ op2 ∷ op3 ∷ op4 ∷ []) }
{
    five_op(dest, op1, op2, op3, op4, Operand::None)
}

// Where 000 writes the pair out.
pub fn five_op(
    dest: Option<u8>,
    op1: Operand,
    op2: Operand,
    op3: Operand,
    op4: Operand,
    op5: Operand,
) -> Reading
    ensures { result ≡ listed dest (op1 ∷ op2 ∷ op3 ∷ op4 ∷ op5 ∷ []) }
{
    Reading {
        position: dest,
        operands: [Shown(op1), Shown(op2), Shown(op3), Shown(op4), Shown(op5)],
    }
}
