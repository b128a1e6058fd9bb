// Why a call refuses, and the number that it answers then, by 01 and 02: 0 where it accepts.
#![tactic(auto)]

ghost use Rattle.std.specs.Prelude.{◌≡◌};
ghost use Rattle.answer.specs.Answer.{number_of, answer_of};

#[derive(Clone, Copy, PartialEq, Eq)]
pub enum Refusal {
    ExhaustedInput = 1,
    BadBundle,
    BadForm,
    BadWord,
    BadSlot,
    BadValue,
    Full,
    Empty,
    Stale,
    TooLong,
    BadJournal,
    NoRoom,
    BadSheet,
    BadOpcode,
    Retired,
    BadScript,
}

impl Refusal {
    pub fn number(self) -> u8
        ensures { result ≡ number_of self }
    {
        self as u8
    }
}

// What a call answers that came to this.
pub fn answer_of<T>(of: &Result<T, Refusal>) -> u8
    ensures { result ≡ answer_of of.now }
{
    match of {
        Ok(_) => 0,
        Err(refusal) => refusal.number(),
    }
}
