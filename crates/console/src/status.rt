// The statuses that a program ends with.
ghost use Rattle.std.specs.Prelude.{◌≡◌};
ghost use Rattle.console.specs.Status.{number_of};

// All was done; the input was refused; the arguments are wrong; the system failed; another has the lock. `Unread` is what a shell tells of a
// program that writes where nobody reads, 128 and the number of the signal that ended it: no status is written then.
#[derive(Clone, Copy, PartialEq, Eq, PartialOrd, Ord)]
pub enum Status {
    Done = 0,
    Refused = 1,
    Usage = 2,
    System = 3,
    Locked = 4,
    Unread = 141,
}

impl Status {
    pub fn number(self) -> u8
        ensures { result ≡ number_of self }
    {
        self as u8
    }
}

impl From<Status> for u64 {
    ghost use Rattle.std.specs.Prelude.{◌≡◌};
    ghost use Rattle.console.specs.Status.{number_of};

    ghost from_gives = { λ status number. number ≡ number_of status };

    fn from(status: Status) -> u64 {
        u64::from(status.number())
    }
}
