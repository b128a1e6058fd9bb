// How a program was started, by its first two arguments.
ghost use Rattle.std.specs.Prelude.{◌≡◌};
ghost use Rattle.console.specs.Started.{is_descriptor, tells_status, started_by};

// The descriptor that the status is written to, where there is one, and which argument is the first of the program's own.
#[derive(Clone, Copy)]
pub struct Started {
    pub status: Option<u8>,
    pub first: usize,
}

// How a program was started whose first two arguments are these.
pub fn started_by(word: &[u8], number: &[u8]) -> Started
    ensures { result ≡ started_by word.now number.now }
{
    if tells_status(word, number) {
        return Started {
            status: Some(number[0] - b'0'),
            first: 3,
        };
    }
    Started {
        status: None,
        first: 1,
    }
}

// Whether they tell where the status goes.
fn tells_status(word: &[u8], number: &[u8]) -> bool
    ensures { result ≡ tells_status word.now number.now }
{
    check::same(word, b"--status") & is_descriptor(number)
}

// Whether a word is a descriptor.
fn is_descriptor(word: &[u8]) -> bool
    ensures { result ≡ is_descriptor word.now }
{
    matches!(word, [b'3'..=b'9'])
}

// Where the descriptor can be opened, of those that can tell where the status goes.
pub fn path(descriptor: u8) -> Option<&'static str> {
    match descriptor {
        3 => Some("/proc/self/fd/3"),
        4 => Some("/proc/self/fd/4"),
        5 => Some("/proc/self/fd/5"),
        6 => Some("/proc/self/fd/6"),
        7 => Some("/proc/self/fd/7"),
        8 => Some("/proc/self/fd/8"),
        9 => Some("/proc/self/fd/9"),
        _ => None,
    }
}
