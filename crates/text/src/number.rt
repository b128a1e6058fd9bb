// Reading a decimal: no leading zero, below 2 ^ 64, up to the first byte that is no digit.
ghost use Rattle.std.specs.Prelude.{◌≡◌};
ghost use Rattle.text.specs.Number.{number_of};

// Below it, a number takes one more digit; from it on, that has to be worked out.
const TENTH: u64 = u64::MAX / 10;

// The decimal that stands at a place, and the place after it. Its first digit is read apart: after a zero there is no other.
pub fn read_decimal(text: &[u8], at: usize) -> Option<(u64, usize)>
    ensures { result ≡ number_of text.now at }
{
    if text.len() <= at {
        return None;
    }
    let first = text[at];
    if !first.is_ascii_digit() {
        return None;
    }
    let mut n = u64::from(first - b'0');
    for (i, c) in text[at + 1..].iter().enumerate() {
        if !c.is_ascii_digit() {
            return Some((n, at + 1 + i));
        }
        let digit = u64::from(*c - b'0');
        if n == 0 {
            return None;
        }
        if TENTH <= n && (u64::MAX - digit) / 10 < n {
            return None;
        }
        n = n * 10 + digit;
    }
    Some((n, text.len()))
}
