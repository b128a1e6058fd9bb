// A number written in decimal: its digits are counted, then stored from the last one on.
ghost use Rattle.std.specs.Prelude.{◌≡◌, ◌+◌, ◌≤◌, ◌<◌, length};
ghost use Rattle.text.specs.Decimal.{decimal};
ghost use Rattle.text.specs.Put.{Put, written};

use crate::put::put_text;

pub fn put_decimal(out: &mut [u8], at: usize, n: u64) -> usize
    ensures { Put out.old at (decimal n) out.new result }
{
    let count = digits(n);
    let end = at.saturating_add(count);
    if end <= out.len() {
        fill(out, at, end, n);
        return end;
    }
    let mut text = [0u8; 20];
    fill(&mut text, 0, count, n);
    put_text(out, at, &text[..count])
}

// How many digits a number has.
fn digits(n: u64) -> usize
    ensures { result ≡ length (decimal n) }
{
    let mut count = 0;
    let mut rest = n;
    while 10000 <= rest {
        count += 4;
        rest /= 10000;
    }
    count + few(rest)
}

// The same of a number of four digits at most.
fn few(n: u64) -> usize
    requires { n < 10000 }
    ensures { result ≡ length (decimal n) }
{
    if n < 10 {
        return 1;
    }
    if n < 100 {
        return 2;
    }
    if n < 1000 { 3 } else { 4 }
}

// Writes a number from `at` to `end`: four digits at a time.
fn fill(out: &mut [u8], at: usize, end: usize, n: u64)
    requires { (at + length (decimal n) ≡ end) × (end ≤ length out.old) }
    ensures { out.new ≡ written out.old at (decimal n) }
{
    let mut i = end;
    let mut rest = n;
    while 10000 <= rest {
        let four = rest % 10000;
        out[i - 1] = 48 + (four % 10) as u8;
        out[i - 2] = 48 + (four / 10 % 10) as u8;
        out[i - 3] = 48 + (four / 100 % 10) as u8;
        out[i - 4] = 48 + (four / 1000) as u8;
        i -= 4;
        rest /= 10000;
    }
    fill_few(out, at, i, rest);
}

// The same a digit at a time, for a number of few digits.
fn fill_few(out: &mut [u8], at: usize, end: usize, n: u64)
    requires { (at + length (decimal n) ≡ end) × (end ≤ length out.old) }
    ensures { out.new ≡ written out.old at (decimal n) }
{
    let mut i = end;
    let mut rest = n;
    while 10 <= rest {
        i -= 1;
        out[i] = 48 + (rest % 10) as u8;
        rest /= 10;
    }
    out[at] = 48 + rest as u8;
}
