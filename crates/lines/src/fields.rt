// The numbers of a line, each after one space.

// The first N fields from `from` on, all of them numbers, and where they end.
pub fn numbers_at<const N: usize>(line: &[u8], from: usize) -> Option<([u64; N], usize)> {
    let mut of = [0; N];
    let end = read_numbers(line, from, &mut of)?;
    Some((of, end))
}

// Fills `of` with the fields from `from` on, up to one that is no number, and answers where they end, where all of them are.
pub fn read_numbers(line: &[u8], from: usize, of: &mut [u64]) -> Option<usize> {
    let mut at = from;
    for number in of {
        let (value, end) = text::read_decimal(line, after(line, at)?)?;
        *number = value;
        at = end;
    }
    Some(at)
}

// The place after one space.
fn after(line: &[u8], at: usize) -> Option<usize> {
    if line.get(at) == Some(&b' ') {
        Some(at + 1)
    } else {
        None
    }
}

// What stands after one space, or nothing.
pub fn rest(line: &[u8]) -> &[u8] {
    match line {
        [b' ', rest @ ..] => rest,
        _ => &[],
    }
}
