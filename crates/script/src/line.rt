// A line of a script: what it asks.
ghost use Rattle.std.specs.Prelude.{◌≡◌, ◌+◌, ◌<◌, ◌≤◌, cond, length, drop};
ghost use Rattle.immediate.specs.Immediate.{edit_by_pattern};
ghost use Rattle.meaning.specs.Meaning.{patterned};
ghost use Rattle.text.specs.Ascii.{starts_with};
ghost use Rattle.script.specs.Line.{edit_at, act_at, asked_in};
ghost use Rattle.script.specs.inner.Going.{line_at};

use form::{Edit, Form, NO_FORM};
use journal::Act;
use operand::Operand;
use text::{NEWLINE, TAB};

// What the line at a place of a text asks, where it doesn't stop the script, and the place after it.
#[derive(Clone, Copy)]
pub struct Turn {
    pub asked: Option<Act>,
    pub end: usize,
}

pub fn turn_at(text: &[u8], at: usize, next: u64) -> Turn
    requires { at < length text.now }
    ensures { (result.asked ≡ asked_in next (line_at text.now at)) × (result.end ≡ at + length (line_at text.now at)) }
{
    let end = end_of(text, at);
    let asked = asked_in(&text[at..end], next);
    Turn { asked, end }
}

// The place after the line's newline, or the text's end.
fn end_of(text: &[u8], at: usize) -> usize
    requires { at < length text.now }
    ensures { result ≡ at + length (line_at text.now at) }
{
    match memchr::memchr(NEWLINE, &text[at..]) {
        Some(last) => at + last + 1,
        None => text.len(),
    }
}

// What a line asks while that number is expected.
fn asked_in(line: &[u8], next: u64) -> Option<Act>
    ensures { result ≡ asked_in next line.now }
{
    let (number, at) = text::read_field(line, 0, TAB)?;
    if (number == next) & (number != 0) {
        act_at(line, at)
    } else {
        None
    }
}

fn act_at(line: &[u8], at: usize) -> Option<Act>
    ensures { result ≡ act_at line.now at }
{
    if is_word(line, at, b"edit\t") {
        return edit_at(line, at + 5);
    }
    if is_word(line, at, b"undo\n") {
        return Some(Act::Undo);
    }
    None
}

// Whether the word stands at a place.
fn is_word(line: &[u8], at: usize, word: &[u8]) -> bool
    ensures { result ≡ starts_with word.now (drop at line.now) }
{
    if line.len() < at {
        return text::begins(&line[..0], word);
    }
    text::begins(&line[at..], word)
}

fn edit_at(line: &[u8], at: usize) -> Option<Act>
    ensures { result ≡ edit_at line.now at }
{
    let (bundle, second) = text::read_field(line, at, TAB)?;
    let (slot, third) = text::read_field(line, second, TAB)?;
    let (form, fourth) = name::read_field(line, third, TAB)?;
    if form == NO_FORM {
        return None; // `-`
    }
    let (pattern, _) = text::read_field(line, fourth, NEWLINE)?;
    Some(Act::Edit(edit_of(bundle, slot, form, pattern)))
}

// The edit whose value has that pattern, with the sign that the form's values have.
fn edit_of(bundle: u64, slot: u64, form: Form, pattern: u64) -> Edit
    ensures { result ≡ edit_by_pattern bundle slot form pattern }
{
    let signed = row::packed_of(form).is_some_and(|row| meaning::has_sign(row.meaning));
    let value = value_of(signed, pattern);
    Edit {
        bundle,
        slot,
        form,
        value,
    }
}

fn value_of(signed: bool, pattern: u64) -> Operand
    ensures { result ≡ patterned signed pattern }
{
    if signed {
        Operand::ImmI64(pattern.cast_signed())
    } else {
        Operand::ImmU64(pattern)
    }
}
