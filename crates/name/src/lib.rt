// A form as text, `M48`, and `-` for no form: read and written.
#![tactic(auto)]

ghost use Rattle.std.specs.Prelude.{◌≡◌, [], ◌∷◌, ◌++◌};
ghost use Rattle.text.specs.Put.{Put};
ghost use Rattle.name.specs.Name.{is_letter, name_of, name_at, named_at};

use form::{Form, NO_FORM};
use text::put_byte;

const DASH: u64 = b'-' as u64;

const Z: u64 = b'Z' as u64;

pub fn put_name(out: &mut [u8], at: usize, form: Form) -> usize
    ensures { Put out.old at (name_of form) out.new result }
{
    let family = form.family;
    if !is_letter(family) {
        return put_byte(out, at, b'-');
    }
    let next = put_byte(out, at, family as u8);
    text::put_decimal(out, next, form.number)
}

// A name, and the byte that ends it.
pub fn put_field(out: &mut [u8], at: usize, form: Form, end: u8) -> usize
    ensures { Put out.old at (name_of form ++ (end ∷ [])) out.new result }
{
    let next = put_name(out, at, form);
    put_byte(out, next, end)
}

// The form whose name stands at a place, and the place after it.
pub fn read_name(text: &[u8], at: usize) -> Option<(Form, usize)>
    ensures { result ≡ name_at text.now at }
{
    if text.len() <= at {
        return None;
    }
    let family = u64::from(text[at]);
    if family == DASH {
        return Some((NO_FORM, at + 1));
    }
    if !is_letter(family) {
        return None;
    }
    let (number, next) = text::read_decimal(text, at + 1)?;
    Some((Form { family, number }, next))
}

// The form at a place whose name the byte ends.
pub fn read_field(text: &[u8], at: usize, end: u8) -> Option<(Form, usize)>
    ensures { result ≡ named_at text.now at end }
{
    let (form, next) = read_name(text, at)?;
    if text::is_at(text, next, end) {
        Some((form, next + 1))
    } else {
        None
    }
}

fn is_letter(c: u64) -> bool
    ensures { result ≡ is_letter c }
{
    (form::A <= c) & (c <= Z)
}
