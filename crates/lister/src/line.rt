// The lines of a listing. Each is written at a place and answers the place after it.
ghost use Rattle.std.specs.Prelude.{◌∷◌, []};
ghost use Rattle.bundle.specs.Bundle.{as_cut};
ghost use Rattle.bundle.specs.Template.{marked, marked_units};
ghost use Rattle.text.specs.Fields.{fields};
ghost use Rattle.text.specs.Put.{Put};
ghost use Rattle.lister.specs.Listing.{WasFound, bundle_line, shown, rest_of};

use bundle::{Bundle, Template, Uncut};
use text::{NEWLINE, TAB, put_byte, put_field, put_fields, put_text};

// The line of bundle `n`, which was found.
pub fn put_line(out: &mut [u8], at: usize, n: u64, cut: Result<Bundle, Uncut>) -> usize
    requires { WasFound cut }
    ensures { Put out.old at (bundle_line n (as_cut cut)) out.new result }
{
    match cut {
        Ok(bundle) => {
            let next = put_numbers(out, at, n, bundle.template.tag);
            put_slots(out, next, bundle)
        }
        Err(Uncut::Reserved(tag)) => {
            let next = put_numbers(out, at, n, tag);
            put_text(out, next, b"reserved\n")
        }
        Err(Uncut::Missing(_)) => unreachable!(),
    }
}

// Its number and its tag.
fn put_numbers(out: &mut [u8], at: usize, n: u64, tag: u8) -> usize
    ensures { Put out.old at (fields (n ∷ tag ∷ []) (9 ∷ 9 ∷ [])) out.new result }
{
    put_fields(out, at, &[n, u64::from(tag)], b"\t\t")
}

// Its units and slots.
fn put_slots(out: &mut [u8], at: usize, bundle: Bundle) -> usize
    ensures { Put out.old at (shown bundle.template bundle.slots) out.new result }
{
    let mut next = put_units(out, at, bundle.template);
    next = put_byte(out, next, TAB);
    put_fields(out, next, &bundle.slots, b"\t\t\n")
}

// A template's units, each with its stop.
pub fn put_units(out: &mut [u8], at: usize, template: Template) -> usize
    ensures { Put out.old at (marked_units template) out.new result }
{
    let mut next = at;
    for (unit, stop) in template.units.iter().zip(template.stops.iter()) {
        next = put_unit(out, next, *unit, *stop);
    }
    next
}

fn put_unit(out: &mut [u8], at: usize, unit: u8, stop: bool) -> usize
    ensures { Put out.old at (marked unit stop) out.new result }
{
    if stop {
        return put_text(out, at, &[unit, b';']);
    }
    put_byte(out, at, unit)
}

// The line of the bytes left over, where there are any.
pub fn put_rest(out: &mut [u8], at: usize, bytes: u64) -> usize
    ensures { Put out.old at (rest_of bytes) out.new result }
{
    if bytes == 0 {
        return at;
    }
    let next = put_text(out, at, b"rest\t");
    put_field(out, next, bytes, NEWLINE)
}
