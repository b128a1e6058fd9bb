// A bundle as a line: its address, its units with their stops, and of each slot the word, and the form, number and target that it has.
use crate::aim::Aim;
use message::put_address;
use text::{TAB, put_byte, put_text};

// Writes the line of the bundle at an address of a window's code; `patched`, whether a patch stands in it.
pub fn put_line(out: &mut [u8], at: usize, code: &[u8], address: u64, patched: bool) -> usize {
    let start = put_text(out, at, if patched { b"* " } else { b"  " });
    let next = put_address(out, start, address);
    let tab = put_byte(out, next, TAB);
    let end = put_cut(out, tab, code, address);
    put_byte(out, end, b'\n')
}

// Units and slots; of a reserved template the bytes.
fn put_cut(out: &mut [u8], at: usize, code: &[u8], address: u64) -> usize {
    let bundle = window::spot_of(address).bundle;
    let Ok(cut) = bundle::cut(code, bundle) else {
        let next = put_text(out, at, b"-\t");
        return message::put_bundle(out, next, folder::halves(code, bundle));
    };
    let units = cut.template.units;
    let mut next = lister::put_units(out, at, cut.template);
    for (slot, word) in cut.slots.iter().enumerate() {
        next = put_slot(out, next, code, address, slot as u64, units[slot], *word);
    }
    next
}

fn put_slot(
    out: &mut [u8],
    at: usize,
    code: &[u8],
    address: u64,
    slot: u64,
    unit: u8,
    word: u64,
) -> usize {
    let tab = put_byte(out, at, TAB);
    let next = put_address(out, tab, word);
    let Ok(chosen) = choice::choose(u64::from(unit), word) else {
        return next;
    };
    let form = chosen.form;
    let space = put_byte(out, next, b' ');
    let named = name::put_name(out, space, form);
    put_number(
        out,
        named,
        code,
        Aim {
            address,
            slot,
            form,
        },
    )
}

// The form's number, where it has one, and its target, where it has that.
fn put_number(out: &mut [u8], at: usize, code: &[u8], aim: Aim) -> usize {
    let bundle = window::spot_of(aim.address).bundle;
    let Ok(value) = immediate::immediate(code, bundle, aim.slot, aim.form) else {
        return at;
    };
    let space = put_byte(out, at, b' ');
    let next = message::put_value(out, space, value);
    let Ok(target) = immediate::target(code, bundle, aim.slot, aim.form, aim.address) else {
        return next;
    };
    let to = put_text(out, next, b" -> ");
    put_address(out, to, target)
}
