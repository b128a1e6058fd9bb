// What a command changed: each bundle with its bytes before and after; of an edit its number and target, too; how many records stand.
use crate::aim::Aim;
use crate::call::is_checked;
use crate::job::Job;
use crate::room;
use bundle::Halves;
use console::Status;
use message::put_address;
use operand::Operand;
use text::{TAB, put_byte, put_text};

// A window has so many bundles.
const BUNDLES: u64 = 4096;

pub fn tell(job: &Job, before: &[u8], code: &[u8], aim: Aim, count: u64) -> Result<(), Status> {
    let mut out = room::text();
    let spot = window::spot_of(aim.address);
    let next = put_bundles(&mut out, before, code, spot.window);
    let checked = is_checked(job.asked, aim.form);
    let stand = put_edit(&mut out, next, before, code, aim, checked);
    let last = put_text(&mut out, stand, b"stand\t");
    let end = text::put_field(&mut out, last, count, b'\n');
    job.printed(&out, end)
}

fn put_bundles(out: &mut [u8], before: &[u8], code: &[u8], window: u64) -> usize {
    let mut next = 0;
    for n in 0..BUNDLES {
        if folder::differs(before, code, n) {
            let old = folder::halves(before, n);
            let new = folder::halves(code, n);
            next = put_bundle(out, next, folder::address_of(window, n), old, new);
        }
    }
    next
}

fn put_bundle(out: &mut [u8], at: usize, address: u64, old: Halves, new: Halves) -> usize {
    let next = put_address(out, at, address);
    let tab = put_byte(out, next, TAB);
    let first = message::put_bundle(out, tab, old);
    let second = put_byte(out, first, TAB);
    let end = message::put_bundle(out, second, new);
    put_byte(out, end, b'\n')
}

// The number before, where it could be read, and after, and whether the form was looked at; what isn't an edit has none.
fn put_edit(
    out: &mut [u8],
    at: usize,
    before: &[u8],
    code: &[u8],
    aim: Aim,
    checked: bool,
) -> usize {
    let spot = window::spot_of(aim.address);
    let was = immediate::immediate(before, spot.bundle, aim.slot, aim.form);
    let Ok(is) = immediate::immediate(code, spot.bundle, aim.slot, aim.form) else {
        return at;
    };
    let start = put_text(out, at, b"value\t");
    let first = message::put_value(out, start, was.unwrap_or(Operand::None));
    let tab = put_byte(out, first, TAB);
    let second = message::put_value(out, tab, is);
    let said = if checked {
        second
    } else {
        put_text(out, second, b"\tform not checked")
    };
    let line = put_byte(out, said, b'\n');
    put_targets(out, line, before, code, aim)
}

fn put_targets(out: &mut [u8], at: usize, before: &[u8], code: &[u8], aim: Aim) -> usize {
    let spot = window::spot_of(aim.address);
    let was = immediate::target(before, spot.bundle, aim.slot, aim.form, aim.address);
    let Ok(is) = immediate::target(code, spot.bundle, aim.slot, aim.form, aim.address) else {
        return at;
    };
    let start = put_text(out, at, b"target\t");
    let first = put_address(out, start, was.unwrap_or(0));
    let tab = put_byte(out, first, TAB);
    let second = put_address(out, tab, is);
    put_byte(out, second, b'\n')
}
