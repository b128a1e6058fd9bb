// `show`: the number of a form at an address, and its target.
use crate::aim::Aim;
use crate::job::Job;
use crate::room;
use crate::source::Source;
use console::Status;
use operand::Operand;

pub fn show(job: &Job) -> Result<(), Status> {
    let source = Source::open(job)?;
    let aim = Aim::of(job, &source.guest)?;
    let mut code = room::code();
    let spot = window::spot_of(aim.address);
    source
        .guest
        .load(spot.window, &mut code)
        .map_err(|error| console::failed(job.rt, job.name, &error))?;
    let value = immediate::immediate(&code, spot.bundle, aim.slot, aim.form).map_err(
        |refusal| job.refuse(aim.place(), refusal, aim.form),
    )?;
    let mut out = [0u8; 256];
    let end = put_shown(&mut out, &code, spot.bundle, aim, value);
    job.printed(&out, end)
}

fn put_shown(out: &mut [u8], code: &[u8], bundle: u64, aim: Aim, value: Operand) -> usize {
    let start = text::put_text(out, 0, b"value\t");
    let next = message::put_value(out, start, value);
    let line = text::put_byte(out, next, b'\n');
    let Ok(target) = immediate::target(code, bundle, aim.slot, aim.form, aim.address) else {
        return line;
    };
    let word = text::put_text(out, line, b"target\t");
    let end = message::put_address(out, word, target);
    text::put_byte(out, end, b'\n')
}
