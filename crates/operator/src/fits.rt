// Whether the records of a window's sheet fit its code: whether all of them undo, in a copy of it.
use crate::job::Job;
use crate::{refusal, room};
use answer::Refusal;
use bundle::Halves;
use by_sheet::{Misfit, Untaken};
use console::Status;
use form::NO_FORM;
use message::say;
use text::put_text;

pub fn fits(job: &Job, code: &[u8], sheet: &[u8], window: u64) -> Result<(), Status> {
    let mut copy = room::code();
    put_text(&mut copy, 0, code);
    match by_sheet::take_out(&mut copy, sheet) {
        Ok(()) => Ok(()),
        Err(Untaken::Refused(refusal)) => Err(job.refuse(window, refusal, NO_FORM)),
        Err(Untaken::Unfit(misfit)) => Err(unfit(job, window, misfit)),
    }
}

fn unfit(job: &Job, window: u64, misfit: Misfit) -> Status {
    if misfit.refusal != Refusal::Stale {
        return job.refuse(window, misfit.refusal, NO_FORM);
    }
    let address = folder::address_of(window, misfit.bundle);
    stale(job, address, misfit.wanted, misfit.found)
}

// Says what the first record that doesn't fit left there, and what stands there.
fn stale(job: &Job, address: u64, wanted: Halves, found: Halves) -> Status {
    let mut line = [0u8; 8192];
    let end = put_stale(&mut line, job.name, address, wanted, found);
    say(job.rt, &line, end);
    Status::Refused
}

fn put_stale(line: &mut [u8], name: &[u8], address: u64, wanted: Halves, found: Halves) -> usize {
    let at = refusal::put_place(line, name, address);
    let answer = message::put_answer(line, at, Refusal::Stale);
    let words = put_text(line, answer, b": its patch left ");
    let left = message::put_bundle(line, words, wanted);
    let there = put_text(line, left, b", and there stands ");
    let end = message::put_bundle(line, there, found);
    text::put_byte(line, end, b'\n')
}
