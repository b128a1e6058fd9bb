// Where a command works: the bundle at an address, a slot there, and a form.
use crate::asked::Command;
use crate::job::Job;
use crate::{room, source};
use answer::Refusal;
use console::Status;
use form::{Form, NO_FORM};
use guest::Guest;
use words::Place;

// The bundle's address, the slot and the form.
#[derive(Clone, Copy)]
pub struct Aim {
    pub address: u64,
    pub slot: u64,
    pub form: Form,
}

impl Aim {
    // The bundle at an address.
    fn bundle(address: u64) -> Aim {
        Aim {
            address,
            slot: 0,
            form: NO_FORM,
        }
    }

    // The address with its slot.
    pub fn place(self) -> u64 {
        self.address.wrapping_add(self.slot)
    }

    // What the words of a command aim at.
    pub fn of(job: &Job, guest: &Guest) -> Result<Aim, Status> {
        if job.command == Command::Undo || job.command == Command::Fold {
            return at_window(job);
        }
        let form = job.form(job.asked.second)?;
        let Place { address, slot } = job.place(job.asked.first)?;
        if guest.place_of(address).is_none() {
            return Err(job.refuse(address, Refusal::ExhaustedInput, form));
        }
        Ok(Aim {
            address,
            slot,
            form,
        })
    }
}

fn at_window(job: &Job) -> Result<Aim, Status> {
    if job.asked.first.is_none() {
        return at_only_window(job);
    }
    let place = job.place(job.asked.first)?;
    Ok(Aim::bundle(place.address))
}

// The one window that has patches.
fn at_only_window(job: &Job) -> Result<Aim, Status> {
    let mut layout = room::sheet();
    match job.folder().read_layout(&mut layout)? {
        Some(text) => only_in(job, text),
        None => Err(none_stands(job)),
    }
}

fn none_stands(job: &Job) -> Status {
    job.refused(b"8 Empty: no patch stands in it")
}

fn only_in(job: &Job, layout: &[u8]) -> Result<Aim, Status> {
    let Some(found) = layout::look(layout) else {
        return Err(source::no_layout(job));
    };
    if found.count == 0 {
        return Err(none_stands(job));
    }
    if 1 < found.count {
        return Err(job.misused(
            b"patches stand in several windows: name an ADDRESS in one of them (status lists them)",
        ));
    }
    let Some((window, _)) = layout::window_at(layout, found.first) else {
        return Err(source::no_layout(job));
    };
    Ok(Aim::bundle(window))
}
