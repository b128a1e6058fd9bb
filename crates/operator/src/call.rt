// The call of the library that a command makes, on a window's code and sheet.
use crate::aim::Aim;
use crate::asked::{Asked, Command};
use crate::job::Job;
use crate::sheets;
use answer::Refusal;
use by_sheet::{Misfit, Task, Untaken, Written};
use console::Status;
use form::{Edit, Form, NO_FORM};
use journal::Act;
use operand::Operand;

const NOTHING_STANDS: Written = Written {
    length: 0,
    count: 0,
};

// How long the window's new sheet is, and how many records stand.
pub fn call(
    job: &Job,
    code: &mut [u8],
    sheet: &[u8],
    out: &mut [u8],
    aim: Aim,
) -> Result<Written, Status> {
    if job.command == Command::Undo && job.asked.all {
        return undo_all(job, code, sheet, aim);
    }
    let task = task_of(job, code, aim)?;
    let done = by_sheet::perform(code, sheet, task, out).map_err(|refusal| job.refuse(
        aim.place(),
        refusal,
        aim.form,
    ))?;
    Ok(if done.count == 0 {
        NOTHING_STANDS
    } else {
        done
    })
}

fn task_of(job: &Job, code: &[u8], aim: Aim) -> Result<Task, Status> {
    match job.command {
        Command::Edit => Ok(edit(job, aim, job.value(job.asked.third, aim.form))),
        Command::Branch => branch(job, code, aim),
        Command::Undo => Ok(Task::Act(Act::Undo)),
        _ => Ok(Task::Fold),
    }
}

fn edit(job: &Job, aim: Aim, value: Operand) -> Task {
    let edit = Edit {
        bundle: window::spot_of(aim.address).bundle,
        slot: aim.slot,
        form: aim.form,
        value,
    };
    if is_checked(job.asked, aim.form) {
        return Task::Act(Act::Checked(edit));
    }
    Task::Act(Act::Edit(edit))
}

// Of A and B forms the word is looked at, unless that isn't wanted.
pub fn is_checked(asked: &Asked, form: Form) -> bool {
    !asked.plain && ((form.family == form::A) | (form.family == form::B))
}

// The edit for a wanted target. One that can't be reached is no value.
fn branch(job: &Job, code: &[u8], aim: Aim) -> Result<Task, Status> {
    let target = job.number(job.asked.third)?;
    let spot = window::spot_of(aim.address);
    immediate::target(code, spot.bundle, aim.slot, aim.form, aim.address).map_err(
        |refusal| job.refuse(aim.place(), refusal, aim.form),
    )?;
    let value = displacement::displacement(aim.form, aim.address, target).unwrap_or(Operand::None);
    Ok(edit(job, aim, value))
}

fn undo_all(job: &Job, code: &mut [u8], sheet: &[u8], aim: Aim) -> Result<Written, Status> {
    if sheet == sheets::EMPTY.as_slice() {
        return Err(job.refuse(aim.address, Refusal::Empty, NO_FORM));
    }
    match by_sheet::take_out(code, sheet) {
        Ok(()) => Ok(NOTHING_STANDS),
        Err(Untaken::Refused(refusal) | Untaken::Unfit(Misfit { refusal, .. })) => {
            Err(job.refuse(aim.address, refusal, NO_FORM))
        }
    }
}
