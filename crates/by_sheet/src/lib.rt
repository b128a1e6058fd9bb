// A party's calls by its sheet: the journal is the one that the sheet tells of, and what a call leaves of it is a sheet again.
#![tactic(auto)]

mod marks;
mod taking;

ghost use Rattle.std.specs.Prelude.{◌≡◌};
ghost use Rattle.records.specs.Shared.{sharing};
ghost use Rattle.journal.specs.Edit.{outcome_of};
ghost use Rattle.by_sheet.specs.Perform.{task_by, Performs, performed_in, performed_of};

use answer::Refusal;
use journal::Act;
pub use marks::mark;
use record::Record;
use records::Counts;
pub use taking::{Misfit, Untaken, take_out};

// What is to be done: an act, or a fold.
#[derive(Clone, Copy)]
pub enum Task {
    Act(Act),
    Fold,
}

// The length of the sheet that was written, and how many records stand.
#[derive(Clone, Copy)]
pub struct Written {
    pub length: usize,
    pub count: u64,
}

// Does a task by a sheet, and writes the sheet after it at the output's start. Room for any sheet is asked for first, so that nothing is half done.
pub fn perform(
    code: &mut [u8],
    sheet: &[u8],
    task: Task,
    out: &mut [u8],
) -> Result<Written, Refusal>
    ensures { Performs result code.new out.new (performed_of code.old sheet.now task out.old) }
{
    if out.len() < sheet::CAPACITY {
        return Err(Refusal::NoRoom);
    }
    perform_in(code, sheet, task, out)
}

// The same where there is room.
fn perform_in(code: &mut [u8], sheet: &[u8], task: Task, out: &mut [u8]) -> Result<Written, Refusal>
    ensures { Performs result code.new out.new (performed_in code.old sheet.now task out.old) }
{
    let mut records = records::free();
    let told = sheet::load(records::opened(1), &mut records, 0, sheet)?;
    let counts = perform_task(code, told, &mut records, task)?;
    let length = sheet::write(counts, &records, 0, out)?;
    Ok(Written {
        length,
        count: counts.lower,
    })
}

fn perform_task(
    code: &mut [u8],
    counts: Counts,
    records: &mut [Record],
    task: Task,
) -> Result<Counts, Refusal>
    ensures { outcome_of result counts records.new code.new ≡ task_by code.old (sharing counts records.old) task }
{
    match task {
        Task::Act(act) => journal::perform(code, counts, records, 0, act),
        Task::Fold => fold::fold(counts, records, 0),
    }
}
