// The bundles that the records of a sheet touch, marked.
ghost use Rattle.std.specs.Prelude.{◌≡◌, set};
ghost use Rattle.by_sheet.specs.Mark.{as_marked, marked_by, marked_of};

use answer::Refusal;
use record::Record;

// Sets the mark of each bundle that a record of a sheet touches, to 1; one that there is no mark for is left out. How many records stand.
pub fn mark(sheet: &[u8], marks: &mut [u8]) -> Result<u64, Refusal>
    ensures { (as_marked result, marks.new) ≡ marked_of sheet.now marks.old }
{
    let mut records = records::free();
    let told = sheet::load(records::opened(1), &mut records, 0, sheet)?;
    let count = told.lower;
    let end = count as usize;
    mark_all(marks, &records[..end]);
    Ok(count)
}

// Sets the marks of some records' bundles.
pub fn mark_all(marks: &mut [u8], records: &[Record])
    ensures { marks.new ≡ marked_by marks.old records.now }
{
    for one in records {
        set_mark(marks, one.bundle);
    }
}

fn set_mark(marks: &mut [u8], bundle: u64)
    ensures { marks.new ≡ set marks.old bundle 1 }
{
    let at = bundle as usize;
    if at < marks.len() {
        marks[at] = 1;
    }
}
