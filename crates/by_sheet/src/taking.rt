// All records of a sheet taken out again, the last first.
ghost use Rattle.std.specs.Prelude.{◌≡◌, ◌≤◌, length};
ghost use Rattle.bundle.specs.Bundle.{longest_code};
ghost use Rattle.by_sheet.specs.Taking.{as_taken, taken_in, taken_out_of};
ghost use Rattle.by_sheet.specs.declared.taking.Untaken.TheVariants.{Unfit};
ghost use Rattle.by_sheet.specs.inner.Back.{put_back, all_back};

use answer::Refusal;
use bundle::{Halves, LONGEST_CODE};
use record::Record;

// The first record that doesn't fit its bundle, and why: what the record left there, and what stands there, or zeros where the bundle isn't there.
#[derive(Clone, Copy)]
pub struct Misfit {
    pub refusal: Refusal,
    pub bundle: u64,
    pub wanted: Halves,
    pub found: Halves,
}

// Why nothing was taken out.
#[derive(Clone, Copy)]
pub enum Untaken {
    Refused(Refusal),
    Unfit(Misfit),
}

impl From<Refusal> for Untaken {
    ghost use Rattle.std.specs.Prelude.{◌≡◌};
    ghost use Rattle.by_sheet.specs.declared.taking.Untaken.TheVariants.{Refused};

    ghost from_gives = { λ refusal untaken. untaken ≡ Refused refusal };

    fn from(refusal: Refusal) -> Untaken {
        Untaken::Refused(refusal)
    }
}

// Undoes all records of a sheet. It is done in a copy of the code first, so that a refused call changes nothing.
pub fn take_out(code: &mut [u8], sheet: &[u8]) -> Result<(), Untaken>
    ensures { (as_taken result, code.new) ≡ taken_out_of code.old sheet.now }
{
    let length = code.len();
    if LONGEST_CODE < length {
        return Err(Untaken::Refused(Refusal::TooLong));
    }
    let mut copy = [0u8; LONGEST_CODE];
    copy[..length].copy_from_slice(code);
    take_out_of(&mut copy[..length], sheet)?;
    code.copy_from_slice(&copy[..length]);
    Ok(())
}

// The same in the code itself, up to the first record that doesn't fit.
fn take_out_of(code: &mut [u8], sheet: &[u8]) -> Result<(), Untaken>
    requires { length code.old ≤ longest_code }
    ensures { (as_taken result, code.new) ≡ taken_in code.old sheet.now }
{
    let mut records = records::free();
    let told = sheet::load(records::opened(1), &mut records, 0, sheet)?;
    let end = told.lower as usize;
    put_all_back(code, &records[..end])
}

// Puts the old bundles of records back, the last first, up to the first that doesn't fit.
fn put_all_back(code: &mut [u8], records: &[Record]) -> Result<(), Untaken>
    ensures { (as_taken result, code.new) ≡ all_back records.now (length records.now) code.old }
{
    for one in records.iter().rev() {
        put_back(code, *one)?;
    }
    Ok(())
}

// Puts a record's old bundle back, where its new one stands.
fn put_back(code: &mut [u8], one: Record) -> Result<(), Untaken>
    ensures { (as_taken result, code.new) ≡ put_back code.old one }
{
    let bundle = one.bundle;
    let wanted = one.new;
    let found = match bundle::load(code, bundle) {
        Ok(found) => found,
        Err(refusal) => return Err(unfit(one, refusal, Halves { low: 0, high: 0 })),
    };
    if found != wanted {
        return Err(unfit(one, Refusal::Stale, found));
    }
    let old = one.old;
    let at = bundle as usize * 16;
    bundle::write(&mut code[at..at + 16], old);
    Ok(())
}

fn unfit(one: Record, refusal: Refusal, found: Halves) -> Untaken
    ensures { result ≡ Unfit (record { refusal = refusal; bundle = one.bundle; wanted = one.new; found = found }) }
{
    Untaken::Unfit(Misfit {
        refusal,
        bundle: one.bundle,
        wanted: one.new,
        found,
    })
}
