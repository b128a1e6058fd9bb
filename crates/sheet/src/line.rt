// The lines of a sheet: a record written and read. A line is read in full, or as it was before records had a slot, a form and a value.
ghost use Rattle.std.specs.Prelude.{◌≡◌};
ghost use Rattle.text.specs.Put.{Put};
ghost use Rattle.sheet.specs.Sheet.{line_as};
ghost use Rattle.sheet.specs.Load.{read_as, tested, line_at, old_in, new_in};
ghost use Rattle.sheet.specs.declared.line.Kind.TheVariants as kind;

use bundle::Halves;
use record::Record;
use text::{TAB, put_fields, read_fields};

#[derive(Clone, Copy, PartialEq, Eq)]
pub enum Kind {
    Full,
    Old,
}

pub fn put_line(out: &mut [u8], at: usize, one: Record) -> usize
    ensures { Put out.old at (line_as kind.Full one) out.new result }
{
    let form = one.form;
    let old = one.old;
    let new = one.new;
    let third = put_fields(out, at, &[one.bundle, one.slot], b"\t\t");
    let fourth = name::put_field(out, third, form, TAB);
    put_fields(
        out,
        fourth,
        &[one.value, old.low, old.high, new.low, new.high],
        b"\t\t\t\t\n",
    )
}

// The party's record whose line of that kind stands at a place, where it may stand, and the place after the line.
pub fn read_line(party: u64, text: &[u8], at: usize, kind: Kind) -> Option<(Record, usize)>
    ensures { result ≡ line_at party kind text.now at }
{
    match kind {
        Kind::Full => test(party, read_full(party, text, at)),
        Kind::Old => test(party, read_old(party, text, at)),
    }
}

fn test(party: u64, line: Option<(Record, usize)>) -> Option<(Record, usize)>
    ensures { result ≡ tested party line }
{
    let (one, next) = line?;
    if record::may_stand(party, one) {
        Some((one, next))
    } else {
        None
    }
}

fn read_full(party: u64, text: &[u8], at: usize) -> Option<(Record, usize)>
    ensures { result ≡ read_as party kind.Full text.now at }
{
    let (front, second) = read_fields(text, at, b"\t\t")?;
    let (form, third) = name::read_field(text, second, TAB)?;
    let (of, end) = read_fields(text, third, b"\t\t\t\t\n")?;
    let (old, new) = halves_in(of);
    let one = Record {
        party,
        bundle: front[0],
        slot: front[1],
        form,
        value: of[0],
        old,
        new,
    };
    Some((one, end))
}

fn read_old(party: u64, text: &[u8], at: usize) -> Option<(Record, usize)>
    ensures { result ≡ read_as party kind.Old text.now at }
{
    let (of, end) = read_fields(text, at, b"\t\t\t\t\n")?;
    let (old, new) = halves_in(of);
    Some((record::whole_record(party, of[0], old, new), end))
}

// The old and the new bundle of a line's last five numbers.
fn halves_in(of: [u64; 8]) -> (Halves, Halves)
    ensures { result ≡ (old_in of, new_in of) }
{
    let old = Halves {
        low: of[1],
        high: of[2],
    };
    let new = Halves {
        low: of[3],
        high: of[4],
    };
    (old, new)
}
