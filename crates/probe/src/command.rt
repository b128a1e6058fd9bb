// The commands, by name: those that reach no records, and those that call for them. A command's answer starts with a word, and each
// answers where the output stands then; where it answers none, the line doesn't read.
mod choose;
mod clear;
mod code;
mod cut;
mod edit;
mod find;
mod get;
mod immediates;
mod join;
mod journals;
mod load;
mod meeting;
mod named;
mod operands;
mod place;
mod put;
mod recorded;
mod report;
mod scripts;
mod sheets;
mod sum;
mod target;

use crate::calls;
use crate::calls::{Call, Gave, Work};
use crate::kept::Kept;
use answer::answer_of;
use journal::Act;
use lines::{fields, out, part};
use named::Command;
pub use recorded::show_place;
use records::Counts;

// A line that was read: its command, the numbers after it, then zeros, and the text after them.
#[derive(Clone, Copy)]
struct Line<'a> {
    command: Command,
    of: [u64; 5],
    rest: &'a [u8],
}

// Answers a line, from `at` on, and tells where the output stands then.
pub fn answer(line: &[u8], work: &mut Work<'_>, out: &mut [u8], at: usize) -> usize {
    let Some(line) = read(line) else {
        return ended(out, at, None);
    };
    let name = text::put_text(out, at, line.command.word());
    let places = work.kept.places;
    let to = match asked(line, work.lent, work.given, places) {
        Some(call) => {
            let gave = calls::made(call, work);
            let counts = work.kept.counts;
            match gave {
                Some(gave) => Some(told(gave, work.lent, counts, out, name)),
                None => Some(name),
            }
        }
        None => answered(line, work.code, &mut work.kept, out, name),
    };
    ended(out, at, to)
}

fn read(line: &[u8]) -> Option<Line<'_>> {
    let end = part::first(line, 0, b' ');
    let command = Command::named(&line[..end])?;
    let mut of = [0; 5];
    let at = fields::read_numbers(line, end, &mut of[..command.count()])?;
    let rest = &line[part::within(line, at)..];
    if rest.is_empty() || command.takes_text() {
        Some(Line { command, of, rest })
    } else {
        None
    }
}

// The call on the records that a line asks for.
fn asked(line: Line<'_>, lent: &mut [u8], given: &mut [u8], places: u64) -> Option<Call> {
    let of = line.of;
    let rest = line.rest;
    match line.command {
        Command::Records => Some(Call::Records),
        Command::Undo => Some(Call::Act(of[0], Act::Undo)),
        Command::Edit => Some(Call::Act(of[0], Act::Edit(edit::read(of, rest)?))),
        Command::Checked => Some(Call::Act(of[0], Act::Checked(edit::read(of, rest)?))),
        Command::Load => load::asked(of[0], rest, lent),
        Command::Fold => Some(Call::Fold(of[0])),
        Command::Script => scripts::asked(of, rest, lent, given),
        Command::Open => Some(journals::opened(of[0])),
        Command::Journal => journals::asked(of, rest),
        Command::Place => place::asked(of, rest, places),
        Command::Sheet => sheets::asked(of[0], of[1], lent),
        Command::SheetLine => sheets::line_asked(of, lent),
        _ => None,
    }
}

// Tells what a call on the records gave.
fn told(gave: Gave, lent: &[u8], counts: Counts, out: &mut [u8], at: usize) -> usize {
    match gave {
        Gave::Edited(edited) => out::number(out, at, u64::from(answer_of(&edited))),
        Gave::Records(length) => recorded::told(counts, length, lent, out, at),
        Gave::Written(written, room) => sheets::told(written, room, lent, out, at),
        Gave::Ran(ran, room) => scripts::told(ran, room, lent, out, at),
    }
}

// A line that calls for no records.
fn answered(
    line: Line<'_>,
    code: &mut [u8],
    kept: &mut Kept,
    out: &mut [u8],
    at: usize,
) -> Option<usize> {
    let of = line.of;
    let length = part::within(code, kept.length);
    match line.command {
        Command::Code => code::answer(of[0], code, kept, at),
        Command::Put => put::answer(of[0], line.rest, &mut code[..length], at),
        Command::Clear => clear::answer(line.rest, kept, at),
        Command::Meet => meeting::answer(of, line.rest, out, at),
        Command::Report => Some(report::answer(&code[..length], kept, out, at)),
        _ => on_code(line.command, of, &code[..length], out, at),
    }
}

fn on_code(
    command: Command,
    of: [u64; 5],
    code: &[u8],
    out: &mut [u8],
    at: usize,
) -> Option<usize> {
    match command {
        Command::Get => get::answer(of[0], of[1], code, out, at),
        Command::Sum => Some(sum::answer(code, out, at)),
        Command::Find => Some(find::answer(of[0], code, out, at)),
        Command::Cut => Some(cut::answer(of[0], code, out, at)),
        Command::Join => join::answer(of, out, at),
        Command::Operands => Some(operands::answer(of, out, at)),
        Command::Immediate => Some(immediates::answer(of, code, out, at)),
        Command::Target => Some(target::answer(of, code, out, at)),
        Command::Choose => Some(choose::answer(of[0], of[1], out, at)),
        _ => None,
    }
}

// The newline after an answer; of a line that doesn't read, that it doesn't, from `from` on.
pub fn ended(out: &mut [u8], from: usize, to: Option<usize>) -> usize {
    match to {
        Some(to) => text::put_byte(out, to, b'\n'),
        None => text::put_text(out, from, b"error\n"),
    }
}
