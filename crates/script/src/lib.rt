// A script of a party's edits and undos, run a line at a time, with a line of output for each.
#![tactic(auto)]

mod line;

ghost use Rattle.std.specs.Prelude.{◌≡◌, ◌+◌, ◌<◌, ◌≤◌, Bool, false, not, ◌&&◌, length, nat_le, nat_lt};
ghost use Rattle.records.specs.Shared.{sharing};
ghost use Rattle.records.specs.inner.Shows.{as_shown, as_own_view, ShowsPart};
ghost use Rattle.text.specs.Put.{Put};
ghost use Rattle.script.specs.Script.{answer_line, bad_script, longest_line, line_by, ran_of, script_by};
ghost use Rattle.script.specs.inner.Going.{line_at, so_far, stopped_with, gone_with, Keeps, Goes};

use answer::Refusal;
use record::Record;
use records::{Counts, Own};

// No line that is written is longer.
const LONGEST_LINE: usize = 29;

// What a part of a script leaves: the counts, the number expected, whether it stopped, how many bytes of the text are done, and how many are
// written.
#[derive(Clone, Copy)]
pub struct Ran {
    pub counts: Counts,
    pub next: u64,
    pub stopped: bool,
    pub done: usize,
    pub length: usize,
}

// The same between two lines, and what the party's journal shows.
#[derive(Clone, Copy)]
struct State {
    ran: Ran,
    own: Own,
}

// Runs a part of a party's script as far as there is room for the answers. The first part begins with 1 expected and not stopped, the next
// with what the one before left.
pub fn run(
    code: &mut [u8],
    counts: Counts,
    records: &mut [Record],
    party: u64,
    next: u64,
    stopped: bool,
    text: &[u8],
    out: &mut [u8],
) -> Ran
    ensures { ran_of result records.new code.new out.new ≡ script_by code.old (sharing counts records.old) party next stopped text.now out.old }
{
    let own = records::own_of(counts, records, party);
    let ran = Ran {
        counts,
        next,
        stopped,
        done: 0,
        length: 0,
    };
    let mut state = State { ran, own };
    while goes_on(state.ran, text.len(), out.len()) {
        state = run_line(code, records, party, state, text, out);
    }
    state.ran
}

// Whether there is a line to do, and room for its answer.
fn goes_on(ran: Ran, text: usize, out: usize) -> bool
    requires { ran.length ≤ out }
    ensures { result ≡ not ran.stopped && nat_lt ran.done text && nat_le (ran.length + longest_line) out }
{
    !ran.stopped & (ran.done < text) & (LONGEST_LINE <= out - ran.length)
}

// Does one line.
fn run_line(
    code: &mut [u8],
    records: &mut [Record],
    party: u64,
    state: State,
    text: &[u8],
    out: &mut [u8],
) -> State
    requires { Keeps party state records.old out.old × (state.ran.stopped ≡ false) × (state.ran.done < length text.now) × (state.ran.length + longest_line ≤ length out.old) }
    ensures { Keeps party result records.new out.new × Goes state result out.old out.new × (so_far result records.new code.new out.new ≡ line_by party (so_far state records.old code.old out.old) (line_at text.now state.ran.done)) }
{
    let turn = line::turn_at(text, state.ran.done, state.ran.next);
    let Some(act) = turn.asked else {
        return stop(out, state);
    };
    let ran = state.ran;
    let own = state.own;
    match journal::act_on(code, ran.counts, records, party, own, act) {
        Ok(acted) => {
            let counts = acted.counts;
            let ran = Ran { counts, ..ran };
            let own = acted.own;
            go_on(out, State { ran, own }, 0, turn.end)
        }
        Err(refusal) => go_on(out, state, refusal.number(), turn.end),
    }
}

// Answers a line that stops the script.
fn stop(out: &mut [u8], state: State) -> State
    ensures { (result ≡ stopped_with state result.ran.length) × Put out.old state.ran.length (answer_line state.ran.next bad_script (as_shown state.own.view).count) out.new result.ran.length }
{
    let length = put_answer(out, state, Refusal::BadScript.number());
    let ran = Ran {
        stopped: true,
        length,
        ..state.ran
    };
    State { ran, ..state }
}

// Answers a line that was done, where its act leaves this, and goes on at its end.
fn go_on(out: &mut [u8], state: State, answer: u8, end: usize) -> State
    ensures { (result ≡ gone_with state end result.ran.length) × Put out.old state.ran.length (answer_line state.ran.next answer (as_shown state.own.view).count) out.new result.ran.length }
{
    let length = put_answer(out, state, answer);
    let ran = Ran {
        next: state.ran.next.wrapping_add(1),
        stopped: false,
        done: end,
        length,
        ..state.ran
    };
    State { ran, ..state }
}

fn put_answer(out: &mut [u8], state: State, answer: u8) -> usize
    ensures { Put out.old state.ran.length (answer_line state.ran.next answer (as_shown state.own.view).count) out.new result }
{
    let count = standing(state.own);
    let fields = [state.ran.next, u64::from(answer), count];
    text::put_fields(out, state.ran.length, &fields, b"\t\t\n")
}

// How many edits of the party stand; of a journal that isn't valid none.
fn standing(own: Own) -> u64
    ensures { result ≡ (as_shown own.view).count }
{
    match own.view {
        Some(view) => view.count,
        None => 0,
    }
}
