// A bundle in the file where a commit is finished: whether it is the old one, the new one, torn between them, or another's.
ghost use Rattle.std.specs.Prelude.{◌≡◌, ◌||◌, eqb};
ghost use Rattle.bundle.specs.Bundle.{whole};
ghost use Rattle.bundle.specs.Bytes.{bytes};
ghost use Rattle.redo.specs.State.{bytes_of, of_either, state_of};

use bundle::Halves;

#[derive(Clone, Copy)]
pub enum State {
    Old,
    New,
    Torn,
    Other,
}

// What the bundle that stands there is. A torn write leaves of each byte the old one or the new one.
pub fn state_of(now: Halves, old: Halves, new: Halves) -> State
    ensures { result ≡ state_of now old new }
{
    if now == old {
        return State::Old;
    }
    if now == new {
        return State::New;
    }
    if is_torn(now, old, new) {
        return State::Torn;
    }
    State::Other
}

fn is_torn(now: Halves, old: Halves, new: Halves) -> bool
    ensures { result ≡ of_either (bytes_of now) (bytes_of old) (bytes_of new) }
{
    is_mixed(now.low, old.low, new.low) & is_mixed(now.high, old.high, new.high)
}

// The same of a half's eight bytes.
fn is_mixed(now: u64, old: u64, new: u64) -> bool
    ensures { result ≡ of_either (bytes 8 now) (bytes 8 old) (bytes 8 new) }
{
    let befores = old.to_le_bytes();
    let afters = new.to_le_bytes();
    let olds_and_news = befores.iter().zip(&afters);
    now.to_le_bytes()
        .iter()
        .zip(olds_and_news)
        .all(|(byte, (old, new))| byte == old || byte == new)
}
