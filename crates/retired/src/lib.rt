// The forms of which no new edit is taken: the numbers of break and nop, which were used as markers.
#![tactic(auto)]

ghost use Rattle.std.specs.Prelude.{◌≡◌};
ghost use Rattle.retired.specs.Retired.{is_retired};

use form::{B, F, Form, I, M, X};

pub fn is_retired(form: Form) -> bool
    ensures { result ≡ is_retired form }
{
    matches!(
        (form.family, form.number),
        (B, 9) | (F, 15 | 16) | (I, 18 | 19) | (M, 37 | 48) | (X, 1 | 5)
    )
}
