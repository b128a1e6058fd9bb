// Writing a whole text, or nothing where there is no room for it.
ghost use Rattle.std.specs.Prelude.{◌≡◌, []};
ghost use Rattle.text.specs.Whole.{as_written, wrote_of};

use crate::put::put_text;
use answer::Refusal;

// Writes the text at the output's start, and answers its length.
pub fn put_whole(out: &mut [u8], text: &[u8]) -> Result<usize, Refusal>
    ensures { (as_written result, out.new) ≡ wrote_of [] text.now out.old }
{
    if out.len() < text.len() {
        return Err(Refusal::NoRoom);
    }
    Ok(put_text(out, 0, text))
}
