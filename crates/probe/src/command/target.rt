// `target N SLOT F NUMBER ADDRESS`: where a form in a slot leads, its bundle standing at that address.
use answer::answer_of;
use form::Form;
use lines::out;

pub fn answer(of: [u64; 5], code: &[u8], out: &mut [u8], at: usize) -> usize {
    let form = Form {
        family: of[2],
        number: of[3],
    };
    let target = immediate::target(code, of[0], of[1], form, of[4]);
    let to = out::number(out, at, u64::from(answer_of(&target)));
    out::number(out, to, target.unwrap_or(0))
}
