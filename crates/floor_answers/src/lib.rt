// The line of an answer, by the letter of the call that was made.
#![tactic(auto)]

ghost use Rattle.std.specs.Prelude.{◌≡◌, ℕ, ◌≤◌, length};
ghost use Rattle.lists.specs.Wrote.{Wrote};
ghost use Rattle.rules.specs.Floor.{decimal};
ghost use Rattle.floor_answers.specs.Shown.{line_by};

use floor_lines::write_line;
use rules::Answer;
use texts::first;

// The line of a record with this letter, at the front of the buffer; how many bytes it has. The call that was made, if any, is known by its
// letter; a system command stands at the front of out.
pub fn write_answer(
    buf: &mut [u8],
    number: &[u8],
    letter: u8,
    call: Option<u8>,
    answer: Answer,
    out: &[u8],
) -> usize
    requires { (length number.now ≤ 20) × (540 ≤ length buf.old) }
    ensures { (k : ℕ) → number.now ≡ decimal k → Wrote buf.old 0 (line_by k letter call answer out.now) buf.new result }
{
    let Some(call) = call else {
        return write_line(buf, number, letter, None, &[]);
    };
    let refusal = answer.refusal;
    if refusal != 0 {
        return write_line(buf, number, letter, Some(refusal), &[]);
    }
    let one = [answer.number];
    // 0 is nobody, of which first takes nothing
    let called = [answer.called];
    let shown: &[u8] = match call {
        b'M' | b'T' => &one,
        b'N' => first(&called, answer.called as usize),
        b'W' => first(out, answer.number as usize),
        _ => &[],
    };
    write_line(buf, number, letter, Some(0), shown)
}
