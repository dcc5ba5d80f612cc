// A line as a record of the floor program.
// What a line means stands in specs/Lines.antt.
ghost use Rattle.std.specs.Prelude.{ℕ, ◌≡◌, Some, None, Ok, Err, replicate, MatchOption, MatchResult};
ghost use Rattle.script_line.specs.Lines.{form_of, lettered, meaning_of};
ghost use Rattle.script_line.specs.Records.{Followed, heard};
ghost use Rattle.script_line.specs.declared.Form.TheVariants.{Applet};

use crate::fields::{applet, arguments, bytes, nothing_left};
use crate::words::{is_end, skip_spaces};
use crate::{Cause, Form, Kind};

// What follows a letter, if it is one.
#[tactic(auto, unfolding(crate::specs::Lines::form_of))]
fn form(letter: u8) -> Option<Form>
    ensures { result ≡ form_of letter }
{
    match letter {
        b'I' => Some(Form::Applet(Kind::Install)),
        b'M' => Some(Form::Applet(Kind::Entry)),
        b'E' | b'C' => Some(Form::Applet(Kind::Event)),
        b'T' | b'D' | b'L' | b'U' => Some(Form::Applet(Kind::Nothing)),
        b'P' | b'S' => Some(Form::Bytes),
        b'O' | b'N' | b'W' | b'R' => Some(Form::Alone),
        _ => None,
    }
}

// The letter that a line starts with, and what is left behind it; none where the line has no word.
fn first_letter(line: &[u8]) -> Result<Option<(u8, &[u8])>, Cause>
    ensures { MatchResult result
        (λ next. MatchOption next
        (meaning_of line.now ≡ Ok None)
        (λ first. meaning_of line.now ≡ lettered (form_of first.0) first.0 first.1.now))
        (λ c. meaning_of line.now ≡ Err c) }
{
    match skip_spaces(line) {
        [] => Ok(None),
        [letter, left @ ..] if is_end(left) => Ok(Some((*letter, left))),
        _ => Err(Cause::UnknownLetter),
    }
}

// Reads the applet's number that follows a letter, and how many argument bytes follow that, which go into a room of zeros.
// Out of line: in one function with all else it makes each line dearer, by a tenth where no applet is named.
#[inline(never)]
fn named(kind: Kind, line: &[u8], room: &mut [u8]) -> Result<(u8, usize), Cause>
    requires { room.old ≡ replicate 20 0 }
    ensures { MatchResult result
        (λ next. Followed (Applet kind) line.now next.0 next.1 room.old room.new)
        (λ c. (letter : ℕ) → lettered (Some (Applet kind)) letter line.now ≡ Err c) }
{
    let (number, left) = applet(line)?;
    Ok((number, arguments(kind, left, room)?))
}

// Reads what follows a letter: the second byte of the record, and how many argument bytes, which go into a room of zeros.
fn read_on(form: Form, line: &[u8], room: &mut [u8]) -> Result<(u8, usize), Cause>
    requires { room.old ≡ replicate 20 0 }
    ensures { MatchResult result
        (λ next. Followed form line.now next.0 next.1 room.old room.new)
        (λ c. (letter : ℕ) → lettered (Some form) letter line.now ≡ Err c) }
{
    match form {
        Form::Applet(kind) => named(kind, line, room),
        Form::Bytes => Ok((0, bytes(line, room)?)),
        Form::Alone => {
            nothing_left(line)?;
            Ok((0, 0))
        }
    }
}

// Writes the record of a line where it is to stand, so that nothing is copied, and says whether there is one: a line with no word has none.
pub fn write_record(line: &[u8], out: &mut [u8; 24]) -> Result<bool, Cause>
    ensures { heard result out.new ≡ meaning_of line.now }
{
    let Some((letter, left)) = first_letter(line)? else {
        return Ok(false);
    };
    let Some(form) = form(letter) else {
        return Err(Cause::UnknownLetter);
    };
    *out = [0; 24];
    let (applet, count) = read_on(form, left, &mut out[3..23])?;
    out[0] = letter;
    out[1] = applet;
    out[2] = count as u8;
    Ok(true)
}

// The record of a line, or none where the line has no word.
pub fn record(line: &[u8]) -> Result<Option<[u8; 24]>, Cause>
    ensures { result ≡ meaning_of line.now }
{
    let mut out = [0; 24];
    let made = write_record(line, &mut out)?;
    Ok(made.then_some(out))
}
