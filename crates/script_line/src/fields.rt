// The arguments of a line: bytes of two hexadecimal digits, texts in quotes, an event value, an applet's number.
// Bytes and texts go to the front of a room, and what is behind them stays as it is.
ghost use Rattle.std.specs.Prelude.{◌≡◌, ◌<◌, ◌≤◌, [], length, replicate, slice_set, Ok, Err, IfOk, IfErr, IfSome, IsOk, OnOk, ◌↔◌, MatchOption, MatchResult};
ghost use Rattle.script_line.specs.Words.{skipped, behind};
ghost use Rattle.script_line.specs.Lines.{between, in_text, bytes_from, bytes_of, arguments_of, applet_of};
ghost use Rattle.script_line.specs.Records.{Held, HeldSoFar};
ghost use Rattle.script_line.specs.declared.Cause.TheVariants.{ManyBytes, ExtraWord};
ghost use Rattle.script_line.specs.declared.Kind.TheVariants.{Entry, Event};

use crate::words::{byte, decimal, is_end, next_word, signed, skip_spaces};
use crate::{Cause, Kind};

// One byte more at a place, where there is room for it.
fn put(room: &mut [u8], at: usize, b: u8) -> Result<(), Cause>
    ensures ok { OnOk result ((at < length room.old) × (room.new ≡ slice_set room.old at b)) }
    ensures err { IfErr result (λ c. (c ≡ ManyBytes) × (length room.old ≤ at)) }
{
    if room.len() <= at {
        return Err(Cause::ManyBytes);
    }
    room[at] = b;
    Ok(())
}

// Puts the bytes of a text up to its closing quote, and gives how many they are and what is left behind that.
fn quoted<'a>(line: &'a [u8], room: &mut [u8]) -> Result<(usize, &'a [u8]), Cause>
    ensures read { MatchResult result
        (λ next. HeldSoFar (bytes_from (length room.old) [] in_text line.now) between next.1.now next.0 room.old room.new)
        (λ c. bytes_from (length room.old) [] in_text line.now ≡ Err c) }
    ensures shorter { IfOk result (λ next. length next.1.now < length line.now) }
{
    for (i, b) in line.iter().enumerate() {
        if *b == b'"' {
            let left = &line[i + 1..];
            if is_end(left) {
                return Ok((i, left));
            }
            return Err(Cause::MissingSpace);
        }
        put(room, i, *b)?;
    }
    Err(Cause::OpenQuote)
}

// Puts the next item of a line, a quoted text or a byte, and gives how many bytes it has and what is left behind it; nothing where no item is left.
fn item<'a>(line: &'a [u8], room: &mut [u8]) -> Result<Option<(usize, &'a [u8])>, Cause>
    ensures read { MatchResult result
        (λ next. MatchOption next
        ((bytes_of (length room.old) line.now ≡ Ok []) × (room.new ≡ room.old))
        (λ item. HeldSoFar (bytes_of (length room.old) line.now) between item.1.now item.0 room.old room.new))
        (λ c. bytes_of (length room.old) line.now ≡ Err c) }
    ensures shorter { IfOk result (λ next. IfSome next (λ item. length item.1.now < length line.now)) }
{
    match skip_spaces(line) {
        [] => Ok(None),
        [b'"', text @ ..] => Ok(Some(quoted(text, room)?)),
        [high, low, left @ ..] if is_end(left) => {
            put(room, 0, byte(*high, *low)?)?;
            Ok(Some((1, left)))
        }
        _ => Err(Cause::BadByte),
    }
}

// Puts all items of a line, and gives how many bytes they have.
pub(crate) fn bytes(line: &[u8], room: &mut [u8]) -> Result<usize, Cause>
    ensures { MatchResult result
        (λ n. Held (bytes_of (length room.old) line.now) n room.old room.new)
        (λ c. bytes_of (length room.old) line.now ≡ Err c) }
{
    let mut count = 0;
    let mut left = line;
    // each turn goes on by an item's length
    while let Some((more, behind)) = item(left, &mut room[count..])? {
        count += more;
        left = behind;
    }
    Ok(count)
}

// Refuses a line on which more than a comment is left.
pub(crate) fn nothing_left(line: &[u8]) -> Result<(), Cause>
    ensures variant { IsOk result ↔ (skipped line.now ≡ []) }
    ensures cause { IfErr result (λ c. c ≡ ExtraWord) }
{
    match skip_spaces(line) {
        [] => Ok(()),
        _ => Err(Cause::ExtraWord),
    }
}

// Puts the help byte of an entry, 0 or 1, and its text.
fn entry(line: &[u8], room: &mut [u8]) -> Result<usize, Cause>
    requires { length room.old ≡ 20 }
    ensures { MatchResult result
        (λ n. Held (arguments_of Entry line.now) n room.old room.new)
        (λ c. arguments_of Entry line.now ≡ Err c) }
{
    let count = bytes(line, room)?;
    match &room[..count] {
        [] => Err(Cause::MissingHelp),
        [help, ..] if 1 < *help => Err(Cause::BadHelp),
        _ => Ok(count),
    }
}

// The two bytes of an event value, high first.
fn event(line: &[u8]) -> Result<[u8; 2], Cause>
    ensures { result ≡ arguments_of Event line.now }
{
    let Some((word, left)) = next_word(line) else {
        return Err(Cause::MissingNumber);
    };
    let value = signed(word)?;
    nothing_left(left)?;
    Ok(value.to_be_bytes())
}

// Puts the arguments that follow an applet's number into a room of zeros, and gives how many they are. An install has twelve: those that are not written are 0.
pub(crate) fn arguments(kind: Kind, line: &[u8], room: &mut [u8]) -> Result<usize, Cause>
    requires { room.old ≡ replicate 20 0 }
    ensures { MatchResult result
        (λ n. Held (arguments_of kind line.now) n room.old room.new)
        (λ c. arguments_of kind line.now ≡ Err c) }
{
    match kind {
        Kind::Install => {
            bytes(line, &mut room[..12])?;
            Ok(12)
        }
        Kind::Entry => entry(line, room),
        Kind::Event => {
            room[..2].copy_from_slice(&event(line)?);
            Ok(2)
        }
        Kind::Nothing => {
            nothing_left(line)?;
            Ok(0)
        }
    }
}

// The applet's number that follows a letter, and what is left behind it.
pub(crate) fn applet(line: &[u8]) -> Result<(u8, &[u8]), Cause>
    ensures { MatchResult result
        (λ named. (applet_of line.now ≡ Ok named.0) × (named.1.now ≡ behind (skipped line.now)))
        (λ c. applet_of line.now ≡ Err c) }
{
    let Some((word, left)) = next_word(line) else {
        return Err(Cause::MissingApplet);
    };
    match u8::try_from(decimal(word)?) {
        Ok(number) => Ok((number, left)),
        Err(_) => Err(Cause::LargeNumber),
    }
}
