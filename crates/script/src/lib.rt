// A script for the floor program: a text of many lines becomes records, one behind the other.
// A line ends at a line feed; a carriage return before that does not count.
#![tactic(auto)]

ghost use Rattle.std.specs.Prelude.{◌≡◌, ◌+◌, ◌≤◌, length, take, drop, Err, MatchOption, MatchResult};
ghost use Rattle.script_line.specs.Records.{heard};
ghost use Rattle.script.specs.Texts.{Composed, Ended, Ends, trimmed_of, line_meaning, line_length, first_line};

use script_line::{Cause, write_record};

// Why composing ends where no line is bad: nothing is left of the text, or there is no room for a record.
#[derive(Clone, Copy, PartialEq, Eq)]
pub enum Stop {
    End,
    Full,
}

// How far a text was composed: bytes read, records written, lines read, and why no further.
#[derive(Clone, Copy)]
pub struct Progress {
    pub at: usize,
    pub records: usize,
    pub lines: usize,
    pub stop: Result<Stop, Cause>,
}

// A line without the carriage return at its end.
#[tactic(auto, unfolding(crate::specs::Texts::trimmed_of))]
fn trimmed(line: &[u8]) -> &[u8]
    ensures { result.now ≡ take (trimmed_of line.now) line.now }
{
    match line {
        [front @ .., b'\r'] => front,
        _ => line,
    }
}

// Writes the record of a line of at most 200 bytes where it is to stand, and says whether there is one.
#[tactic(auto, unfolding(crate::specs::Texts::line_meaning))]
fn line_record(line: &[u8], out: &mut [u8; 24]) -> Result<bool, Cause>
    ensures { heard result out.new ≡ line_meaning line.now }
{
    if 200 < line.len() {
        return Err(Cause::LongLine);
    }
    write_record(trimmed(line), out)
}

// How many bytes the line has that a text starts with.
// Out of line: within `compose`, or by `texts::place`, its loop counts up an address beside the number.
#[inline(never)]
#[tactic(auto, unfolding(crate::specs::Texts::line_length))]
fn line_len(text: &[u8]) -> usize
    ensures count { result ≡ line_length text.now }
    ensures within { result ≤ length text.now }
{
    text.iter().take_while(|b| **b != b'\n').count()
}

// The line that a text starts with, and what is left behind it; none where the line may still go on.
// A line that may go on is bad where it is too long already.
fn next_line(text: &[u8], last: bool) -> Result<Option<(&[u8], &[u8])>, Cause>
    ensures { MatchResult result
        (λ next. MatchOption next
        (Ends last text.now)
        (λ parts. Ended last text.now × (parts.0.now ≡ first_line text.now) × (parts.1.now ≡ drop (line_length text.now + 1) text.now)))
        (λ c. line_meaning (first_line text.now) ≡ Err c) }
{
    match text.split_at(line_len(text)) {
        (line, [_, behind @ ..]) => Ok(Some((line, behind))),
        (line, []) if last => Ok(Some((line, &[]))),
        (line, []) if 200 < line.len() => Err(Cause::LongLine),
        _ => Ok(None),
    }
}

// The records of a text's lines, one behind the other, up to the first line that is bad or for which `out` has no room.
// A last line with no line feed counts only where the text is the last.
pub fn compose(text: &[u8], out: &mut [u8], last: bool) -> Progress
    ensures { Composed result last text.now out.new }
{
    let mut left = text;
    let mut records = 0;
    let mut lines = 0;
    // a turn for each line, as long as it may be: no index is counted
    let stop = loop {
        if left.is_empty() {
            break Ok(Stop::End);
        }
        let (_, room) = out.split_at_mut(records * 24);
        let Some(place) = room.first_chunk_mut() else {
            break Ok(Stop::Full);
        };
        let (line, behind) = match next_line(left, last) {
            Ok(Some(parts)) => parts,
            Ok(None) => break Ok(Stop::End),
            Err(cause) => break Err(cause),
        };
        match line_record(line, place) {
            Ok(made) => records += usize::from(made),
            Err(cause) => break Err(cause),
        }
        lines += 1;
        left = behind;
    };
    Progress {
        at: text.len() - left.len(),
        records,
        lines,
        stop,
    }
}
