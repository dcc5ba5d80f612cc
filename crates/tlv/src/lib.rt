// Reads runs of elements, and the outer tag and length around one.
// A position is an index into the caller's bytes, and a value is handed back as a part of them: nothing is copied.
#![tactic(auto)]

ghost use Rattle.std.specs.Prelude.{◌≡◌};
ghost use Rattle.rules.specs.Bytes.{is_run, outer_of, part_of};
ghost use Rattle.rules.specs.Readers.{Locates, GivesValue, TellsOf};
ghost use Rattle.tlv.specs.Parts.{IsWithin};

use elements::{element_at, length_at};
use rules::{Malformed, Outer, Span};

// Looks in a run for the element with this tag number that occurs so many-th, counted from 1; what follows it is not judged.
// Document 01 names the form: a loop that yields the place by break, left from inside on malformed bytes.
#[tactic(auto, unfolding(rules::specs::Bytes::found))]
pub fn locate(s: &[u8], tag: u16, occurrence: usize) -> Option<Span>
    ensures { Locates s.now tag occurrence result }
{
    if occurrence == 0 || tag == 0 || 0x7FFF < tag {
        return None;
    }
    let mut at = 0;
    let mut left = occurrence;
    let value = loop {
        let Ok(Some(e)) = element_at(s, at) else {
            return None;
        };
        if e.number == tag {
            if left == 1 {
                break Span {
                    start: e.start,
                    len: e.len,
                };
            }
            left -= 1;
        }
        at = e.next;
    };
    Some(value)
}

// The part of the bytes that a place names; the empty part where there is none.
#[tactic(auto, unfolding(rules::specs::Bytes::part_of))]
pub fn part(s: &[u8], place: Option<Span>) -> &[u8]
    requires { IsWithin s.now place }
    ensures { result.now ≡ part_of s.now place }
{
    match place {
        Some(value) => &s[value.start..value.start + value.len],
        None => &s[..0],
    }
}

// The value of the element that `locate` finds, as a part of the run; the empty part where there is none.
pub fn find(s: &[u8], tag: u16, occurrence: usize) -> &[u8]
    ensures { GivesValue s.now tag occurrence result.now }
{
    part(s, locate(s, tag, occurrence))
}

// Whether there is such an element, which tells an empty value from none.
pub fn has(s: &[u8], tag: u16, occurrence: usize) -> bool
    ensures { TellsOf s.now tag occurrence result }
{
    locate(s, tag, occurrence).is_some()
}

// Whether the bytes are a run of elements that fills them exactly, perhaps of none; it goes by their lengths, and counts no index.
fn is_run(s: &[u8]) -> bool
    ensures { result ≡ is_run s.now }
{
    let mut at = 0;
    loop {
        match element_at(s, at) {
            Ok(Some(e)) => at = e.next,
            Ok(None) => return true,
            Err(Malformed) => return false,
        }
    }
}

// One tag byte, a length, and a run of elements of exactly that length, with nothing after.
#[tactic(auto, unfolding(rules::specs::Bytes::outer_of, rules::specs::Bytes::outer_by))]
#[inline(always)]
pub fn outer(s: &[u8]) -> Result<Outer, Malformed>
    ensures { result ≡ outer_of s.now }
{
    if s.is_empty() {
        return Err(Malformed);
    }
    let length = length_at(s, 1)?;
    let start = length.next;
    if start + length.len as usize != s.len() {
        return Err(Malformed);
    }
    if is_run(&s[start..]) {
        Ok(Outer { tag: s[0], start })
    } else {
        Err(Malformed)
    }
}
