// Reads one length, and one element: a tag, a length and that many value bytes.
// A position is an index into the caller's bytes.
#![tactic(auto)]

ghost use Rattle.std.specs.Prelude.{◌≡◌, ◌+◌, ◌<◌, ◌≤◌, length, Ok, IfOk, IfErr};
ghost use Rattle.rules.specs.Bytes.{byte, tag_size, tag_number, length_at, element_at};

use rules::{Element, Length, Malformed};

// The byte at a position.
fn byte_at(s: &[u8], at: usize) -> Result<u8, Malformed>
    ensures ok { IfOk result (λ b. (at < length s.now) × (b ≡ byte s.now at)) }
    ensures err { IfErr result (λ _. length s.now ≤ at) }
{
    s.get(at).copied().ok_or(Malformed)
}

// How many bytes a tag with this first byte takes.
fn tag_size(first: u8) -> Result<usize, Malformed>
    ensures { result ≡ tag_size first }
{
    match first {
        0x00 | 0x80 | 0xFF => Err(Malformed),
        0x7F => Ok(3),
        _ => Ok(1),
    }
}

// The number that the tag at a position, of this size, is compared by: what stands in one byte, or in two behind 7F, without the flag.
fn tag_number(s: &[u8], at: usize, size: usize) -> u16
    requires { (tag_size (byte s.now at) ≡ Ok size) × (at + size < length s.now) }
    ensures { result ≡ tag_number s.now at }
{
    if size == 3 {
        let high = s[at + 1] as u16;
        let low = s[at + 2] as u16;
        (high * 256 + low) % 0x8000
    } else {
        (s[at] % 0x80) as u16
    }
}

// The length at a position: 00..7F, or 81 followed by 80..FF.
#[tactic(auto, unfolding(rules::specs::Bytes::length_at, rules::specs::Bytes::long_length))]
pub fn length_at(s: &[u8], at: usize) -> Result<Length, Malformed>
    ensures { result ≡ length_at s.now at }
{
    let first = byte_at(s, at)?;
    if first < 0x80 {
        return Ok(Length {
            len: first,
            next: at + 1,
        });
    }
    if first != 0x81 {
        return Err(Malformed);
    }
    let second = byte_at(s, at + 1)?;
    if second < 0x80 {
        return Err(Malformed);
    }
    Ok(Length {
        len: second,
        next: at + 2,
    })
}

// The element at a position; none where the bytes have ended.
#[tactic(auto, unfolding(rules::specs::Bytes::element_at, rules::specs::Bytes::element_by, rules::specs::Bytes::valued))]
pub fn element_at(s: &[u8], at: usize) -> Result<Option<Element>, Malformed>
    ensures { result ≡ element_at s.now at }
{
    if s.len() <= at {
        return Ok(None);
    }
    let size = tag_size(s[at])?;
    let behind = at + size;
    if s.len() <= behind {
        return Err(Malformed);
    }
    let number = tag_number(s, at, size);
    let length = length_at(s, behind)?;
    let len = length.len as usize;
    let next = length.next + len;
    if s.len() < next {
        return Err(Malformed);
    }
    Ok(Some(Element {
        number,
        start: length.next,
        len,
        next,
    }))
}
