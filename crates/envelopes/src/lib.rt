// What an envelope says, what a command given to send says, and the handler's content. The first occurrence of an element
// counts, also when its length is not the one stated.
#![tactic(auto)]

ghost use Rattle.std.specs.Prelude.{◌≡◌, Some, false, IfOk, IfErr};
ghost use Rattle.rules.specs.Bytes.{found};
ghost use Rattle.rules.specs.Envelopes.{is_sized, one_byte, help_in, envelope_by, type_in, command_by};
ghost use Rattle.rules.specs.Readers.{ReadsEnvelope, ReadsCommand, LocatesContent, GivesContent};

use rules::{Command, Envelope, Malformed, Outer, Span};

// The value of an element, which is to have this length.
#[tactic(auto, unfolding(rules::specs::Envelopes::is_sized))]
fn sized(s: &[u8], tag: u16, len: usize) -> Result<Span, Malformed>
    ensures ok { IfOk result (λ value. (found s.now tag 1 ≡ Some value) × (value.len ≡ len)) }
    ensures err { IfErr result (λ _. is_sized len (found s.now tag 1) ≡ false) }
{
    let value = tlv::locate(s, tag, 1).ok_or(Malformed)?;
    if value.len == len {
        Ok(value)
    } else {
        Err(Malformed)
    }
}

// The byte of an element that is to have one.
#[tactic(auto, unfolding(rules::specs::Envelopes::one_byte, rules::specs::Envelopes::only_byte, rules::specs::Envelopes::is_sized))]
fn only_byte(s: &[u8], tag: u16) -> Result<u8, Malformed>
    ensures { result ≡ one_byte s.now tag }
{
    let value = sized(s, tag, 1)?;
    Ok(s[value.start])
}

// Whether there is a help request, which has no bytes.
#[tactic(auto, unfolding(rules::specs::Envelopes::help_in))]
#[inline(always)]
fn help(s: &[u8]) -> Result<bool, Malformed>
    ensures { result ≡ help_in (found s.now 0x15 1) }
{
    match tlv::locate(s, 0x15, 1) {
        Some(value) if value.len == 0 => Ok(true),
        Some(_) => Err(Malformed),
        None => Ok(false),
    }
}

// What an envelope with this outer tag and this value says; each that is recognized has device identities of two bytes.
#[tactic(auto, unfolding(rules::specs::Envelopes::envelope_by, rules::specs::Envelopes::with_devices, rules::specs::Envelopes::is_sized, rules::specs::Envelopes::with_byte, rules::specs::Envelopes::selection))]
#[inline(always)]
fn decide(tag: u8, s: &[u8]) -> Result<Envelope, Malformed>
    ensures { result ≡ envelope_by tag s.now }
{
    let needed = match tag {
        0xD3 => Some(0x10),
        0xD4 => None,
        0xD6 => Some(0x19),
        0xD7 => Some(0x24),
        _ => return Ok(Envelope::Unrecognized),
    };
    sized(s, 0x02, 2)?;
    let Some(element) = needed else {
        return Ok(Envelope::Call);
    };
    let byte = only_byte(s, element)?;
    match tag {
        0xD3 => Ok(Envelope::Menu {
            item: byte,
            help: help(s)?,
        }),
        0xD6 => Ok(Envelope::Download { code: byte }),
        _ => Ok(Envelope::Expiry { timer: byte }),
    }
}

// What the bytes of an envelope say.
#[tactic(auto, unfolding(rules::specs::Envelopes::envelope_of, rules::specs::Envelopes::with_outer))]
pub fn read_envelope(s: &[u8]) -> Result<Envelope, Malformed>
    ensures { ReadsEnvelope s.now result }
{
    let Outer { tag, start } = tlv::outer(s)?;
    decide(tag, &s[start..])
}

// The type of a command: the second of the three bytes of its details.
#[tactic(auto, unfolding(rules::specs::Envelopes::type_in, rules::specs::Envelopes::is_sized))]
fn kind(s: &[u8]) -> Result<u8, Malformed>
    ensures { result ≡ type_in s.now (found s.now 0x01 1) }
{
    let details = sized(s, 0x01, 3)?;
    Ok(s[details.start + 1])
}

// What a command with the outer tag D0 and this value says.
#[tactic(auto, unfolding(rules::specs::Envelopes::command_by, rules::specs::Envelopes::of_type, rules::specs::Envelopes::with_byte))]
fn instruct(s: &[u8]) -> Result<Command, Malformed>
    ensures { result ≡ command_by 0xD0 s.now }
{
    let kind = kind(s)?;
    if kind == 0x27 {
        Ok(Command::Timer {
            timer: only_byte(s, 0x24)?,
        })
    } else {
        Ok(Command::Plain { kind })
    }
}

// What the bytes of a command given to send say.
#[tactic(auto, unfolding(rules::specs::Envelopes::command_of, rules::specs::Envelopes::with_outer, rules::specs::Envelopes::command_by))]
pub fn read_command(s: &[u8]) -> Result<Command, Malformed>
    ensures { ReadsCommand s.now result }
{
    let Outer { tag, start } = tlv::outer(s)?;
    if tag == 0xD0 {
        instruct(&s[start..])
    } else {
        Err(Malformed)
    }
}

// Where the handler's content stands: behind the length, to the end; nowhere in bytes that are refused.
#[tactic(auto, unfolding(rules::specs::Envelopes::content_at, rules::specs::Envelopes::behind_length, rules::specs::Envelopes::envelope_of, rules::specs::Envelopes::with_outer))]
pub fn content_at(s: &[u8]) -> Option<Span>
    ensures { LocatesContent s.now result }
{
    let Outer { tag, start } = tlv::outer(s).ok()?;
    decide(tag, &s[start..]).ok()?;
    let len = s.len() - start;
    Some(Span { start, len })
}

// The handler's content, a part of the envelope; the empty part where there is none.
#[tactic(auto, unfolding(rules::specs::Envelopes::content_of))]
pub fn content(s: &[u8]) -> &[u8]
    ensures { GivesContent s.now result.now }
{
    tlv::part(s, content_at(s))
}
