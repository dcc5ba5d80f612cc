// Reads lines `name: letter bytes` in upper hexadecimal and writes behind each name what the readers make of the bytes: e envelope, c command,
// o outer element, f search (tag and occurrence, two bytes each, and the run), v event value (two bytes), d download code.
#![tactic(auto)]

ghost use Rattle.std.specs.Prelude.{◌≤◌, length};

use floor_orders::values::signed_of;
use rules::{Command, Envelope, Kind, Malformed, Outer, Span};
use std::io::{Read, Write};
use telling::put;
use texts::{find, first};

// Reads until the buffer is full, the input ends or a read fails; how many bytes stand at its front.
// The floor program reads so too: a crate for these lines alone would be no plainer.
fn read_full(from: &mut impl Read, buf: &mut [u8]) -> usize
    ensures { result ≤ length buf.new }
{
    let mut done = 0;
    // each turn goes on by what was read
    while done < buf.len() {
        let n = from.read(&mut buf[done..]).unwrap_or(0);
        if n == 0 {
            break;
        }
        done += n;
    }
    done
}

// The value of a digit.
fn digit(c: u8) -> u8
    ensures { result ≤ 15 }
{
    match c {
        b'0'..=b'9' => c - b'0',
        b'A'..=b'F' => c - b'A' + 10,
        _ => 0,
    }
}

// The bytes that a text gives, each a space and two digits: as many of them as the buffer holds.
fn unhex<'a>(text: &[u8], bytes: &'a mut [u8]) -> &'a [u8] {
    let (triples, _) = text.as_chunks::<3>();
    for (b, [_, high, low]) in bytes.iter_mut().zip(triples) {
        *b = digit(*high) * 16 + digit(*low);
    }
    first(bytes, triples.len())
}

// Bytes in lower hex. Here and below each piece of a line is written whatever became of the one before.
fn put_byte(to: &mut impl Write, b: u8) {
    put(to, format_args!("{b:02x}"));
}

// Bytes, or a dash for none.
fn put_bytes(to: &mut impl Write, s: &[u8]) {
    if s.is_empty() {
        put(to, "-");
    }
    for b in s {
        put_byte(to, *b);
    }
}

// A word, and the byte that goes with it, if one does.
fn put_named(to: &mut impl Write, word: &str, byte: Option<u8>) {
    put(to, word);
    if let Some(b) = byte {
        put_byte(to, b);
    }
}

fn put_place(to: &mut impl Write, word: &str, n: usize) {
    put(to, word);
    put(to, format_args!("{n:04x}"));
}

fn say_envelope(to: &mut impl Write, s: &[u8]) {
    let envelope = envelopes::read_envelope(s);
    let (word, byte) = match envelope {
        Ok(Envelope::Menu { item, help: false }) => ("menu ", Some(item)),
        Ok(Envelope::Menu { item, help: true }) => ("help ", Some(item)),
        Ok(Envelope::Call) => ("call", None),
        Ok(Envelope::Download { code }) => ("download ", Some(code)),
        Ok(Envelope::Expiry { timer }) => ("expiry ", Some(timer)),
        Ok(Envelope::Unrecognized) => ("unrecognized", None),
        Err(Malformed) => ("malformed", None),
    };
    put_named(to, word, byte);
    if envelope.is_ok() {
        put(to, ", taken, content ");
    } else {
        put(to, ", refused, content ");
    }
    put_bytes(to, envelopes::content(s));
}

fn say_command(to: &mut impl Write, s: &[u8]) {
    let (word, byte) = match envelopes::read_command(s) {
        Ok(Command::Plain { kind }) => ("type ", Some(kind)),
        Ok(Command::Timer { timer }) => ("timer ", Some(timer)),
        Err(Malformed) => ("malformed", None),
    };
    put_named(to, word, byte);
}

fn say_outer(to: &mut impl Write, s: &[u8]) {
    match tlv::outer(s) {
        Ok(Outer { tag, start }) => {
            put_named(to, "tag ", Some(tag));
            put_place(to, ", value at ", start);
        }
        Err(Malformed) => {
            put(to, "malformed");
        }
    }
}

fn say_search(to: &mut impl Write, s: &[u8], tag: u16, occurrence: usize) {
    if tlv::has(s, tag, occurrence) {
        put(to, "yes ");
    } else {
        put(to, "no ");
    }
    put_bytes(to, tlv::find(s, tag, occurrence));
    match tlv::locate(s, tag, occurrence) {
        Some(Span { start, len }) => {
            put_place(to, ", at ", start);
            put_place(to, " length ", len);
        }
        None => {
            put(to, ", nothing");
        }
    }
}

// The name that document 01 gives an event, or what the kind is else.
fn name(kind: Kind) -> &'static str {
    match kind {
        Kind::Event(Kind::PROFILE_DOWNLOAD) => "profile download",
        Kind::Event(Kind::MENU_SELECTION) => "menu selection",
        Kind::Event(Kind::HELP_REQUEST) => "menu selection help request",
        Kind::Event(Kind::CALL_CONTROL) => "call control",
        Kind::Event(Kind::TIMER_EXPIRATION) => "timer expiration",
        Kind::Event(Kind::MT_CALL) => "MT call",
        Kind::Event(Kind::CALL_CONNECTED) => "call connected",
        Kind::Event(Kind::CALL_DISCONNECTED) => "call disconnected",
        Kind::Event(Kind::LOCATION_STATUS) => "location status",
        Kind::Event(Kind::USER_ACTIVITY) => "user activity",
        Kind::Event(Kind::IDLE_SCREEN) => "idle screen",
        Kind::Event(Kind::CARD_READER_STATUS) => "card reader status",
        Kind::Event(Kind::LANGUAGE_SELECTION) => "language selection",
        Kind::Event(Kind::BROWSER_TERMINATION) => "browser termination",
        Kind::Event(Kind::ACCESS_TECHNOLOGY) => "access technology (single)",
        Kind::Event(Kind::DISPLAY_PARAMETERS) => "display parameters",
        Kind::Event(Kind::NETWORK_SEARCH_MODE) => "network search mode",
        Kind::Event(Kind::BROWSING_STATUS) => "browsing status",
        Kind::Event(Kind::UNRECOGNIZED_ENVELOPE) => "unrecognized envelope",
        Kind::Event(Kind::HANDLER_AVAILABLE) => "proactive handler available",
        Kind::Event(_) => "",
        Kind::Issuer => "issuer",
        Kind::Reserved => "reserved",
        Kind::Unsupported => "unsupported",
    }
}

// The kind, the refusal that set event gives for it, and whether call control's owner is asked for.
fn say_kind(to: &mut impl Write, kind: Kind) {
    let refusal = match events::refusal_of(kind) {
        Ok(()) => 0,
        Err(refused) => refused.number(),
    };
    put(to, name(kind));
    put_named(to, ", refusal ", Some(refusal));
    if events::is_control(kind) {
        put(to, ", one owner");
    }
}

fn say(to: &mut impl Write, letter: u8, s: &[u8]) {
    match (letter, s) {
        (b'e', _) => say_envelope(to, s),
        (b'c', _) => say_command(to, s),
        (b'o', _) => say_outer(to, s),
        (b'd', [code, ..]) => say_kind(to, events::kind_of_code(*code)),
        (b'v', [high, low, ..]) => say_kind(to, events::kind_of(signed_of(*high, *low))),
        (b'd' | b'v', _) => {}
        (_, [high, low, times_high, times_low, run @ ..]) => {
            let tag = u16::from_be_bytes([*high, *low]);
            let occurrence = u16::from_be_bytes([*times_high, *times_low]);
            say_search(to, run, tag, usize::from(occurrence))
        }
        _ => {}
    }
}

// A line without a letter is passed over.
fn answer(to: &mut impl Write, line: &[u8]) {
    let mark = find(line, 0, line.len(), b':');
    let [_, _, letter, digits @ ..] = &line[mark..] else {
        return;
    };
    let mut bytes = [0; 512];
    let _ = to.write_all(&line[..mark + 2]);
    say(to, *letter, unhex(digits, &mut bytes));
    put(to, "\n");
}

fn answer_all(to: &mut impl Write, text: &[u8]) {
    for line in text.split(|b| *b == b'\n') {
        answer(to, line);
    }
}

fn main(rt: HostRuntime) {
    let mut text = [0; 65536];
    let n = read_full(&mut rt.stdin(), &mut text);
    answer_all(&mut rt.stdout(), &text[..n]);
}
