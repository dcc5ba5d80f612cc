// Menus that a card hands out, and items written by hand, read back: a line for each with the refusal, the title, the help mark and the items.
// Below a handed-out menu stands, for each kind of damage, how many commands so damaged the reader refuses.
#![tactic(auto)]

mod damage;

ghost use Rattle.std.specs.Prelude.{◌≤◌, length};
ghost use Rattle.card.specs.View.{Left};

use card::Card;
use rules::{Pair, Request};
use std::io::Write;
use telling::put;
use texts::first;

// Menus written by hand.
const WRITTEN: [(&str, &[u8]); 11] = [
    (
        "no items",
        b"\xD0\x0D\x81\x03\x01\x25\x00\x82\x02\x81\x82\x85\x00\x8F\x00",
    ),
    (
        "equal titles",
        b"\xD0\x13\x81\x03\x01\x25\x00\x82\x02\x81\x82\x85\x00\x8F\x02\x01a\x8F\x02\x02a",
    ),
    (
        "identifier twice",
        b"\xD0\x13\x81\x03\x01\x25\x00\x82\x02\x81\x82\x85\x00\x8F\x02\x01a\x8F\x02\x01b",
    ),
    (
        "item with length 0 behind an item",
        b"\xD0\x11\x81\x03\x01\x25\x00\x82\x02\x81\x82\x85\x00\x8F\x02\x01a\x8F\x00",
    ),
    (
        "item with length 0 before an item",
        b"\xD0\x11\x81\x03\x01\x25\x00\x82\x02\x81\x82\x85\x00\x8F\x00\x8F\x02\x01a",
    ),
    (
        "two items with length 0",
        b"\xD0\x0F\x81\x03\x01\x25\x00\x82\x02\x81\x82\x85\x00\x8F\x00\x8F\x00",
    ),
    (
        "item with no text",
        b"\xD0\x0E\x81\x03\x01\x25\x00\x82\x02\x81\x82\x85\x00\x8F\x01\x01",
    ),
    (
        "item with no text behind an item",
        b"\xD0\x12\x81\x03\x01\x25\x00\x82\x02\x81\x82\x85\x00\x8F\x02\x01a\x8F\x01\x02",
    ),
    (
        "item with identifier 0",
        b"\xD0\x0F\x81\x03\x01\x25\x00\x82\x02\x81\x82\x85\x00\x8F\x02\x00a",
    ),
    (
        "no item element",
        b"\xD0\x0B\x81\x03\x01\x25\x00\x82\x02\x81\x82\x85\x00",
    ),
    (
        "no items, with help",
        b"\xD0\x0D\x81\x03\x01\x25\x80\x82\x02\x81\x82\x85\x00\x8F\x00",
    ),
];

// Bytes in lower hex. Here and below each piece of a line is written whatever became of the one before.
fn put_byte(to: &mut impl Write, b: u8) {
    put(to, format_args!("{b:02x}"));
}

fn put_bytes(to: &mut impl Write, s: &[u8]) {
    for b in s {
        put_byte(to, *b);
    }
}

// What the reader says of the bytes.
fn say(to: &mut impl Write, s: &[u8]) {
    let menu = menu_reader::read_menu(s);
    put_byte(to, menu.refusal);
    put(to, " ");
    put_bytes(to, first(&menu.title, menu.title_len as usize));
    if menu.help {
        put(to, " help");
    }
    for item in menu.at.iter().take(menu.count as usize) {
        put(to, " ");
        put_byte(to, item.identifier);
        put(to, ":");
        put_bytes(to, first(&item.text, item.len as usize));
    }
    put(to, "\n");
}

// Three applets with four entries each.
fn installed(mut card: Card) -> Card
    requires { Left card }
    ensures { Left result }
{
    let request = Request {
        priority: 1,
        timers: 0,
        entries: 4,
        text: 15,
        pairs: [Pair::default(); 4],
    };
    for applet in 1..4 {
        card = card.install(applet, request).card;
    }
    card
}

// So many entries with one text; each second one has help.
fn filled(mut card: Card, rows: u8, text: &[u8]) -> Card
    requires { Left card }
    ensures { Left result }
{
    for i in 0..rows {
        card = card.new_entry(i / 4 + 1, i % 2 == 1, text).card;
    }
    card
}

// The card in a session, with a title and so many entries.
fn begun(title: &[u8], rows: u8, text: &[u8]) -> Card
    ensures { Left result }
{
    let made = Card::fresh(title);
    let full = filled(installed(made.card), rows, text);
    let arrived = full.profile(&[0xFF]);
    arrived.card
}

// The card without its first applet.
fn emptied(card: Card) -> Card
    requires { Left card }
    ensures { Left result }
{
    let changed = card.delete(1);
    changed.card
}

// The command that is due, at the front of the buffer; its length.
fn handed(card: Card, out: &mut [u8]) -> usize
    requires { Left card }
    ensures { result ≤ 255 }
{
    card.system_command(out).answer.number as usize
}

// The command that is due as it is, and damaged.
fn tell(to: &mut impl Write, card: Card)
    requires { Left card }
{
    let mut out = [0u8; 256];
    let n = handed(card, &mut out);
    put(to, "menu of ");
    put(to, n);
    put(to, " bytes: ");
    say(to, &out[..n]);
    if 0 < n {
        damage::tell(to, &mut out, n);
    }
}

// A menu of so many rows, with so many bytes of a title and of a text.
fn try_menu(to: &mut impl Write, titled: usize, rows: u8, each: usize)
    requires { (titled ≤ 20) × (each ≤ 15) }
{
    let title = *b"ABCDEFGHIJKLMNOPQRST";
    let text = *b"abcdefghijklmno";
    tell(to, begun(&title[..titled], rows, &text[..each]));
}

// A menu of no rows: the only row goes while the menu is due.
fn try_none(to: &mut impl Write, title: &[u8]) {
    tell(to, emptied(begun(title, 1, title)));
}

fn try_handed_out(to: &mut impl Write) {
    try_menu(to, 0, 1, 1);
    try_menu(to, 20, 1, 15);
    try_menu(to, 0, 12, 1);
    try_menu(to, 20, 12, 15);
    try_menu(to, 8, 6, 15);
    try_menu(to, 9, 6, 15);
    try_none(to, b"A");
    try_none(to, b"ABCDEFGHIJKLMNO");
}

fn try_written(to: &mut impl Write) {
    for (name, menu) in WRITTEN {
        put(to, name);
        put(to, ": ");
        say(to, menu);
    }
}

fn main(rt: HostRuntime) {
    let mut out = rt.stdout();
    try_handed_out(&mut out);
    try_written(&mut out);
}
