// The system commands, written at the front of a lent buffer: the menu, the event list, POLL INTERVAL and POLLING OFF.
// The length stands before the value, so the bytes are counted first.
#![tactic(auto)]

ghost use Rattle.std.specs.Prelude.{◌≡◌, ◌∷◌, ◌+◌, ◌<◌, ◌≤◌, length};
ghost use Rattle.std.specs.Prelude.{if◌then◌else◌, ◌==◌};
ghost use Rattle.lists.specs.Lists.{some?};
ghost use Rattle.rules.specs.Holds.{Row};
ghost use Rattle.rules.specs.Applets.{longest_poll};
ghost use Rattle.rules.specs.Commands.{length_bytes, item_bytes, items_bytes, menu_of, menu_bytes, event_bytes, duration_bytes, interval_bytes, off_bytes};
ghost use Rattle.lists.specs.Wrote.{Wrote};
ghost use Rattle.writing.specs.Puts.{Room, Puts};
ghost use Rattle.commands.specs.Fits.{items_of, rows_bytes, shown_of, Fits};

use rules::Rows;
use writing::Out;

// What the shown rows come to: the bytes of their items, and the help mark.
#[derive(Clone, Copy)]
struct Extent {
    bytes: usize,
    help: bool,
}

// D0 and the length of a value of n bytes.
fn put_length(out: &mut Out, n: usize)
    requires { (n < 256) × Room out.old 3 }
    ensures { Puts out.old (0xD0 ∷ length_bytes n) out.new }
{
    if n < 128 {
        let head = [0xD0, n as u8];
        out.put(&head);
    } else {
        let head = [0xD0, 0x81, n as u8];
        out.put(&head);
    }
}

// An item: 8F, length, identifier, text.
fn put_item(out: &mut Out, identifier: u8, text: &[u8])
    requires { (length text.now ≤ 15) × Room out.old (3 + length text.now) }
    ensures { Puts out.old (item_bytes (record { identifier = identifier; text = text.now })) out.new }
{
    let n = text.len();
    let head = [0x8F, (n + 1) as u8, identifier];
    out.put(&head);
    out.put(text);
}

// How many bytes the items of the shown rows take, and whether some of them has help.
fn extent_of(rows: &Rows, selectable: u8) -> Extent
    requires { Fits rows.now }
    ensures { (result.bytes ≡ length (rows_bytes (shown_of selectable rows.now))) × (result.help ≡ some? (λ (x : Row). x.help) (shown_of selectable rows.now)) }
{
    let mut bytes = 0;
    let mut help = false;
    for row in menu::listed(rows) {
        if menu_shown::is_shown(row, selectable) {
            bytes += 3 + usize::from(row.len);
            help |= row.help;
        }
    }
    Extent { bytes, help }
}

// An item for each shown row.
fn put_rows(out: &mut Out, rows: &Rows, selectable: u8)
    requires { Fits rows.now × Room out.old (length (rows_bytes (shown_of selectable rows.now))) }
    ensures { Puts out.old (rows_bytes (shown_of selectable rows.now)) out.new }
{
    for row in menu::listed(rows) {
        if menu_shown::is_shown(row, selectable) {
            let text = &row.text[..usize::from(row.len)];
            put_item(out, row.identifier, text);
        }
    }
}

// The items, or 8F 00 alone where they have no byte.
fn put_items(out: &mut Out, bytes: usize, rows: &Rows, selectable: u8)
    requires { Fits rows.now × (bytes ≡ length (rows_bytes (shown_of selectable rows.now))) × Room out.old (length (items_bytes (items_of (shown_of selectable rows.now)))) }
    ensures { Puts out.old (items_bytes (items_of (shown_of selectable rows.now))) out.new }
{
    if bytes == 0 {
        let none = [0x8F, 0];
        out.put(&none);
    } else {
        put_rows(out, rows, selectable);
    }
}

// How many bytes the value of a menu has, with a title and items of so many.
fn value_length(title: usize, bytes: usize) -> usize
    requires { (title ≤ 20) × (bytes ≤ 216) }
    ensures { result ≡ 11 + (title + (if bytes == 0 then 2 else bytes)) }
{
    if bytes == 0 {
        return 13 + title;
    }
    11 + title + bytes
}

// The menu with a title and the shown of these rows at the front of the buffer, of 256 bytes or more, as its owner lends it; how many bytes it has.
pub fn write_menu(buf: &mut [u8], title: &[u8], rows: &Rows, selectable: u8) -> usize
    requires { Fits rows.now × (length title.now ≤ 20) × (256 ≤ length buf.old) }
    ensures { Wrote buf.old 0 (menu_bytes (menu_of title.now (shown_of selectable rows.now))) buf.new result }
{
    let len = title.len();
    let shown = extent_of(rows, selectable);
    let n = value_length(len, shown.bytes);
    let q = writing::qualifier(shown.help);
    let head = [0x81, 3, 1, 0x25, q, 0x82, 2, 0x81, 0x82, 0x85, len as u8];
    let mut out = Out::new(buf);
    put_length(&mut out, n);
    out.put(&head);
    out.put(title);
    put_items(&mut out, shown.bytes, rows, selectable);
    out.at
}

// The event list of these codes at the front of the buffer; how many bytes it has.
pub fn write_events(buf: &mut [u8], codes: &[u8]) -> usize
    requires { (length codes.now ≤ 13) × (256 ≤ length buf.old) }
    ensures { Wrote buf.old 0 (event_bytes codes.now) buf.new result }
{
    let n = codes.len();
    let head = [0x81, 3, 1, 5, 0, 0x82, 2, 0x81, 0x82, 0x99, n as u8];
    let mut out = Out::new(buf);
    put_length(&mut out, 11 + n);
    out.put(&head);
    out.put(codes);
    out.at
}

// A duration: 84, length, unit, count; in seconds up to 255, else in minutes.
fn put_duration(out: &mut Out, seconds: u16)
    requires { (seconds ≤ longest_poll) × Room out.old 4 }
    ensures { Puts out.old (duration_bytes seconds) out.new }
{
    if seconds <= 255 {
        let duration = [0x84, 2, 1, seconds as u8];
        out.put(&duration);
    } else {
        let minutes = seconds / 60;
        let duration = [0x84, 2, 0, minutes as u8];
        out.put(&duration);
    }
}

// POLL INTERVAL at the front of the buffer; how many bytes it has.
pub fn write_interval(buf: &mut [u8], seconds: u16) -> usize
    requires { (seconds ≤ longest_poll) × (256 ≤ length buf.old) }
    ensures { Wrote buf.old 0 (interval_bytes seconds) buf.new result }
{
    let head = [0xD0, 13, 0x81, 3, 1, 3, 0, 0x82, 2, 0x81, 0x82];
    let mut out = Out::new(buf);
    out.put(&head);
    put_duration(&mut out, seconds);
    out.at
}

// POLLING OFF at the front of the buffer; how many bytes it has.
pub fn write_off(buf: &mut [u8]) -> usize
    requires { 256 ≤ length buf.old }
    ensures { Wrote buf.old 0 off_bytes buf.new result }
{
    let command = [0xD0, 9, 0x81, 3, 1, 4, 0, 0x82, 2, 0x81, 0x82];
    let mut out = Out::new(buf);
    out.put(&command);
    out.at
}
