// The menu reader: every byte is held to what the card would have written there. It accepts exactly what the card can write.
#![tactic(auto)]

ghost use Rattle.std.specs.Prelude.{◌≡◌, ◌≤◌, ◌<◌, length};
ghost use Rattle.std.specs.Prelude.{if◌then◌else◌};
ghost use Rattle.rules.specs.Readers.{ReadsMenu};
ghost use Rattle.rules.specs.Held.{stored_item, stored_menu};
ghost use Rattle.menu_reader.specs.Reads.{no_item, refused, ValueAt, TitleAt, ItemsAt, TextAt, ItemsRead};

use rules::{Desk, Item, Menu, Refused, Row, Rows};

// The items that were read, how many they are, and the index behind them. Array and count go as they are into `Menu`, a struct of
// the C interface.
#[derive(Clone, Copy)]
pub struct Parsed {
    pub at: [Item; Rows::MOST],
    pub count: usize,
    pub next: usize,
}

// Where the value of a command starts, behind D0 and its length, if the card would have written these.
fn value_at(bytes: &[u8]) -> Option<usize>
    ensures { ValueAt bytes.now result }
{
    let n = bytes.len();
    if n < 13 {
        return None;
    }
    if bytes[0] != 0xD0 {
        return None;
    }
    if n < 130 {
        if usize::from(bytes[1]) + 2 == n {
            return Some(2);
        }
        return None;
    }
    if bytes[1] != 0x81 {
        return None;
    }
    if n == 130 {
        return None;
    }
    if usize::from(bytes[2]) + 3 == n {
        return Some(3);
    }
    None
}

// Where the title starts, behind its length, if the card would have written the bytes before it.
fn title_at(bytes: &[u8]) -> Option<usize>
    ensures { TitleAt bytes.now result }
{
    let v = value_at(bytes)?;
    let q = writing::qualifier(bytes[v + 4] != 0);
    let len = bytes[v + 10];
    let at = v + 11;

    // By `==` of slices (proved) the reader took 255 ns for 221, and 1,544 B of stack for 1,464.
    if check::same(
        &bytes[v..at],
        &[0x81, 0x03, 0x01, 0x25, q, 0x82, 0x02, 0x81, 0x82, 0x85, len],
    ) {
        return Some(at);
    }
    None
}

// Where the items start, behind the title that ends here: at the end of the bytes where 8F 00 stands for none.
fn items_at(bytes: &[u8], end: usize, help: bool) -> usize
    requires { end < length bytes.now }
    ensures { ItemsAt bytes.now end help result }
{
    if help {
        return end;
    }
    if check::same(&bytes[end..], &[0x8F, 0x00]) {
        return bytes.len();
    }
    end
}

// How long the text of the item at a position is, if one stands there that the card could have written.
fn text_len(bytes: &[u8], at: usize) -> Option<usize>
    requires { at ≤ length bytes.now }
    ensures { TextAt bytes.now at result }
{
    let left = bytes.len() - at;
    if left < 4 {
        return None;
    }
    if bytes[at] != 0x8F {
        return None;
    }
    if bytes[at + 2] == 0 {
        return None;
    }
    let n = usize::from(bytes[at + 1]);
    if n < 2 {
        return None;
    }
    if Row::TEXT + 1 < n {
        return None;
    }
    if left < n + 2 {
        return None;
    }
    Some(n - 1)
}

// The item that stands where there is none.
fn no_item() -> Item
    ensures { result ≡ stored_item no_item }
{
    Item {
        identifier: 0,
        text: [0; Row::TEXT],
        len: 0,
    }
}

// The items from a position on, as many as can be read.
fn read_items(bytes: &[u8], from: usize) -> Parsed
    requires { from ≤ length bytes.now }
    ensures { ItemsRead bytes.now from result }
{
    let none = no_item();
    let mut at = [none; Rows::MOST];
    let mut seen = [false; 256];
    let mut next = from;
    for count in 0..Rows::MOST {
        let Some(len) = text_len(bytes, next) else {
            return Parsed { at, count, next };
        };
        let identifier = bytes[next + 2];
        if seen[usize::from(identifier)] {
            return Parsed { at, count, next };
        }
        seen[usize::from(identifier)] = true;
        let start = next + 3;
        let end = start + len;
        let text = writing::held(&bytes[start..end]);
        let size = len as u8;
        let item = Item {
            identifier,
            text,
            len: size,
        };
        at[count] = item;
        next = end;
    }
    Parsed {
        at,
        count: Rows::MOST,
        next,
    }
}

// The answer where the bytes are no menu command.
fn refusal() -> Menu
    ensures { result ≡ stored_menu refused }
{
    let none = no_item();
    let at = [none; Rows::MOST];
    Menu {
        refusal: Refused::Malformed.number(),
        title: [0; Desk::TITLE],
        title_len: 0,
        help: false,
        at,
        count: 0,
    }
}

// The title, the help mark and the items of a menu command; refusal 1 and none of them for any other bytes.
pub fn read_menu(bytes: &[u8]) -> Menu
    ensures { ReadsMenu bytes.now result }
{
    let Some(start) = title_at(bytes) else {
        return refusal();
    };
    let help = bytes[start - 7] != 0;
    let len = usize::from(bytes[start - 1]);
    if Desk::TITLE < len {
        return refusal();
    }
    let end = start + len;
    if bytes.len() <= end {
        return refusal();
    }
    let from = items_at(bytes, end, help);
    let parsed = read_items(bytes, from);
    if parsed.next != bytes.len() {
        return refusal();
    }
    let title = writing::held(&bytes[start..end]);
    let title_len = len as u8;
    let at = parsed.at;
    let count = parsed.count as u8;
    Menu {
        refusal: 0,
        title,
        title_len,
        help,
        at,
        count,
    }
}
