// What the calls about menu entries make of the menu list: the identifier and the row of a new entry, a new text, a mark.
// A row is known by its identifier, never by its text.
#![tactic(auto)]

ghost use Rattle.std.specs.Prelude.{◌≡◌, ◌&&◌, ◌+◌, ◌≤◌, length, map, take};
ghost use Rattle.std.specs.Prelude.{◌==◌};
ghost use Rattle.std.specs.List.{position};
ghost use Rattle.lists.specs.Bits.{bits_of};
ghost use Rattle.rules.specs.declared.Row as held;
ghost use Rattle.rules.specs.Rows.{smallest_free};
ghost use Rattle.rules.specs.Held.{view_row, stored_row, view_rows, TidyRows};
ghost use Rattle.menu.specs.Table.{new_row};
ghost use Rattle.menu_entries.specs.ItsRow.{with_words, entered_by, reworded_by, marked_by};

use rules::{Pair, Row, Rows};

// What a call about an applet's row leaves: the rows, whether there is such a row, and whether what is shown of it turns.
// No `Option`: the refusal asks for the one, and the mark for the other, also where there is no such row.
#[derive(Clone, Copy)]
pub struct Touched {
    pub rows: Rows,
    pub its: bool,
    pub turns: bool,
}

// What a new entry leaves: the rows, and the identifier of its row.
#[derive(Clone, Copy)]
pub struct Added {
    pub rows: Rows,
    pub identifier: u8,
}

// How many bytes of a text a row holds: at most 15.
fn text_len(text: &[u8]) -> u8
    ensures { (result ≡ length (take 15 text.now)) × (result ≤ 15) }
{
    text.len().min(Row::TEXT) as u8
}

// The row of a new entry, enabled, with the first 15 bytes of its text.
fn row_of(identifier: u8, owner: u8, help: bool, text: &[u8]) -> Row
    ensures { result ≡ stored_row (new_row identifier owner help (take 15 text.now)) }
{
    let bytes = writing::held(text);
    Row {
        identifier,
        owner,
        help,
        enabled: true,
        text: bytes,
        len: text_len(text),
    }
}

// A row with a help mark and the first 15 bytes of a text.
fn reworded(row: Row, help: bool, text: &[u8]) -> Row
    ensures { result ≡ stored_row (with_words help (take 15 text.now) (view_row row)) }
{
    let bytes = writing::held(text);
    Row {
        identifier: row.identifier,
        owner: row.owner,
        help,
        enabled: row.enabled,
        text: bytes,
        len: text_len(text),
    }
}

// The bit of an identifier: bit 0 for 128, bit 31 for 159, none for any other.
fn bit_of(identifier: u8) -> u32
    ensures { result ≡ bits_of 32 (λ j. identifier == 128 + j) }
{
    if identifier < 128 {
        return 0;
    }
    let k = identifier - 128;
    if k < 32 {
        return 1u32 << k;
    }
    0
}

// The smallest of 128..255 that is not in use: twelve rows leave one of the first thirteen.
fn free_identifier(listed: &[Row]) -> u8
    requires { length listed.now ≤ 12 }
    ensures { result ≡ smallest_free (map view_row listed.now) }
{
    let mut used = 0;
    for row in listed {
        used |= bit_of(row.identifier);
    }
    (u32::trailing_zeros(!used) + 128) as u8
}

// The rows with a new entry, enabled, at its requested position, with its requested identifier, or, where that is 0, the smallest
// of 128..255 that is not in use. A full list stays as it is.
pub fn entered(rows: Rows, pair: Pair, owner: u8, help: bool, text: &[u8]) -> Added
    requires { TidyRows rows }
    ensures { result ≡ entered_by pair owner help text.now (view_rows rows) }
{
    let n = usize::from(rows.count);
    let mut at = rows.at;
    let mut count = rows.count;
    let mut identifier = pair.identifier;
    if identifier == 0 {
        identifier = free_identifier(&at[..n]);
    }
    if n < Rows::MOST {
        let row = row_of(identifier, owner, help, text);
        let k = menu::place_of(pair.position, n);
        // By hand: by `copy_within` (proved, in two forms) a new entry took 1.2 and 1.8 times as long, and 336 and 992 bytes of stack more.
        let mut i = n;
        while k < i {
            at[i] = at[i - 1];
            i -= 1;
        }
        at[k] = row;
        count = count + 1;
    }
    let next = Rows { at, count };
    Added {
        rows: next,
        identifier,
    }
}

// The index of the applet's row with an identifier.
fn row_at(listed: &[Row], applet: u8, identifier: u8) -> Option<usize>
    ensures { result ≡ position (λ (x : held.Row). x.identifier == identifier && x.owner == applet) listed.now }
{
    listed
        .iter()
        .position(|row| row.identifier == identifier && row.owner == applet)
}

// The applet's row with an identifier enabled, or disabled.
pub fn enabled(rows: Rows, applet: u8, identifier: u8, on: bool) -> Touched
    requires { TidyRows rows }
    ensures { result ≡ marked_by applet identifier on (view_rows rows) }
{
    let mut next = rows;
    let mut turns = false;
    let found = row_at(menu::listed(&next), applet, identifier);
    if let Some(i) = found {
        let mut row = next.at[i];
        turns = row.enabled != on;
        row.enabled = on;
        next.at[i] = row;
    }
    Touched {
        rows: next,
        its: found.is_some(),
        turns,
    }
}

// The applet's row with an identifier given a help mark and the first 15 bytes of a text, if the text fits.
pub fn changed(
    rows: Rows,
    applet: u8,
    identifier: u8,
    fits: bool,
    help: bool,
    text: &[u8],
) -> Touched
    requires { TidyRows rows }
    ensures { result ≡ reworded_by applet identifier fits help text.now (view_rows rows) }
{
    let mut at = rows.at;
    let mut turns = false;
    let found = row_at(&at[..usize::from(rows.count)], applet, identifier);
    if let Some(i) = found {
        if fits {
            let row = at[i];
            turns = menu_shown::turns_text(&row, help, text);
            at[i] = reworded(row, help, text);
        }
    }
    let next = Rows {
        at,
        count: rows.count,
    };
    Touched {
        rows: next,
        its: found.is_some(),
        turns,
    }
}
