// What the calls ask of the menu list: whom a menu choice or a help request is for, whether a call changes what is shown, and
// whether a row is shown, by the set of the selectable applets.
#![tactic(auto)]

ghost use Rattle.std.specs.Prelude.{◌≡◌, not, ◌&&◌, ◌||◌};
ghost use Rattle.std.specs.Prelude.{◌==◌};
ghost use Rattle.lists.specs.Lists.{same?};
ghost use Rattle.rules.specs.Held.{view_row, view_rows, TidyRows};
ghost use Rattle.menu.specs.Table.{TidyRow};
ghost use Rattle.menu_shown.specs.Chosen.{chosen_owner, has_enabled_row, is_shown, has_shown_row, turns_text};

use rules::{Row, Rows};

// A choice counts for the row: it has the identifier, it is enabled, and where help is asked for it offers help.
fn is_chosen(row: &Row, identifier: u8, help: bool) -> bool
    ensures { result ≡ (row.now.identifier == identifier && row.now.enabled && (row.now.help || not help)) }
{
    row.identifier == identifier && row.enabled && (row.help || !help)
}

// The applet that a menu choice is for, or a request for help: the owner of the row for which it counts; 0 where there is none,
// as callers make a set of it, and 0 makes the empty one.
pub fn chosen_owner(rows: Rows, identifier: u8, help: bool) -> u8
    requires { TidyRows rows }
    ensures { result ≡ chosen_owner identifier help (view_rows rows) }
{
    menu::listed(&rows)
        .iter()
        .find(|row| is_chosen(row, identifier, help))
        .map_or(0, |row| row.owner)
}

// An enabled row is the applet's.
pub fn has_enabled_row(rows: Rows, applet: u8) -> bool
    requires { TidyRows rows }
    ensures { result ≡ has_enabled_row applet (view_rows rows) }
{
    menu::listed(&rows)
        .iter()
        .any(|row| row.owner == applet && row.enabled)
}

// Whether a row is shown: it is enabled, and its owner in the set.
pub fn is_shown(row: &Row, selectable: u8) -> bool
    ensures { result ≡ is_shown selectable (view_row row.now) }
{
    row.enabled && sets::has(selectable, row.owner)
}

// Some row is shown, where these applets are selectable.
pub fn has_shown_row(rows: Rows, selectable: u8) -> bool
    requires { TidyRows rows }
    ensures { result ≡ has_shown_row selectable (view_rows rows) }
{
    menu::listed(&rows)
        .iter()
        .any(|row| is_shown(row, selectable))
}

// The row's text is this one.
pub fn same_text(row: &Row, text: &[u8]) -> bool
    requires { TidyRow row.now }
    ensures { result ≡ same? (view_row row.now).text text.now }
{
    check::same(&row.text[..usize::from(row.len)], text)
}

// The row is enabled, and this help mark and text are not its own: to change it so turns what is shown of it.
pub fn turns_text(row: &Row, help: bool, text: &[u8]) -> bool
    requires { TidyRow row.now }
    ensures { result ≡ turns_text help text.now (view_row row.now) }
{
    row.enabled && (row.help != help || !same_text(row, text))
}
