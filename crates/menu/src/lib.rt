// The menu list, by value: at most 12 rows. Where a new one stands, and the list without those of an applet, closed up.
// `Rows` is a struct of the C interface, and `stored_rows` gives one of any list: that rows are tidy is asked, not its invariant.
#![tactic(auto)]

ghost use Rattle.std.specs.Prelude.{◌≡◌, [], take};
ghost use Rattle.rules.specs.Rows.{place, without_rows};
ghost use Rattle.rules.specs.Held.{view_rows, stored_rows, TidyRows};

use rules::{Row, Rows};

// The menu list of a fresh card.
pub fn no_rows() -> Rows
    ensures { result ≡ stored_rows [] }
{
    let none = Row {
        identifier: 0,
        owner: 0,
        help: false,
        enabled: false,
        text: [0; Row::TEXT],
        len: 0,
    };
    Rows {
        at: [none; Rows::MOST],
        count: 0,
    }
}

// The rows of the list, without the places behind them.
pub fn listed(rows: &Rows) -> &[Row]
    requires { TidyRows rows.now }
    ensures { result.now ≡ take rows.now.count rows.now.at }
{
    &rows.at[..usize::from(rows.count)]
}

// The index of a requested position among n rows.
pub fn place_of(position: u8, n: usize) -> usize
    ensures { result ≡ place position n }
{
    if position == 0 {
        return n;
    }
    let p = usize::from(position);
    if p <= n {
        return p - 1;
    }
    n
}

// The rows without those of an applet, closed up, in the same order.
pub fn without(rows: Rows, applet: u8) -> Rows
    requires { TidyRows rows }
    ensures { result ≡ stored_rows (without_rows applet (view_rows rows)) }
{
    let mut left = no_rows();
    for row in listed(&rows) {
        if row.owner != applet {
            left.at[usize::from(left.count)] = *row;
            left.count += 1;
        }
    }
    left
}
