// Handing out: the command that is due, the menu first, then the event list, then polling, at the front of a lent buffer.
// The card is left as it will be before the first byte is written.
ghost use Rattle.std.specs.Prelude.{◌<◌, ◌≤◌, ◌≡◌, length, take};
ghost use Rattle.std.specs.Prelude.{◌==◌};
ghost use Rattle.lists.specs.Wrote.{Wrote};
ghost use Rattle.rules.specs.Events.{codes, first_download};
ghost use Rattle.rules.specs.Applets.{longest_poll};
ghost use Rattle.rules.specs.Commands.{menu_of, menu_bytes, event_bytes, interval_bytes};
ghost use Rattle.rules.specs.Numbers.{refusal_number};
ghost use Rattle.rules.specs.Calls.{system_command};
ghost use Rattle.commands.specs.Fits.{Fits, shown_of};
ghost use Rattle.events_shown.specs.Listed.{codes_from};
ghost use Rattle.events_shown.specs.Turns.{is_listened};
ghost use Rattle.polling.specs.Polls.{interval_of};
ghost use Rattle.card.specs.View.{Left};
ghost use Rattle.card.specs.Replies.{Replies, Fills};
ghost use Rattle.card.specs.Turns.{first_due, rest_due};

use crate::{Card, Reply};
use events_shown::Codes;
use polling::Requests;
use rules::{Desk, Due, Kind, Refused, Roll, Rows};

// What is handed out: of an accepted call the first that is due.
fn first_due(refusal: Result<(), Refused>, due: Due) -> Due
    ensures { result ≡ first_due (refusal_number refusal == 0) due }
{
    let accepted = refusal.is_ok();
    let menu = accepted & due.menu;
    let events = accepted & !due.menu & due.events;
    let quiet = accepted & !due.menu & !due.events;
    let interval = quiet & due.interval;
    let off = quiet & !due.interval & due.off;
    Due {
        menu,
        events,
        interval,
        off,
    }
}

// What is left due.
fn rest_due(due: Due, handed: Due) -> Due
    ensures { result ≡ rest_due due handed }
{
    let menu = due.menu & !handed.menu;
    let events = due.events & !handed.events;
    let interval = due.interval & !handed.interval;
    let off = due.off & !handed.off;
    Due {
        menu,
        events,
        interval,
        off,
    }
}

// Writes the menu of the shown rows; how many bytes it has.
fn put_menu(buf: &mut [u8], title: [u8; Desk::TITLE], len: u8, rows: Rows, selectable: u8) -> usize
    requires { Fits rows × (len ≤ 20) × (256 ≤ length buf.old) }
    ensures { Wrote buf.old 0 (menu_bytes (menu_of (take len title) (shown_of selectable rows))) buf.new result × (result < 256) }
{
    let n = len as usize;
    commands::write_menu(buf, &title[..n], &rows, selectable)
}

// Writes the list of the shown events; how many bytes it has.
fn put_events(buf: &mut [u8], registered: [u8; Kind::EVENTS], selectable: u8) -> usize
    requires { 256 ≤ length buf.old }
    ensures { Wrote buf.old 0 (event_bytes (codes_from (is_listened registered selectable) first_download codes)) buf.new result × (result < 256) }
{
    let Codes { at, count } = events_shown::shown_codes(registered, selectable);
    commands::write_events(buf, &at[..usize::from(count)])
}

// Writes POLL INTERVAL with the system interval; how many bytes it has.
fn put_interval(buf: &mut [u8], polls: [u16; Roll::APPLETS], selectable: u8) -> usize
    requires { (interval_of polls selectable ≤ longest_poll) × (256 ≤ length buf.old) }
    ensures { Wrote buf.old 0 (interval_bytes (interval_of polls selectable)) buf.new result × (result < 256) }
{
    let requests = Requests {
        polls,
        set: selectable,
    };
    let seconds = requests.interval();
    commands::write_interval(buf, seconds)
}

impl Card {
    // Hands out the command that is due; its length, or 0 where nothing is due.
    pub fn system_command(self, buf: &mut [u8]) -> Reply
        requires { Left self }
        ensures { Replies self (system_command buf.old) result × Fills self (system_command buf.old) buf.new }
    {
        let mut left = self;
        let was = left.desk.outstanding;
        let due = left.desk.due;
        let refusal = refusals::hand_refusal(was, buf.len());
        let first = first_due(refusal, due);
        let rest = rest_due(due, first);
        let outstanding = was | first.menu | first.events | first.interval | first.off;
        left.desk.due = rest;
        left.desk.outstanding = outstanding;
        let n = if first.menu {
            put_menu(
                buf,
                left.desk.title,
                left.desk.title_len,
                left.rows,
                left.selectable,
            )
        } else if first.events {
            put_events(buf, left.registered, left.selectable)
        } else if first.interval {
            put_interval(buf, left.polls, left.selectable)
        } else if first.off {
            commands::write_off(buf)
        } else {
            0
        };
        let answer = answers::number(refusal.and(Ok(n as u8)));
        Reply { card: left, answer }
    }
}
