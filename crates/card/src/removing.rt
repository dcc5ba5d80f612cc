// The call that deletes an applet. It has one way out: a refused call stores nothing.
ghost use Rattle.std.specs.Prelude.{◌≡◌};
ghost use Rattle.rules.specs.Calls.{admin, delete};
ghost use Rattle.card.specs.View.{Left};
ghost use Rattle.card.specs.Replies.{Replies};

use crate::locking::absent_refusal;
use crate::{Card, Reply};

impl Card {
    // Deletes an applet, with its rows, its timers, its registrations and its request for polling; its number leaves the round.
    pub fn delete(self, applet: u8) -> Reply
        requires { Left self }
        ensures { Replies self (admin (delete applet)) result }
    {
        let mut left = self;
        let there = sets::has(left.roll.present, applet);
        if there {
            let due = left.due_switched(applet, false);
            let selectable = sets::switched(left.selectable, applet, false);
            let next_roll = applets::roll_without(left.roll, applet);
            let next_registered = applets::unregistered(left.registered, applet);
            let next_made = applets::table_with(left.made, applet, 0);
            let next_polls = applets::table_with(left.polls, applet, 0);
            let next_rows = menu::without(left.rows, applet);
            let waiting = sets::switched(left.round.waiting, applet, false);
            left.control = applets::owner_without(left.control, applet);
            left.bank = timers::freed(left.bank, applet);
            left.roll = next_roll;
            left.selectable = selectable;
            left.registered = next_registered;
            left.made = next_made;
            left.polls = next_polls;
            left.desk.due = due;
            left.rows = next_rows;
            left.round.waiting = waiting;
        }
        let answer = answers::refusal(absent_refusal(there));
        Reply { card: left, answer }
    }
}
