// The calls that lock and unlock an applet. They have one way out: a call that switches nothing stores nothing.
ghost use Rattle.std.specs.Prelude.{◌≡◌, not, ◌&&◌, ◌||◌};
ghost use Rattle.std.specs.Bool.{beq};
ghost use Rattle.std.specs.Prelude.{if◌then◌else◌};
ghost use Rattle.rules.specs.Numbers.{refusal_number};
ghost use Rattle.rules.specs.Held.{view_rows, TidyRows};
ghost use Rattle.rules.specs.Calls.{admin, lock, unlock};
ghost use Rattle.sets.specs.Sets.{has?, switched_set};
ghost use Rattle.menu_shown.specs.Chosen.{has_enabled_row};
ghost use Rattle.events_shown.specs.Turns.{any_code, code_turns};
ghost use Rattle.polling.specs.Polls.{interval_of, polling_after};
ghost use Rattle.card.specs.View.{Left};
ghost use Rattle.card.specs.Replies.{Replies};
ghost use Rattle.card.specs.Switches.{locking};
ghost use Rattle.card.specs.Turns.{polling_of};

use crate::{Card, Reply, due_after};
use polling::{Polling, Requests};
use rules::{Due, Refused, Rows};

// The refusal where there is no such applet.
#[tactic(auto, unfolding(rules::specs::Refusals::first_holding, rules::specs::Numbers::number_of))]
pub fn absent_refusal(there: bool) -> Result<(), Refused>
    ensures { refusal_number result ≡ (if not there then 2 else 0) }
{
    Refused::NoApplet.when(!there)
}

// Whether the lock turns: the applet is there, and not so already.
fn lock_switches(there: bool, set: u8, applet: u8, on: bool) -> bool
    ensures { result ≡ (there && not (beq (has? set applet) on)) }
{
    if there {
        let was = sets::has(set, applet);
        return was != on;
    }
    false
}

// Whether the shown menu changes: the applet's lock turns, and it has an enabled row.
fn menu_turns(set: u8, applet: u8, on: bool, rows: Rows) -> bool
    requires { TidyRows rows }
    ensures { result ≡ (not (beq (has? set applet) on) && has_enabled_row applet (view_rows rows)) }
{
    let was = sets::has(set, applet);
    if was == on {
        return false;
    }
    menu_shown::has_enabled_row(rows, applet)
}

impl Card {
    // Locks an applet: it is not called until it is unlocked.
    pub fn lock(self, applet: u8) -> Reply
        requires { Left self }
        ensures { Replies self (admin (lock applet)) result }
    {
        self.switch_lock::<false>(applet)
    }

    // Makes an applet selectable again.
    pub fn unlock(self, applet: u8) -> Reply
        requires { Left self }
        ensures { Replies self (admin (unlock applet)) result }
    {
        self.switch_lock::<true>(applet)
    }

    // Makes an applet selectable, or locks it. Each instance has one call site: with two it would be called with a copy of the card.
    fn switch_lock<const ON: bool>(self, applet: u8) -> Reply
        requires { Left self }
        ensures { Replies self (admin (locking ON applet)) result }
    {
        let mut left = self;
        let there = sets::has(left.roll.present, applet);
        let was = left.selectable;
        let turns = lock_switches(there, was, applet, ON);
        if turns {
            left.desk.due = left.due_switched(applet, ON);
            left.selectable = sets::switched(was, applet, ON);
        }
        let refusal = absent_refusal(there);
        let answer = answers::refusal(refusal);
        Reply { card: left, answer }
    }

    // What is due after an applet becomes selectable, or is so no longer; always in place, for its callers work on the card where it stands.
    #[inline(always)]
    pub(crate) fn due_switched(self, applet: u8, on: bool) -> Due
        requires { TidyRows self.rows }
        ensures menu { result.menu ≡ (self.desk.session && (not (beq (has? self.selectable applet) on) && has_enabled_row applet (view_rows self.rows)) || self.desk.due.menu) }
        ensures events { result.events ≡ (self.desk.session && any_code (code_turns self.registered self.selectable (switched_set self.selectable applet on)) || self.desk.due.events) }
        ensures polling { polling_of result ≡ polling_after self.desk.session self.desk.due.interval self.desk.due.off (interval_of self.polls self.selectable) (interval_of self.polls (switched_set self.selectable applet on)) }
    {
        let session = self.desk.session;
        let was = self.selectable;
        let is = sets::switched(was, applet, on);
        let menu = menu_turns(was, applet, on, self.rows);
        let events = events_shown::codes_turn(self.registered, was, is);
        let marked = Polling {
            interval: self.desk.due.interval,
            off: self.desk.due.off,
        };
        let polls = self.polls;
        let requests = Requests { polls, set: was };
        let polling = marked.after_switch(session, requests, applet, on);
        Due {
            menu: due_after(session, self.desk.due.menu, menu),
            events: due_after(session, self.desk.due.events, events),
            interval: polling.interval,
            off: polling.off,
        }
    }
}
