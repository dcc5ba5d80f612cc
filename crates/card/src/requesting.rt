// The call that requests a poll interval. It has one way out: a refused call stores nothing.
ghost use Rattle.std.specs.Prelude.{◌≡◌};
ghost use Rattle.rules.specs.Calls.{event, request_poll};
ghost use Rattle.card.specs.View.{Left};
ghost use Rattle.card.specs.Replies.{Replies};

use crate::{Card, Reply};
use polling::{Polling, Requests};

impl Card {
    // Takes an applet's request for a poll interval.
    pub fn request_poll(self, applet: u8, duration: i16) -> Reply
        requires { Left self }
        ensures { Replies self (event (request_poll applet duration)) result }
    {
        let mut left = self;
        let there = sets::has(left.roll.present, applet);
        let refusal = refusals::poll_refusal(there, duration);
        if refusal.is_ok() {
            let polls = left.polls;
            let seconds = polling::seconds_of(duration);
            let next = applets::table_with(polls, applet, seconds);
            let requests = Requests {
                polls,
                set: left.selectable,
            };
            let marked = Polling {
                interval: left.desk.due.interval,
                off: left.desk.due.off,
            };
            let polling = marked.after_request(left.desk.session, requests, applet, seconds);
            left.polls = next;
            left.desk.due.interval = polling.interval;
            left.desk.due.off = polling.off;
        }
        let answer = answers::refusal(refusal);
        Reply { card: left, answer }
    }
}
