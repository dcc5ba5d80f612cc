// The arrivals: settled moments, profiles, envelopes and STATUS. Each answers with the handlers available and opens a round, in which
// next names those called one by one. Each has one way through: a refused one leaves the card.
ghost use Rattle.std.specs.Prelude.{◌≡◌};
ghost use Rattle.rules.specs.Calls.{arrival, envelope, profile, status, settled, next};
ghost use Rattle.card.specs.View.{Left};
ghost use Rattle.card.specs.Replies.{Replies};

use crate::{Card, Reply};
use polling::Requests;
use rules::{Arrived, Due, Kind, Refused};

// The places of those who wait for the proactive handler, and of those who take profiles.
const WAITING: usize = Kind::HANDLER_AVAILABLE as usize;

const PROFILED: usize = Kind::PROFILE_DOWNLOAD as usize;

impl Card {
    // Opens a round for those registered to proactive handler available.
    pub fn settled(self) -> Reply
        requires { Left self }
        ensures { Replies self (arrival settled) result }
    {
        let mut left = self;
        let refusal = refusals::settled_refusal(left.desk.outstanding, left.round.open);
        let registered = left.registered;
        let whom = registered[WAITING];
        let arrived = arrivals::event_at(Kind::HANDLER_AVAILABLE);
        let round = left.round;
        let opened = arrivals::round_after(refusal, round, arrived, whom, left.roll.present);
        left.round = opened;
        let marks = arrivals::other_marks(left.desk.outstanding);
        let answer = arrivals::marked(refusal.and(Ok(marks)));
        Reply { card: left, answer }
    }

    // Begins a session with the terminal's profile, and opens a round for those registered to profile download.
    pub fn profile(self, bytes: &[u8]) -> Reply
        requires { Left self }
        ensures { Replies self (arrival (profile bytes.now)) result }
    {
        let mut left = self;
        let none = bytes.len() == 0;
        let refusal = Refused::Malformed.when(none);
        let registered = left.registered;
        let whom = registered[PROFILED];
        let arrived = arrivals::event_at(Kind::PROFILE_DOWNLOAD);
        let round = left.round;
        let opened = arrivals::round_after(refusal, round, arrived, whom, left.roll.present);
        left.round = opened;
        let marks = arrivals::other_marks(false);
        let answer = arrivals::marked(refusal.and(Ok(marks)));
        let rows = left.rows;
        let menu = menu_shown::has_shown_row(rows, left.selectable);
        let events = events_shown::any_listened(registered, left.selectable);
        let polls = left.polls;
        let requests = Requests {
            polls,
            set: left.selectable,
        };
        let interval = requests.any();
        let due = Due {
            menu,
            events,
            interval,
            off: false,
        };
        let desk = left.desk;
        let begun = arrivals::begun(desk, due, bytes);
        if refusal.is_ok() {
            left.desk = begun;
        }
        Reply { card: left, answer }
    }

    // Opens a round for those whom an envelope is for.
    pub fn envelope(self, bytes: &[u8]) -> Reply
        requires { Left self }
        ensures { Replies self (arrival (envelope bytes.now)) result }
    {
        let mut left = self;
        let e = envelopes::read_envelope(bytes);
        let bad = e.is_err();
        let refusal = Refused::Malformed.when(bad);
        let arrived = arrivals::arrival_of(e);
        let rows = left.rows;
        let registered = left.registered;
        let bank = left.bank;
        let polls = left.polls;
        let whom = arrivals::whom(arrived, rows, registered, bank, left.control, polls);
        let round = left.round;
        let opened = arrivals::round_after(refusal, round, arrived, whom, left.roll.present);
        left.round = opened;
        let marks = arrivals::envelope_marks(left.desk.outstanding, e);
        let answer = arrivals::marked(refusal.and(Ok(marks)));
        Reply { card: left, answer }
    }

    // Opens a round for those who request a poll interval.
    pub fn status(self) -> Reply
        requires { Left self }
        ensures { Replies self (arrival status) result }
    {
        let mut left = self;
        let polls = left.polls;
        let whom = polling::polling_set(polls);
        let arrived = Arrived {
            kind: Arrived::STATUS,
            number: 0,
        };
        let round = left.round;
        let opened = arrivals::round_after(Ok(()), round, arrived, whom, left.roll.present);
        left.round = opened;
        let marks = arrivals::other_marks(left.desk.outstanding);
        let answer = arrivals::marked(Ok(marks));
        Reply { card: left, answer }
    }

    // Names the first in order of those who wait, are registered still and are selectable; where there is none, the round ends.
    pub fn next(self) -> Reply
        requires { Left self }
        ensures { Replies self next result }
    {
        let mut left = self;
        let refusal = refusals::next_refusal(left.round.open);
        let round = left.round;
        let arrived = round.arrived;
        let rows = left.rows;
        let mut registered = left.registered;
        let bank = left.bank;
        let polls = left.polls;
        let still = arrivals::whom(arrived, rows, registered, bank, left.control, polls);
        let who = arrivals::ready(still, left.selectable, round.waiting);
        let order = left.roll.order;
        let named = applets::first_of(&order[..usize::from(left.roll.count)], who);
        let turned = arrivals::turned(round, named);
        let used = arrivals::used_up(arrived, named);
        let rest = sets::without(registered[WAITING], used);
        registered[WAITING] = rest;
        left.registered = registered;
        left.round = turned;
        let answer = answers::called(refusal.and(Ok(named)));
        Reply { card: left, answer }
    }
}
