// The calls about registrations for events. They have one way through: a refused call stores what was there.
ghost use Rattle.std.specs.Prelude.{◌≡◌};
ghost use Rattle.std.specs.Prelude.{if◌then◌else◌, ◌==◌};
ghost use Rattle.rules.specs.Numbers.{refusal_number};
ghost use Rattle.rules.specs.Calls.{event, set_event, clear_event, ask_event};
ghost use Rattle.card.specs.View.{Left};
ghost use Rattle.card.specs.Replies.{Replies};
ghost use Rattle.card.specs.Switches.{registering};
ghost use Rattle.card.specs.Turns.{turn_refusal, set_after, owner_after, is_listed};

use crate::{Card, Reply, due_after};
use rules::{Kind, Refused};

// The refusal: set event is refused too where call control is owned by another applet.
fn turn_refusal(there: bool, kind: Kind, control: u8, applet: u8, on: bool) -> Result<(), Refused>
    ensures { refusal_number result ≡ turn_refusal there kind control applet on }
{
    if on {
        return refusals::refusal_to_set(there, kind, control, applet);
    }
    refusals::refusal_for(there, kind)
}

// The set of the event's place after the call.
fn set_after(refusal: Result<(), Refused>, place: u8, set: u8, applet: u8, on: bool) -> u8
    ensures { result ≡ set_after (refusal_number refusal) place set applet on }
{
    if refusal.is_ok() {
        if place == Kind::CALL_CONTROL {
            return set;
        }
        return sets::switched(set, applet, on);
    }
    set
}

// The owner of call control after the call.
fn owner_after(refusal: Result<(), Refused>, place: u8, owner: u8, applet: u8, on: bool) -> u8
    ensures { result ≡ owner_after (refusal_number refusal) place owner applet on }
{
    if refusal.is_ok() {
        if place == Kind::CALL_CONTROL {
            if on {
                return applet;
            }
            return applets::owner_without(owner, applet);
        }
        return owner;
    }
    owner
}

// Whether an applet is registered, by the set of the event's place and the owner of call control.
fn is_listed(place: u8, set: u8, control: u8, applet: u8) -> bool
    ensures { result ≡ is_listed place set control applet }
{
    if place == Kind::CALL_CONTROL {
        return control == applet;
    }
    sets::has(set, applet)
}

impl Card {
    // Registers an applet for an event.
    pub fn set_event(self, applet: u8, value: i16) -> Reply
        requires { Left self }
        ensures { Replies self (event (set_event applet value)) result }
    {
        self.switch_event::<true>(applet, value)
    }

    // Ends an applet's registration for an event.
    pub fn clear_event(self, applet: u8, value: i16) -> Reply
        requires { Left self }
        ensures { Replies self (event (clear_event applet value)) result }
    {
        self.switch_event::<false>(applet, value)
    }

    // Registers an applet for an event, or ends its registration; an instance has one call site, as that of the lock.
    fn switch_event<const ON: bool>(self, applet: u8, value: i16) -> Reply
        requires { Left self }
        ensures { Replies self (event (registering ON applet value)) result }
    {
        let mut left = self;
        let kind = events::kind_of(value);
        let there = sets::has(left.roll.present, applet);
        let refusal = turn_refusal(there, kind, left.control, applet, ON);
        let place = events::place_of(kind);
        let p = place as usize;
        let mut registered = left.registered;
        let was = registered[p];
        let is = set_after(refusal, place, was, applet, ON);
        let turns = events_shown::events_turn(place, was, is, left.selectable);
        let control = owner_after(refusal, place, left.control, applet, ON);
        let events_due = due_after(left.desk.session, left.desk.due.events, turns);
        registered[p] = is;
        left.registered = registered;
        left.control = control;
        left.desk.due.events = events_due;
        let answer = answers::refusal(refusal);
        Reply { card: left, answer }
    }

    // Whether an applet is registered for an event.
    pub fn ask_event(self, applet: u8, value: i16) -> Reply
        requires { Left self }
        ensures { Replies self (event (ask_event applet value)) result }
    {
        let kind = events::kind_of(value);
        let there = sets::has(self.roll.present, applet);
        let refusal = refusals::refusal_for(there, kind);
        let place = events::place_of(kind);
        let p = place as usize;
        let registered = self.registered;
        let set = registered[p];
        let says = is_listed(place, set, self.control, applet);
        let answer = answers::yes_or_no(refusal.and(Ok(says)));
        Reply { card: self, answer }
    }
}
