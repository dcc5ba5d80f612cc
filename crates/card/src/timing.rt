// The calls about timers. An applet that is not there is to the bank an owner of nothing, and so refused.
ghost use Rattle.std.specs.Prelude.{◌≡◌};
ghost use Rattle.std.specs.Prelude.{if◌then◌else◌};
ghost use Rattle.rules.specs.Calls.{timer as timer-call, allocate, release};
ghost use Rattle.card.specs.View.{Left};
ghost use Rattle.card.specs.Replies.{Replies};

use crate::{Card, Reply};

// The applet as an owner of timers: its number, or 0, nobody in C's bank, where there is no such applet.
fn owner_for(there: bool, applet: u8) -> u8
    ensures { result ≡ (if there then applet else 0) }
{
    if there {
        return applet;
    }
    0
}

impl Card {
    // Gives the applet the lowest free timer.
    pub fn allocate(self, applet: u8) -> Reply
        requires { Left self }
        ensures { Replies self (timer-call (allocate applet)) result }
    {
        let mut left = self;
        let there = sets::has(left.roll.present, applet);
        let owner = owner_for(there, applet);
        let grants = left.roll.grants;
        let grant = applets::grant_at(&grants, applet);
        let bank = left.bank;
        let allocated = timers::allocate(bank, owner, grant.timers);
        let next = allocated.bank;
        let answer = allocated.answer;
        left.bank = next;
        Reply { card: left, answer }
    }

    // Frees a timer of the applet.
    pub fn release(self, applet: u8, timer: u8) -> Reply
        requires { Left self }
        ensures { Replies self (timer-call (release applet timer)) result }
    {
        let mut left = self;
        let there = sets::has(left.roll.present, applet);
        let owner = owner_for(there, applet);
        let bank = left.bank;
        let released = timers::release(bank, owner, timer);
        let next = released.bank;
        let answer = released.answer;
        left.bank = next;
        Reply { card: left, answer }
    }
}
