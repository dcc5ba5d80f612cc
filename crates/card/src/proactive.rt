// The calls about proactive commands. Each has one way through: a refused call stores what was there.
ghost use Rattle.std.specs.Prelude.{◌≡◌};
ghost use Rattle.std.specs.Prelude.{if◌then◌else◌, ◌==◌};
ghost use Rattle.rules.specs.Numbers.{refusal_number};
ghost use Rattle.rules.specs.Calls.{proactive, send, response};
ghost use Rattle.card.specs.View.{Left};
ghost use Rattle.card.specs.Replies.{Replies};

use crate::{Card, Reply};
use rules::Refused;

// Whether a command is outstanding after a call that makes it so, or not so, where it is accepted.
fn outstanding_after(refusal: Result<(), Refused>, was: bool, is: bool) -> bool
    ensures { result ≡ (if refusal_number refusal == 0 then is else was) }
{
    if refusal.is_ok() {
        return is;
    }
    was
}

impl Card {
    // Sends a command of an applet, which is then outstanding.
    pub fn send(self, applet: u8, bytes: &[u8]) -> Reply
        requires { Left self }
        ensures { Replies self (proactive (send applet bytes.now)) result }
    {
        let command = envelopes::read_command(bytes);
        let there = sets::has(self.roll.present, applet);
        let bank = self.bank;
        let was = self.desk.outstanding;
        let refusal = refusals::send_refusal(command, applet, there, bank, was);
        let is = outstanding_after(refusal, was, true);
        // judged first, and copied then: the other way round the card is copied once more, 600 bytes of stack for 72
        let mut left = self;
        left.desk.outstanding = is;
        let answer = answers::refusal(refusal);
        Reply { card: left, answer }
    }

    // Ends the outstanding command.
    pub fn response(self) -> Reply
        requires { Left self }
        ensures { Replies self (proactive response) result }
    {
        let mut left = self;
        let was = left.desk.outstanding;
        let refusal = refusals::response_refusal(was);
        let is = outstanding_after(refusal, was, false);
        left.desk.outstanding = is;
        let answer = answers::refusal(refusal);
        Reply { card: left, answer }
    }
}
