// The call that installs an applet. It has one way through: a refused call stores nothing.
ghost use Rattle.std.specs.Prelude.{◌≡◌};
ghost use Rattle.rules.specs.Calls.{admin, install};
ghost use Rattle.card.specs.View.{Left};
ghost use Rattle.card.specs.Replies.{Replies};

use crate::{Card, Reply};
use rules::Request;

impl Card {
    // Installs an applet with what it asks for: selectable, with no entry made and registered for nothing.
    pub fn install(self, applet: u8, request: Request) -> Reply
        requires { Left self }
        ensures { Replies self (admin (install applet request)) result }
    {
        let mut left = self;
        let roll = left.roll;
        let refusal = admission::install_refusal(roll, applet, request);
        if refusal.is_ok() {
            let grant = admission::granted(request);
            let next = applets::roll_with(roll, applet, grant);
            let selectable = sets::switched(left.selectable, applet, true);
            left.roll = next;
            left.selectable = selectable;
        }
        let answer = answers::refusal(refusal);
        Reply { card: left, answer }
    }
}
