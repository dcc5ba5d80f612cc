// A door for each call of a card, which is lent by its owner and changed where it stands.
// Each takes a card that a fresh card and calls have left, and leaves such a card; the answer is one struct.
#![tactic(auto, using(crate::proofs::Doors::done))]

ghost use Rattle.std.specs.Prelude.{[]};
ghost use Rattle.rules.specs.Calls.{admin, event, entry, timer as timer-call, arrival, next, proactive, system_command};
ghost use Rattle.rules.specs.Calls.{install, delete, lock, unlock, set_event, clear_event, ask_event, request_poll, new_entry, change_entry, enable_entry, disable_entry};
ghost use Rattle.rules.specs.Calls.{allocate, release, profile, envelope, status, settled, send, response};
ghost use Rattle.card.specs.View.{Left};
ghost use Rattle.toolkit.specs.Does.{Does};

use card::Card;
use rules::{Answer, Request};

// Installs an applet with what it asks for.
pub fn toolkit_install(card: &mut Card, applet: u8, request: Request) -> Answer
    requires { Left card.old }
    ensures { Does card.old (admin (install applet request)) card.new result [] }
{
    card.install(applet, request).leave_in(card)
}

// Deletes an applet, with its rows, timers and registrations.
pub fn toolkit_delete(card: &mut Card, applet: u8) -> Answer
    requires { Left card.old }
    ensures { Does card.old (admin (delete applet)) card.new result [] }
{
    card.delete(applet).leave_in(card)
}

// Locks an applet: it is not called and its rows are not shown.
pub fn toolkit_lock(card: &mut Card, applet: u8) -> Answer
    requires { Left card.old }
    ensures { Does card.old (admin (lock applet)) card.new result [] }
{
    card.lock(applet).leave_in(card)
}

// Makes an applet selectable again.
pub fn toolkit_unlock(card: &mut Card, applet: u8) -> Answer
    requires { Left card.old }
    ensures { Does card.old (admin (unlock applet)) card.new result [] }
{
    card.unlock(applet).leave_in(card)
}

// Registers an applet for an event.
pub fn toolkit_set_event(card: &mut Card, applet: u8, value: i16) -> Answer
    requires { Left card.old }
    ensures { Does card.old (event (set_event applet value)) card.new result [] }
{
    card.set_event(applet, value).leave_in(card)
}

// Ends an applet's registration for an event.
pub fn toolkit_clear_event(card: &mut Card, applet: u8, value: i16) -> Answer
    requires { Left card.old }
    ensures { Does card.old (event (clear_event applet value)) card.new result [] }
{
    card.clear_event(applet, value).leave_in(card)
}

// Tells whether an applet is registered for an event.
#[tactic(auto, using(crate::proofs::Doors::asked))]
pub fn toolkit_ask_event(card: &mut Card, applet: u8, value: i16) -> Answer
    requires { Left card.old }
    ensures { Does card.old (event (ask_event applet value)) card.new result [] }
{
    card.ask_event(applet, value).answer
}

// Takes an applet's request for a poll interval.
pub fn toolkit_request_poll(card: &mut Card, applet: u8, duration: i16) -> Answer
    requires { Left card.old }
    ensures { Does card.old (event (request_poll applet duration)) card.new result [] }
{
    card.request_poll(applet, duration).leave_in(card)
}

// Makes the applet's next entry a row, and gives its identifier.
pub fn toolkit_new_entry(card: &mut Card, applet: u8, help: bool, text: &[u8]) -> Answer
    requires { Left card.old }
    ensures { Does card.old (entry (new_entry applet help text.now)) card.new result [] }
{
    card.new_entry(applet, help, text).leave_in(card)
}

// Gives a row of the applet a new text and help mark.
pub fn toolkit_change_entry(
    card: &mut Card,
    applet: u8,
    identifier: u8,
    help: bool,
    text: &[u8],
) -> Answer
    requires { Left card.old }
    ensures { Does card.old (entry (change_entry applet identifier help text.now)) card.new result [] }
{
    card.change_entry(applet, identifier, help, text)
        .leave_in(card)
}

// Enables a row of the applet.
pub fn toolkit_enable_entry(card: &mut Card, applet: u8, identifier: u8) -> Answer
    requires { Left card.old }
    ensures { Does card.old (entry (enable_entry applet identifier)) card.new result [] }
{
    card.enable_entry(applet, identifier).leave_in(card)
}

// Disables a row of the applet, which keeps its place.
pub fn toolkit_disable_entry(card: &mut Card, applet: u8, identifier: u8) -> Answer
    requires { Left card.old }
    ensures { Does card.old (entry (disable_entry applet identifier)) card.new result [] }
{
    card.disable_entry(applet, identifier).leave_in(card)
}

// Gives the applet the lowest free timer.
pub fn toolkit_allocate_timer(card: &mut Card, applet: u8) -> Answer
    requires { Left card.old }
    ensures { Does card.old (timer-call (allocate applet)) card.new result [] }
{
    card.allocate(applet).leave_in(card)
}

// Frees a timer of the applet.
pub fn toolkit_release_timer(card: &mut Card, applet: u8, timer: u8) -> Answer
    requires { Left card.old }
    ensures { Does card.old (timer-call (release applet timer)) card.new result [] }
{
    card.release(applet, timer).leave_in(card)
}

// Begins a session with the terminal's profile, and opens a round for those who take it.
pub fn toolkit_profile(card: &mut Card, bytes: &[u8]) -> Answer
    requires { Left card.old }
    ensures { Does card.old (arrival (profile bytes.now)) card.new result [] }
{
    card.profile(bytes).leave_in(card)
}

// Opens a round for those whom an envelope is for.
pub fn toolkit_envelope(card: &mut Card, bytes: &[u8]) -> Answer
    requires { Left card.old }
    ensures { Does card.old (arrival (envelope bytes.now)) card.new result [] }
{
    // By `leave_in` an envelope would take 792 bytes of stack, not 344.
    let before = *card;
    let after = before.envelope(bytes);
    *card = after.card;
    after.answer
}

// Opens a round for those who request a poll interval.
pub fn toolkit_status(card: &mut Card) -> Answer
    requires { Left card.old }
    ensures { Does card.old (arrival status) card.new result [] }
{
    card.status().leave_in(card)
}

// Opens a round for those who wait for the proactive handler.
pub fn toolkit_settled(card: &mut Card) -> Answer
    requires { Left card.old }
    ensures { Does card.old (arrival settled) card.new result [] }
{
    card.settled().leave_in(card)
}

// Names the applet whose turn it is in the round; where there is none, the round ends.
pub fn toolkit_next(card: &mut Card) -> Answer
    requires { Left card.old }
    ensures { Does card.old next card.new result [] }
{
    card.next().leave_in(card)
}

// Sends a command of an applet, which is outstanding from then on.
pub fn toolkit_send(card: &mut Card, applet: u8, bytes: &[u8]) -> Answer
    requires { Left card.old }
    ensures { Does card.old (proactive (send applet bytes.now)) card.new result [] }
{
    card.send(applet, bytes).leave_in(card)
}

// Hands out the command that is due, at the front of a lent buffer.
#[tactic(auto, using(crate::proofs::Doors::handed))]
pub fn toolkit_system_command(card: &mut Card, buf: &mut [u8]) -> Answer
    requires { Left card.old }
    ensures { Does card.old (system_command buf.old) card.new result buf.new }
{
    card.system_command(buf).leave_in(card)
}

// Ends the outstanding command.
pub fn toolkit_response(card: &mut Card) -> Answer
    requires { Left card.old }
    ensures { Does card.old (proactive response) card.new result [] }
{
    card.response().leave_in(card)
}
