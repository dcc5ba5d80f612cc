// A door for each call of a card, by the function of `toolkit` of that name: C links a symbol for each, with clauses of its own.
ghost use Rattle.std.specs.Prelude.{[]};
ghost use Rattle.rules.specs.Calls.{admin, event, entry, timer as timer-call, arrival, next, proactive, system_command};
ghost use Rattle.rules.specs.Calls.{install, delete, lock, unlock, set_event, clear_event, ask_event, request_poll, new_entry, change_entry, enable_entry, disable_entry};
ghost use Rattle.rules.specs.Calls.{allocate, release, profile, envelope, status, settled, send, response};
ghost use Rattle.card.specs.View.{Left};
ghost use Rattle.toolkit.specs.Does.{Does};

use card::Card;
use rules::{Answer, Request};
use toolkit::calls;

// Installs an applet with what it asks for.
#[unsafe(no_mangle)]
pub extern "C" fn toolkit_install(card: &mut Card, applet: u8, request: Request) -> Answer
    requires { Left card.old }
    ensures { Does card.old (admin (install applet request)) card.new result [] }
{
    calls::toolkit_install(card, applet, request)
}

// Deletes an applet, with its rows, timers and registrations.
#[unsafe(no_mangle)]
pub extern "C" fn toolkit_delete(card: &mut Card, applet: u8) -> Answer
    requires { Left card.old }
    ensures { Does card.old (admin (delete applet)) card.new result [] }
{
    calls::toolkit_delete(card, applet)
}

// Locks an applet: it is not called and its rows are not shown.
#[unsafe(no_mangle)]
pub extern "C" fn toolkit_lock(card: &mut Card, applet: u8) -> Answer
    requires { Left card.old }
    ensures { Does card.old (admin (lock applet)) card.new result [] }
{
    calls::toolkit_lock(card, applet)
}

// Makes an applet selectable again.
#[unsafe(no_mangle)]
pub extern "C" fn toolkit_unlock(card: &mut Card, applet: u8) -> Answer
    requires { Left card.old }
    ensures { Does card.old (admin (unlock applet)) card.new result [] }
{
    calls::toolkit_unlock(card, applet)
}

// Registers an applet for an event.
#[unsafe(no_mangle)]
pub extern "C" fn toolkit_set_event(card: &mut Card, applet: u8, value: i16) -> Answer
    requires { Left card.old }
    ensures { Does card.old (event (set_event applet value)) card.new result [] }
{
    calls::toolkit_set_event(card, applet, value)
}

// Ends an applet's registration for an event.
#[unsafe(no_mangle)]
pub extern "C" fn toolkit_clear_event(card: &mut Card, applet: u8, value: i16) -> Answer
    requires { Left card.old }
    ensures { Does card.old (event (clear_event applet value)) card.new result [] }
{
    calls::toolkit_clear_event(card, applet, value)
}

// Tells whether an applet is registered for an event.
#[unsafe(no_mangle)]
pub extern "C" fn toolkit_ask_event(card: &mut Card, applet: u8, value: i16) -> Answer
    requires { Left card.old }
    ensures { Does card.old (event (ask_event applet value)) card.new result [] }
{
    calls::toolkit_ask_event(card, applet, value)
}

// Takes an applet's request for a poll interval.
#[unsafe(no_mangle)]
pub extern "C" fn toolkit_request_poll(card: &mut Card, applet: u8, duration: i16) -> Answer
    requires { Left card.old }
    ensures { Does card.old (event (request_poll applet duration)) card.new result [] }
{
    calls::toolkit_request_poll(card, applet, duration)
}

// Makes the applet's next entry a row, and gives its identifier.
#[unsafe(no_mangle)]
pub extern "C" fn toolkit_new_entry(card: &mut Card, applet: u8, help: bool, text: &[u8]) -> Answer
    requires { Left card.old }
    ensures { Does card.old (entry (new_entry applet help text.now)) card.new result [] }
{
    calls::toolkit_new_entry(card, applet, help, text)
}

// Gives a row of the applet a new text and help mark.
#[unsafe(no_mangle)]
pub extern "C" fn toolkit_change_entry(
    card: &mut Card,
    applet: u8,
    identifier: u8,
    help: bool,
    text: &[u8],
) -> Answer
    requires { Left card.old }
    ensures { Does card.old (entry (change_entry applet identifier help text.now)) card.new result [] }
{
    calls::toolkit_change_entry(card, applet, identifier, help, text)
}

// Enables a row of the applet.
#[unsafe(no_mangle)]
pub extern "C" fn toolkit_enable_entry(card: &mut Card, applet: u8, identifier: u8) -> Answer
    requires { Left card.old }
    ensures { Does card.old (entry (enable_entry applet identifier)) card.new result [] }
{
    calls::toolkit_enable_entry(card, applet, identifier)
}

// Disables a row of the applet, which keeps its place.
#[unsafe(no_mangle)]
pub extern "C" fn toolkit_disable_entry(card: &mut Card, applet: u8, identifier: u8) -> Answer
    requires { Left card.old }
    ensures { Does card.old (entry (disable_entry applet identifier)) card.new result [] }
{
    calls::toolkit_disable_entry(card, applet, identifier)
}

// Gives the applet the lowest free timer.
#[unsafe(no_mangle)]
pub extern "C" fn toolkit_allocate_timer(card: &mut Card, applet: u8) -> Answer
    requires { Left card.old }
    ensures { Does card.old (timer-call (allocate applet)) card.new result [] }
{
    calls::toolkit_allocate_timer(card, applet)
}

// Frees a timer of the applet.
#[unsafe(no_mangle)]
pub extern "C" fn toolkit_release_timer(card: &mut Card, applet: u8, timer: u8) -> Answer
    requires { Left card.old }
    ensures { Does card.old (timer-call (release applet timer)) card.new result [] }
{
    calls::toolkit_release_timer(card, applet, timer)
}

// Begins a session with the terminal's profile, and opens a round for those who take it.
#[unsafe(no_mangle)]
pub extern "C" fn toolkit_profile(card: &mut Card, bytes: &[u8]) -> Answer
    requires { Left card.old }
    ensures { Does card.old (arrival (profile bytes.now)) card.new result [] }
{
    calls::toolkit_profile(card, bytes)
}

// Opens a round for those whom an envelope is for.
#[unsafe(no_mangle)]
pub extern "C" fn toolkit_envelope(card: &mut Card, bytes: &[u8]) -> Answer
    requires { Left card.old }
    ensures { Does card.old (arrival (envelope bytes.now)) card.new result [] }
{
    calls::toolkit_envelope(card, bytes)
}

// Opens a round for those who request a poll interval.
#[unsafe(no_mangle)]
pub extern "C" fn toolkit_status(card: &mut Card) -> Answer
    requires { Left card.old }
    ensures { Does card.old (arrival status) card.new result [] }
{
    calls::toolkit_status(card)
}

// Opens a round for those who wait for the proactive handler.
#[unsafe(no_mangle)]
pub extern "C" fn toolkit_settled(card: &mut Card) -> Answer
    requires { Left card.old }
    ensures { Does card.old (arrival settled) card.new result [] }
{
    calls::toolkit_settled(card)
}

// Names the applet whose turn it is in the round; where there is none, the round ends.
#[unsafe(no_mangle)]
pub extern "C" fn toolkit_next(card: &mut Card) -> Answer
    requires { Left card.old }
    ensures { Does card.old next card.new result [] }
{
    calls::toolkit_next(card)
}

// Sends a command of an applet, which is outstanding from then on.
#[unsafe(no_mangle)]
pub extern "C" fn toolkit_send(card: &mut Card, applet: u8, bytes: &[u8]) -> Answer
    requires { Left card.old }
    ensures { Does card.old (proactive (send applet bytes.now)) card.new result [] }
{
    calls::toolkit_send(card, applet, bytes)
}

// Hands out the command that is due, at the front of a lent buffer.
#[unsafe(no_mangle)]
pub extern "C" fn toolkit_system_command(card: &mut Card, buf: &mut [u8]) -> Answer
    requires { Left card.old }
    ensures { Does card.old (system_command buf.old) card.new result buf.new }
{
    calls::toolkit_system_command(card, buf)
}

// Ends the outstanding command.
#[unsafe(no_mangle)]
pub extern "C" fn toolkit_response(card: &mut Card) -> Answer
    requires { Left card.old }
    ensures { Does card.old (proactive response) card.new result [] }
{
    calls::toolkit_response(card)
}
