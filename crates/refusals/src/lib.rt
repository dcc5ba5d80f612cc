// What a call of the card is refused for: the lowest line of document 01's table that holds.
// Each takes what was looked up and not the card; the lines of install stand in crate admission, those of the bank in timers.
#![tactic(auto, unfolding(rules::specs::Refusals::first_holding, rules::specs::Numbers::refusal_number, rules::specs::Numbers::number_of))]

ghost use Rattle.std.specs.Prelude.{◌≡◌, not, ◌&&◌, [], ◌∷◌, length, Ok};
ghost use Rattle.lists.specs.Tests.{◌≤?◌, ◌<?◌};
ghost use Rattle.std.specs.Prelude.{if◌then◌else◌, ◌==◌};
ghost use Rattle.rules.specs.declared.Command.TheVariants.{Plain};
ghost use Rattle.rules.specs.Holds.{Tables};
ghost use Rattle.rules.specs.Events.{is_control, not_supported, not_to_set};
ghost use Rattle.rules.specs.Envelopes.{system_type};
ghost use Rattle.rules.specs.Applets.{bad_duration};
ghost use Rattle.rules.specs.Numbers.{refusal_number};
ghost use Rattle.rules.specs.Refusals.{line, first_holding};
ghost use Rattle.refusals.specs.Lines.{unfit_text, send_refusal};

use rules::{Bank, Command, Desk, Kind, Malformed, Refused};

// Of a fresh card: the title is over 20 bytes.
pub fn title_refusal(title: &[u8]) -> Result<(), Refused>
    ensures { refusal_number result ≡ first_holding (line 12 (20 <? length title.now) ∷ []) }
{
    Refused::BadText.when(Desk::TITLE < title.len())
}

// Of clear and ask event: there is no such applet, or it is no event to set.
pub fn refusal_for(there: bool, kind: Kind) -> Result<(), Refused>
    ensures { refusal_number result ≡ first_holding (line 2 (not there) ∷ line 7 (not_supported kind) ∷ line 8 (not_to_set kind) ∷ []) }
{
    Refused::NoApplet.when(!there)?;
    events::refusal_of(kind)
}

// Of a request for polling: there is no such applet, or the duration is none that may be requested.
pub fn poll_refusal(there: bool, duration: i16) -> Result<(), Refused>
    ensures { refusal_number result ≡ first_holding (line 2 (not there) ∷ line 20 (bad_duration duration) ∷ []) }
{
    Refused::NoApplet.when(!there)?;
    Refused::BadDuration.when(duration < -1 || 15300 < duration)
}

// Of set event: the same as of clear, or call control is owned by another applet.
pub fn refusal_to_set(there: bool, kind: Kind, control: u8, number: u8) -> Result<(), Refused>
    ensures { refusal_number result ≡ first_holding (line 2 (not there) ∷ line 7 (not_supported kind) ∷ line 8 (not_to_set kind) ∷ line 9 (is_control kind && (not (control == 0) && not (control == number))) ∷ []) }
{
    refusal_for(there, kind)?;
    let owned = control != 0 && control != number;
    Refused::ControlOwned.when(events::is_control(kind) && owned)
}

// Of enable and disable entry: there is no such applet, or the row is not its own.
pub fn row_refusal(there: bool, its: bool) -> Result<(), Refused>
    ensures { refusal_number result ≡ first_holding (line 2 (not there) ∷ line 11 (not its) ∷ []) }
{
    Refused::NoApplet.when(!there)?;
    Refused::NotItsRow.when(!its)
}

// Whether an entry of the applet may have the text: it is not empty, and within the applet's limit.
pub fn fits(limit: u8, text: &[u8]) -> bool
    ensures { result ≡ not (unfit_text limit text.now) }
{
    !text.is_empty() && text.len() <= limit as usize
}

// Of change entry: the same as of enable, or the text does not fit.
pub fn change_refusal(there: bool, its: bool, fits: bool) -> Result<(), Refused>
    ensures { refusal_number result ≡ first_holding (line 2 (not there) ∷ line 11 (not its) ∷ line 12 (not fits) ∷ []) }
{
    row_refusal(there, its)?;
    Refused::BadText.when(!fits)
}

// Of a new entry: there is no such applet, all its entries are made, or the text does not fit.
pub fn new_refusal(there: bool, entries: u8, made: u8, fits: bool) -> Result<(), Refused>
    ensures { refusal_number result ≡ first_holding (line 2 (not there) ∷ line 10 (entries ≤? made) ∷ line 12 (not fits) ∷ []) }
{
    // Three lines with `?` here, and the call on the card copies it: 1,736 bytes of stack for 1,000, and 93 ns for 59.
    let first = if there {
        Refused::AllMade.when(entries <= made)
    } else {
        Err(Refused::NoApplet)
    };
    if fits {
        first
    } else {
        first.and(Err(Refused::BadText))
    }
}

// Whether commands of a type are the system's own.
#[tactic(auto, unfolding(rules::specs::Envelopes::system_type))]
fn is_system(kind: u8) -> bool
    ensures { result ≡ system_type (Ok (Plain kind)) }
{
    matches!(kind, 0x25 | 0x05 | 0x03 | 0x04)
}

// Of a command that is well formed, by the lines that hold.
fn lowest_line(there: bool, foreign: bool, outstanding: bool, system: bool) -> Result<(), Refused>
    ensures { refusal_number result ≡ first_holding (line 2 (not there) ∷ line 15 foreign ∷ line 16 outstanding ∷ line 17 system ∷ []) }
{
    Refused::NoApplet.when(!there)?;
    Refused::NotItsTimer.when(foreign)?;
    Refused::Outstanding.when(outstanding)?;
    Refused::SystemType.when(system)
}

// Of a command that an applet sends.
pub fn send_refusal(
    command: Result<Command, Malformed>,
    applet: u8,
    there: bool,
    bank: Bank,
    outstanding: bool,
) -> Result<(), Refused>
    ensures { (t : Tables) → t.timers ≡ bank.owner → refusal_number result ≡ send_refusal t applet there outstanding command }
{
    match command {
        Ok(Command::Plain { kind }) => lowest_line(there, false, outstanding, is_system(kind)),
        Ok(Command::Timer { timer }) => {
            let foreign = timers::owner_of(bank, timer) != applet;
            lowest_line(there, foreign, outstanding, false)
        }
        Err(Malformed) => Err(Refused::Malformed),
    }
}

// Of a response: no command is outstanding.
pub fn response_refusal(outstanding: bool) -> Result<(), Refused>
    ensures { refusal_number result ≡ first_holding (line 19 (not outstanding) ∷ []) }
{
    Refused::NoneOutstanding.when(!outstanding)
}

// Of a system command: one is outstanding, or the lent buffer has fewer than 256 bytes.
pub fn hand_refusal(outstanding: bool, room: usize) -> Result<(), Refused>
    ensures { refusal_number result ≡ first_holding (line 16 outstanding ∷ line 18 (room <? 256) ∷ []) }
{
    Refused::Outstanding.when(outstanding)?;
    Refused::ShortBuffer.when(room < 256)
}

// Of a settled moment: a command is outstanding, or a round is open.
pub fn settled_refusal(command: bool, open: bool) -> Result<(), Refused>
    ensures { refusal_number result ≡ first_holding (line 16 command ∷ line 22 «open» ∷ []) }
{
    Refused::Outstanding.when(command)?;
    Refused::RoundOpen.when(open)
}

// Of next: no round is open.
pub fn next_refusal(open: bool) -> Result<(), Refused>
    ensures { refusal_number result ≡ first_holding (line 21 (not «open») ∷ []) }
{
    Refused::NoRound.when(!open)
}
