// Event values and download codes: which event a number names, and what that allows.
// What each answer means stands in `rules`, specs/Events.antt.
#![tactic(auto)]

ghost use Rattle.std.specs.Prelude.{◌≡◌, [], ◌∷◌};
ghost use Rattle.rules.specs.Events.{kind_of, kind_of_code, not_supported, not_to_set, is_control};
ghost use Rattle.rules.specs.Numbers.{refusal_number};
ghost use Rattle.rules.specs.Refusals.{line, first_holding};
ghost use Rattle.events.specs.Place.{place_of};

use rules::{Kind, Refused};

// What an event value is.
pub fn kind_of(value: i16) -> Kind
    ensures { result ≡ kind_of value }
{
    match value {
        -32768..=-129 => Kind::Reserved,
        -128..=-65 => Kind::Issuer,
        1 => Kind::Event(Kind::PROFILE_DOWNLOAD),
        7 => Kind::Event(Kind::MENU_SELECTION),
        8 => Kind::Event(Kind::HELP_REQUEST),
        9 => Kind::Event(Kind::CALL_CONTROL),
        11 => Kind::Event(Kind::TIMER_EXPIRATION),
        12 => Kind::Event(Kind::MT_CALL),
        13 => Kind::Event(Kind::CALL_CONNECTED),
        14 => Kind::Event(Kind::CALL_DISCONNECTED),
        15 => Kind::Event(Kind::LOCATION_STATUS),
        16 => Kind::Event(Kind::USER_ACTIVITY),
        17 => Kind::Event(Kind::IDLE_SCREEN),
        18 => Kind::Event(Kind::CARD_READER_STATUS),
        20 => Kind::Event(Kind::LANGUAGE_SELECTION),
        21 => Kind::Event(Kind::BROWSER_TERMINATION),
        25 => Kind::Event(Kind::ACCESS_TECHNOLOGY),
        26 => Kind::Event(Kind::DISPLAY_PARAMETERS),
        28 => Kind::Event(Kind::NETWORK_SEARCH_MODE),
        29 => Kind::Event(Kind::BROWSING_STATUS),
        -1 => Kind::Event(Kind::UNRECOGNIZED_ENVELOPE),
        123 => Kind::Event(Kind::HANDLER_AVAILABLE),
        _ => Kind::Unsupported,
    }
}

// What a download code is.
pub fn kind_of_code(code: u8) -> Kind
    ensures { result ≡ kind_of_code code }
{
    match code {
        0x00 => Kind::Event(Kind::MT_CALL),
        0x01 => Kind::Event(Kind::CALL_CONNECTED),
        0x02 => Kind::Event(Kind::CALL_DISCONNECTED),
        0x03 => Kind::Event(Kind::LOCATION_STATUS),
        0x04 => Kind::Event(Kind::USER_ACTIVITY),
        0x05 => Kind::Event(Kind::IDLE_SCREEN),
        0x06 => Kind::Event(Kind::CARD_READER_STATUS),
        0x07 => Kind::Event(Kind::LANGUAGE_SELECTION),
        0x08 => Kind::Event(Kind::BROWSER_TERMINATION),
        0x0B => Kind::Event(Kind::ACCESS_TECHNOLOGY),
        0x0C => Kind::Event(Kind::DISPLAY_PARAMETERS),
        0x0E => Kind::Event(Kind::NETWORK_SEARCH_MODE),
        0x0F => Kind::Event(Kind::BROWSING_STATUS),
        _ => Kind::Unsupported,
    }
}

// The refusal that set, clear and ask event give for a kind.
#[tactic(auto, unfolding(rules::specs::Events::not_supported, rules::specs::Events::not_to_set, rules::specs::Refusals::first_holding, rules::specs::Numbers::refusal_number, rules::specs::Numbers::number_of))]
pub fn refusal_of(kind: Kind) -> Result<(), Refused>
    ensures { refusal_number result ≡ first_holding (line 7 (not_supported kind) ∷ line 8 (not_to_set kind) ∷ []) }
{
    match kind {
        Kind::Event(Kind::MENU_SELECTION | Kind::HELP_REQUEST | Kind::TIMER_EXPIRATION) => {
            Err(Refused::NotToSet)
        }
        Kind::Event(_) => Ok(()),
        Kind::Issuer | Kind::Reserved | Kind::Unsupported => Err(Refused::NotSupported),
    }
}

// Whether the kind is call control.
#[tactic(auto, unfolding(rules::specs::Events::is_control))]
pub fn is_control(kind: Kind) -> bool
    ensures { result ≡ is_control kind }
{
    matches!(kind, Kind::Event(Kind::CALL_CONTROL))
}

// The place of an event; 0 for what is none, where a refused call stores what was there: an Option would only be unwrapped to it.
#[tactic(auto, unfolding(crate::specs::Place::place_of))]
pub fn place_of(kind: Kind) -> u8
    ensures { result ≡ place_of kind }
{
    match kind {
        Kind::Event(place) => place,
        Kind::Issuer | Kind::Reserved | Kind::Unsupported => 0,
    }
}
