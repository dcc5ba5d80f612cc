// The event list: the download codes that a selectable applet is registered for, and whether a call changes them.
// An event is listened for where the set of those registered and the set of the selectable applets meet.
#![tactic(auto)]

ghost use Rattle.std.specs.Prelude.{◌≡◌, not};
ghost use Rattle.std.specs.Bool.{beq};
ghost use Rattle.sets.specs.Sets.{meets};
ghost use Rattle.rules.specs.Events.{codes, first_download};
ghost use Rattle.events_shown.specs.Listed.{codes_from, codes_of};
ghost use Rattle.events_shown.specs.Turns.{any_code, events_turn, code_turns, is_listened};

use rules::Kind;

// The places of the first download and of the last.
const FIRST: usize = Kind::MT_CALL as usize;

const LAST: usize = Kind::BROWSING_STATUS as usize;

// The codes of the shown events, ascending, and 0 behind them. It is no ArrayVec, which is not Copy, and whose clauses say its items alone.
#[derive(Clone, Copy)]
pub struct Codes {
    pub at: [u8; Codes::MOST],
    pub count: u8,
}

impl Codes {
    // How many download codes there are.
    pub const MOST: usize = 13;
}

// Whether a set meets one of two sets and not the other.
fn turns(set: u8, was: u8, is: u8) -> bool
    ensures { result ≡ not (beq (meets set was) (meets set is)) }
{
    sets::meet(set, was) != sets::meet(set, is)
}

// Whether the shown events change where one set of an event becomes another.
pub fn events_turn(place: u8, was: u8, is: u8, selectable: u8) -> bool
    ensures { result ≡ events_turn place was is selectable }
{
    if place < Kind::MT_CALL {
        return false;
    }
    if Kind::BROWSING_STATUS < place {
        return false;
    }
    turns(selectable, was, is)
}

// Whether some download code is listened for by one set of selectable applets and not by another. It looks at each: with an
// exit at the first it is not put in place, and unlock took 3.9 times plain C for 1.1 (docs/FIGURES.md).
pub fn codes_turn(registered: [u8; Kind::EVENTS], was: u8, is: u8) -> bool
    ensures { result ≡ any_code (code_turns registered was is) }
{
    let mut any = false;
    for listeners in &registered[FIRST..=LAST] {
        any |= turns(*listeners, was, is);
    }
    any
}

// The codes of the events for which the set of those registered and that of the selectable applets meet.
pub fn shown_codes(registered: [u8; Kind::EVENTS], selectable: u8) -> Codes
    ensures { result ≡ codes_of (codes_from (is_listened registered selectable) first_download codes) }
{
    let codes: [u8; Codes::MOST] = [
        0x00, 0x01, 0x02, 0x03, 0x04, 0x05, 0x06, 0x07, 0x08, 0x0B, 0x0C, 0x0E, 0x0F,
    ];
    let mut shown = Codes {
        at: [0; Codes::MOST],
        count: 0,
    };
    for (i, code) in codes.iter().enumerate() {
        if sets::meet(registered[FIRST + i], selectable) {
            shown.at[usize::from(shown.count)] = *code;
            shown.count += 1;
        }
    }
    shown
}

// Whether some download code is listened for.
pub fn any_listened(registered: [u8; Kind::EVENTS], selectable: u8) -> bool
    ensures { result ≡ any_code (is_listened registered selectable) }
{
    let mut any = false;
    for set in &registered[FIRST..=LAST] {
        any |= sets::meet(*set, selectable);
    }
    any
}
