// The fresh card.
ghost use Rattle.std.specs.Prelude.{◌≡◌, ◌≤◌, length};
ghost use Rattle.std.specs.Prelude.{if◌then◌else◌, ◌==◌};
ghost use Rattle.rules.specs.Holds.{document, fresh};
ghost use Rattle.rules.specs.Numbers.{refusal_number};
ghost use Rattle.card.specs.View.{stored};
ghost use Rattle.card.specs.Replies.{MakesFresh};

use crate::{Card, Reply};
use rules::{Bank, Desk, Due, Kind, Refused, Roll};

// How many bytes of a title are kept: all, or none where it is refused.
fn kept_length(refusal: Result<(), Refused>, len: usize) -> usize
    ensures { result ≡ (if refusal_number refusal == 0 then len else 0) }
{
    if refusal.is_ok() {
        return len;
    }
    0
}

// The card with a title of at most 20 bytes on which no call was made.
fn made(title: &[u8]) -> Card
    requires { length title.now ≤ 20 }
    ensures { result ≡ stored (fresh document title.now) }
{
    let roll = applets::no_roll();
    let rows = menu::no_rows();
    let bank = Bank {
        owner: [0; Bank::TIMERS],
    };
    let held = writing::held(title);
    let due = Due {
        menu: false,
        events: false,
        interval: false,
        off: false,
    };
    let desk = Desk {
        due,
        session: false,
        outstanding: false,
        title_len: title.len() as u8,
        title: held,
        profile: [0; Desk::PROFILE],
    };
    let round = arrivals::no_round();
    Card {
        roll,
        selectable: 0,
        registered: [0; Kind::EVENTS],
        made: [0; Roll::APPLETS],
        polls: [0; Roll::APPLETS],
        control: 0,
        rows,
        bank,
        desk,
        round,
    }
}

impl Card {
    // A fresh card with a title; with an empty one where it is refused.
    pub fn fresh(title: &[u8]) -> Reply
        ensures { MakesFresh title.now result }
    {
        let refusal = refusals::title_refusal(title);
        let n = kept_length(refusal, title.len());
        let card = made(&title[..n]);
        let answer = answers::refusal(refusal);
        Reply { card, answer }
    }
}
