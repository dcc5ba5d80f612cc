// The card by value, and every public call of document 01 as a method that hands the card back with the answer.
// A call takes every input; of the card it takes for granted that a fresh card and calls have left it so.
#![tactic(auto)]

mod arriving;
mod entries;
mod fresh;
mod handing;
mod installing;
mod locking;
mod proactive;
mod registering;
mod removing;
mod requesting;
mod timing;

ghost use Rattle.std.specs.Prelude.{◌≡◌, ◌&&◌, ◌||◌};

use rules::{Answer, Bank, Desk, Kind, Roll, Round, Rows};

// C lends it, and `stored` (specs/View.antt) gives a card of any model: that calls have left it so is asked, not its invariant.
#[repr(C)]
#[derive(Clone, Copy)]
pub struct Card {
    pub polls: [u16; Roll::APPLETS],
    pub selectable: u8,
    pub registered: [u8; Kind::EVENTS],
    pub control: u8,
    pub made: [u8; Roll::APPLETS],
    pub bank: Bank,
    pub roll: Roll,
    pub rows: Rows,
    pub desk: Desk,
    pub round: Round,
}

// The card after a call, with the answer.
#[derive(Clone, Copy)]
pub struct Reply {
    pub card: Card,
    pub answer: Answer,
}

impl Reply {
    // Leaves the card where it is lent, and gives the answer; always in place, so that the card is changed where it stands.
    #[inline(always)]
    pub fn leave_in(self, card: &mut Card) -> Answer
        ensures left { card.new ≡ self.card }
        ensures said { result ≡ self.answer }
    {
        *card = self.card;
        self.answer
    }
}

// A mark after a call: in a session, what changes is due.
fn due_after(session: bool, due: bool, turns: bool) -> bool
    ensures { result ≡ (session && turns || due) }
{
    if session {
        if turns {
            return true;
        }
        return due;
    }
    due
}
