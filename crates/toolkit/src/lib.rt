// The doors that toolkit_c exports to C: one for each call of a card, and doors for a fresh card, the readers and the timer bank alone.
// include/toolkit.h says the same to a C programmer; a card and a bank are lent by their owner and changed where they stand.
#![tactic(auto)]

pub mod calls;

ghost use Rattle.rules.specs.Readers.{ReadsMenu};
ghost use Rattle.timers.specs.Promises.{Allocates, Releases};
ghost use Rattle.std.specs.Prelude.{◌≡◌};
ghost use Rattle.toolkit.specs.Beside.{spot_of, Makes, Finds, FindsContent};

use card::Card;
use rules::{Answer, Bank, Menu, Span};

// A fresh card, and the refusal's number (0: none).
#[repr(C)]
#[derive(Clone, Copy)]
pub struct Made {
    pub card: Card,
    pub refusal: u8,
}

// A part of the caller's bytes, and whether there is one.
#[repr(C)]
#[derive(Clone, Copy)]
pub struct Spot {
    pub start: usize,
    pub len: usize,
    pub there: bool,
}

// A fresh card with a title; with an empty one where it is refused.
pub fn toolkit_fresh(title: &[u8]) -> Made
    ensures { Makes title.now result }
{
    let made = Card::fresh(title);
    Made {
        card: made.card,
        refusal: made.answer.refusal,
    }
}

// Where something was found, as C gets it.
#[tactic(auto, unfolding(crate::specs::Beside::spot_of))]
fn spot_of(place: Option<Span>) -> Spot
    ensures { result ≡ spot_of place }
{
    match place {
        Some(value) => Spot {
            start: value.start,
            len: value.len,
            there: true,
        },
        None => Spot {
            start: 0,
            len: 0,
            there: false,
        },
    }
}

// Where the value of an element stands in a run.
pub fn toolkit_find(run: &[u8], tag: u16, occurrence: usize) -> Spot
    ensures { Finds run.now tag occurrence result }
{
    spot_of(tlv::locate(run, tag, occurrence))
}

// Where the handler's content stands in an envelope; nowhere where the envelope is malformed.
pub fn toolkit_content(envelope: &[u8]) -> Spot
    ensures { FindsContent envelope.now result }
{
    spot_of(envelopes::content_at(envelope))
}

// The title, the help mark and the items of a menu command.
pub fn toolkit_read_menu(bytes: &[u8]) -> Menu
    ensures { ReadsMenu bytes.now result }
{
    menu_reader::read_menu(bytes)
}

// Gives an applet the lowest free timer of a bank.
pub fn toolkit_bank_allocate(bank: &mut Bank, applet: u8, limit: u8) -> Answer
    ensures { Allocates bank.old applet limit result bank.new }
{
    let after = timers::allocate(*bank, applet, limit);
    *bank = after.bank;
    after.answer
}

// Frees a timer of an applet in a bank.
pub fn toolkit_bank_release(bank: &mut Bank, applet: u8, timer: u8) -> Answer
    ensures { Releases bank.old applet timer result bank.new }
{
    let after = timers::release(*bank, applet, timer);
    *bank = after.bank;
    after.answer
}
