// The static library that C links: a door for each function of `toolkit`, with its clauses.
// include/toolkit.h says the same to a C programmer.
#![tactic(auto)]

mod calls;

ghost use Rattle.rules.specs.Readers.{ReadsMenu};
ghost use Rattle.timers.specs.Promises.{Allocates, Releases};
ghost use Rattle.toolkit.specs.Beside.{Makes, Finds, FindsContent};

use rules::{Answer, Bank, Menu};
use toolkit::{Made, Spot};

// A fresh card with a title; with an empty one where it is refused.
#[unsafe(no_mangle)]
pub extern "C" fn toolkit_fresh(title: &[u8]) -> Made
    ensures { Makes title.now result }
{
    toolkit::toolkit_fresh(title)
}

// Where the value of an element stands in a run.
#[unsafe(no_mangle)]
pub extern "C" fn toolkit_find(run: &[u8], tag: u16, occurrence: usize) -> Spot
    ensures { Finds run.now tag occurrence result }
{
    toolkit::toolkit_find(run, tag, occurrence)
}

// Where the handler's content stands in an envelope; nowhere where the envelope is malformed.
#[unsafe(no_mangle)]
pub extern "C" fn toolkit_content(envelope: &[u8]) -> Spot
    ensures { FindsContent envelope.now result }
{
    toolkit::toolkit_content(envelope)
}

// The title, the help mark and the items of a menu command.
#[unsafe(no_mangle)]
pub extern "C" fn toolkit_read_menu(bytes: &[u8]) -> Menu
    ensures { ReadsMenu bytes.now result }
{
    toolkit::toolkit_read_menu(bytes)
}

// Gives an applet the lowest free timer of a bank.
#[unsafe(no_mangle)]
pub extern "C" fn toolkit_bank_allocate(bank: &mut Bank, applet: u8, limit: u8) -> Answer
    ensures { Allocates bank.old applet limit result bank.new }
{
    toolkit::toolkit_bank_allocate(bank, applet, limit)
}

// Frees a timer of an applet in a bank.
#[unsafe(no_mangle)]
pub extern "C" fn toolkit_bank_release(bank: &mut Bank, applet: u8, timer: u8) -> Answer
    ensures { Releases bank.old applet timer result bank.new }
{
    toolkit::toolkit_bank_release(bank, applet, timer)
}
