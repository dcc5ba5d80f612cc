// A line of a script for the floor program: it becomes one record of 24 bytes,
// letter, applet, count, 20 argument bytes and 00.
#![tactic(auto)]

mod fields;
mod line;
mod messages;
mod words;

pub use line::{record, write_record};

// Why a line is no record.
#[derive(Clone, Copy, PartialEq, Eq)]
pub enum Cause {
    UnknownLetter,
    MissingApplet,
    MissingNumber,
    BadNumber,
    LargeNumber,
    BadByte,
    ManyBytes,
    OpenQuote,
    MissingSpace,
    MissingHelp,
    BadHelp,
    ExtraWord,
    LongLine,
}

// What follows a letter and its applet.
#[derive(Clone, Copy, PartialEq, Eq)]
pub enum Kind {
    Install,
    Entry,
    Event,
    Nothing,
}

// What follows a letter: an applet and more, bytes alone, or nothing.
#[derive(Clone, Copy, PartialEq, Eq)]
pub enum Form {
    Applet(Kind),
    Bytes,
    Alone,
}
