// The plain types that the rules of document 01 speak of; the rules stand in specs/. Those marked repr(C) are laid out for C and take no heap: a kind is
// a byte in them and a list an array with its count, and no invariant, for `stored_rows` and its like (specs/Held.antt) give them of any list.
#![tactic(auto)]

pub mod refused;

pub use refused::Refused;

// The position and the identifier that an applet requests for a menu entry.
#[repr(C)]
#[derive(Clone, Copy, Default)]
pub struct Pair {
    pub position: u8,
    pub identifier: u8,
}

// What an install asks for: a priority, the limits, and a pair for each entry.
#[repr(C)]
#[derive(Clone, Copy)]
pub struct Request {
    pub priority: u8,
    pub timers: u8,
    pub entries: u8,
    pub text: u8,
    pub pairs: [Pair; Grant::ENTRIES],
}

// What an applet was installed with: its priority and its limits, and a pair for each entry.
#[repr(C)]
#[derive(Clone, Copy)]
pub struct Grant {
    pub priority: u8,
    pub timers: u8,
    pub text: u8,
    pub entries: u8,
    pub pairs: [Pair; Grant::ENTRIES],
}

impl Grant {
    pub const ENTRIES: usize = 4;
}

// The applets: their numbers in order of installation and of call, by number what each was installed with, and the set of their numbers.
#[repr(C)]
#[derive(Clone, Copy)]
pub struct Roll {
    pub count: u8,
    pub age: [u8; Roll::APPLETS],
    pub order: [u8; Roll::APPLETS],
    pub grants: [Grant; Roll::APPLETS],
    pub present: u8,
}

impl Roll {
    pub const APPLETS: usize = 8;
}

// A row of the menu list.
#[repr(C)]
#[derive(Clone, Copy)]
pub struct Row {
    pub identifier: u8,
    pub owner: u8,
    pub help: bool,
    pub enabled: bool,
    pub text: [u8; Row::TEXT],
    pub len: u8,
}

impl Row {
    pub const TEXT: usize = 15;
}

// The menu list.
#[repr(C)]
#[derive(Clone, Copy)]
pub struct Rows {
    pub at: [Row; Rows::MOST],
    pub count: u8,
}

impl Rows {
    pub const MOST: usize = 12;
}

// The owners of the timers 1 to 8.
#[repr(C)]
#[derive(Clone, Copy)]
pub struct Bank {
    pub owner: [u8; Bank::TIMERS],
}

impl Bank {
    pub const TIMERS: usize = 8;
}

// What is due, in the order of handing out: the menu, the event list, POLL INTERVAL, POLLING OFF.
#[repr(C)]
#[derive(Clone, Copy)]
pub struct Due {
    pub menu: bool,
    pub events: bool,
    pub interval: bool,
    pub off: bool,
}

// The terminal's side of the card.
#[repr(C)]
#[derive(Clone, Copy)]
pub struct Desk {
    pub due: Due,
    pub session: bool,
    pub outstanding: bool,
    pub title_len: u8,
    pub title: [u8; Desk::TITLE],
    pub profile: [u8; Desk::PROFILE],
}

impl Desk {
    pub const TITLE: usize = 20;

    pub const PROFILE: usize = 32;
}

// What arrived: its kind, and an event's place, a row's identifier or a timer.
#[repr(C)]
#[derive(Clone, Copy)]
pub struct Arrived {
    pub kind: u8,
    pub number: u8,
}

impl Arrived {
    pub const NOTHING: u8 = 0;

    pub const EVENT: u8 = 1;

    pub const CHOICE: u8 = 2;

    pub const HELP: u8 = 3;

    pub const EXPIRY: u8 = 4;

    pub const STATUS: u8 = 5;
}

// The round: whether one is open, what arrived, and the set of those who wait for their turn.
#[repr(C)]
#[derive(Clone, Copy)]
pub struct Round {
    pub open: bool,
    pub arrived: Arrived,
    pub waiting: u8,
}

// What an event value or a download code is: an event that the product supports, by its place in the registrations, or none.
#[derive(Clone, Copy)]
pub enum Kind {
    Event(u8),
    Issuer,
    Reserved,
    Unsupported,
}

// The places of the events: numbers, for a place is an index of the C card's `registered` and a byte of `Arrived`.
impl Kind {
    pub const EVENTS: usize = 20;

    pub const PROFILE_DOWNLOAD: u8 = 0;

    pub const MENU_SELECTION: u8 = 1;

    pub const HELP_REQUEST: u8 = 2;

    pub const CALL_CONTROL: u8 = 3;

    pub const TIMER_EXPIRATION: u8 = 4;

    pub const MT_CALL: u8 = 5;

    pub const CALL_CONNECTED: u8 = 6;

    pub const CALL_DISCONNECTED: u8 = 7;

    pub const LOCATION_STATUS: u8 = 8;

    pub const USER_ACTIVITY: u8 = 9;

    pub const IDLE_SCREEN: u8 = 10;

    pub const CARD_READER_STATUS: u8 = 11;

    pub const LANGUAGE_SELECTION: u8 = 12;

    pub const BROWSER_TERMINATION: u8 = 13;

    pub const ACCESS_TECHNOLOGY: u8 = 14;

    pub const DISPLAY_PARAMETERS: u8 = 15;

    pub const NETWORK_SEARCH_MODE: u8 = 16;

    pub const BROWSING_STATUS: u8 = 17;

    pub const UNRECOGNIZED_ENVELOPE: u8 = 18;

    pub const HANDLER_AVAILABLE: u8 = 19;
}

// Why a reader gives nothing: the bytes are not what they should be.
#[derive(Clone, Copy)]
pub struct Malformed;

// A length: how many value bytes, and where they start.
#[derive(Clone, Copy)]
pub struct Length {
    pub len: u8,
    pub next: usize,
}

// A whole element: its tag's number, its value's start and length, the position past it.
#[derive(Clone, Copy)]
pub struct Element {
    pub number: u16,
    pub start: usize,
    pub len: usize,
    pub next: usize,
}

// A part of the caller's bytes.
#[derive(Clone, Copy)]
pub struct Span {
    pub start: usize,
    pub len: usize,
}

// The outer tag, and where its value starts, which goes on to the end.
#[derive(Clone, Copy)]
pub struct Outer {
    pub tag: u8,
    pub start: usize,
}

// What an envelope says.
#[derive(Clone, Copy)]
pub enum Envelope {
    Menu { item: u8, help: bool },
    Call,
    Download { code: u8 },
    Expiry { timer: u8 },
    Unrecognized,
}

// What a command given to send says: its type, or the timer that it manages.
#[derive(Clone, Copy)]
pub enum Command {
    Plain { kind: u8 },
    Timer { timer: u8 },
}

// The handlers available to those called.
#[repr(C)]
#[derive(Clone, Copy, Default)]
pub struct Marks {
    pub proactive: bool,
    pub envelope: bool,
    pub response: bool,
}

// The answer of a call: the refusal's number (0: none), a number (an identifier, a timer, a length), a yes or no, the applet called (0: nobody), the marks.
#[repr(C)]
#[derive(Clone, Copy, Default)]
pub struct Answer {
    pub refusal: u8,
    pub number: u8,
    pub says: bool,
    pub called: u8,
    pub marks: Marks,
}

// An item of a menu that was read.
#[repr(C)]
#[derive(Clone, Copy)]
pub struct Item {
    pub identifier: u8,
    pub text: [u8; Row::TEXT],
    pub len: u8,
}

// The answer of the menu reader.
#[repr(C)]
#[derive(Clone, Copy)]
pub struct Menu {
    pub refusal: u8,
    pub title: [u8; Desk::TITLE],
    pub title_len: u8,
    pub help: bool,
    pub at: [Item; Rows::MOST],
    pub count: u8,
}
