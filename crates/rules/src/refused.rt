// The refusals of documents 01 and 02 with their numbers; specs/Refusals.antt says when each is given.
ghost use Rattle.std.specs.Prelude.{◌≡◌, true, false, [], ◌∷◌, IfErr, OnOk};
ghost use Rattle.rules.specs.Numbers.{number_of, refusal_number};
ghost use Rattle.rules.specs.Refusals.{line, first_holding};

#[derive(Clone, Copy, PartialEq, Eq)]
pub enum Refused {
    Malformed = 1,
    NoApplet = 2,
    NumberInUse = 3,
    OutOfRange = 4,
    TooManyEntries = 5,
    IdentifierTwice = 6,
    NotSupported = 7,
    NotToSet = 8,
    ControlOwned = 9,
    AllMade = 10,
    NotItsRow = 11,
    BadText = 12,
    TimerLimit = 13,
    NoTimerFree = 14,
    NotItsTimer = 15,
    Outstanding = 16,
    SystemType = 17,
    ShortBuffer = 18,
    NoneOutstanding = 19,
    BadDuration = 20,
    NoRound = 21,
    RoundOpen = 22,
}

impl Refused {
    // The refusal's number.
    #[tactic(auto, using(crate::proofs::Numbers::variant_number))]
    pub fn number(self) -> u8
        ensures { result ≡ number_of self }
    {
        self as u8
    }

    // One line of the table: this refusal, where the line holds.
    #[tactic(auto, unfolding(crate::specs::Numbers::refusal_number, crate::specs::Refusals::first_holding))]
    pub fn when(self, holds: bool) -> Result<(), Refused>
        ensures line { refusal_number result ≡ first_holding (line (number_of self) holds ∷ []) }
        ensures refused { IfErr result (λ refusal. (refusal ≡ self) × (holds ≡ true)) }
        ensures accepted { OnOk result (holds ≡ false) }
    {
        if holds { Err(self) } else { Ok(()) }
    }
}
