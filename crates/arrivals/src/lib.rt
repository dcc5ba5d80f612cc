// What arrivals come to that needs less than the card: what arrives with an envelope, whom it is for as a set of applets, the round that it
// opens and what turns leave of it; the answer, with the handlers available; and the desk after a profile.
#![tactic(auto)]

ghost use Rattle.std.specs.Prelude.{◌≡◌, true};
ghost use Rattle.std.specs.Prelude.{if◌then◌else◌, ◌==◌};
ghost use Rattle.std.specs.Result.{result_unwrap_or};
ghost use Rattle.sets.specs.Sets.{single, set_both};
ghost use Rattle.rules.specs.Holds.{event, nothing, no_round};
ghost use Rattle.rules.specs.Events.{kind_of_code};
ghost use Rattle.rules.specs.Arrivals.{download, arrival_of, responds, no_marks, envelope_marks, other_marks};
ghost use Rattle.rules.specs.Rounds.{by_settled};
ghost use Rattle.rules.specs.Numbers.{refusal_number};
ghost use Rattle.rules.specs.Held.{view_rows, TidyRows, view_arrival, stored_arrival};
ghost use Rattle.arrivals.specs.Whom.{Registered, IsForOn, IsForEnvelope};
ghost use Rattle.arrivals.specs.Rounds.{stored_round, leaving};
ghost use Rattle.arrivals.specs.Answers.{answering, Begins};

use rules::{
    Answer, Arrived, Bank, Desk, Due, Envelope, Kind, Malformed, Marks, Refused, Roll, Round, Rows,
};

// Nothing that anybody registers for.
#[tactic(auto, unfolding(rules::specs::Held::stored_arrival))]
fn nothing() -> Arrived
    ensures { result ≡ stored_arrival nothing }
{
    Arrived {
        kind: Arrived::NOTHING,
        number: 0,
    }
}

// An event, by its place.
#[tactic(auto, unfolding(rules::specs::Held::stored_arrival))]
pub fn event_at(place: u8) -> Arrived
    ensures { result ≡ stored_arrival (event place) }
{
    Arrived {
        kind: Arrived::EVENT,
        number: place,
    }
}

// What arrives with an event download with this code.
#[tactic(auto, unfolding(rules::specs::Arrivals::download))]
fn download_of(code: u8) -> Arrived
    ensures { result ≡ stored_arrival (download (kind_of_code code)) }
{
    let kind = events::kind_of_code(code);
    match kind {
        Kind::Event(place) => event_at(place),
        Kind::Issuer => nothing(),
        Kind::Reserved => nothing(),
        Kind::Unsupported => nothing(),
    }
}

// What arrives with an envelope.
#[tactic(auto, unfolding(rules::specs::Arrivals::arrival_of, rules::specs::Held::stored_arrival))]
pub fn arrival_of(e: Result<Envelope, Malformed>) -> Arrived
    ensures { result ≡ stored_arrival (arrival_of e) }
{
    match e {
        Ok(Envelope::Menu { item, help }) => {
            let kind = if help { Arrived::HELP } else { Arrived::CHOICE };
            Arrived { kind, number: item }
        }
        Ok(Envelope::Call) => event_at(Kind::CALL_CONTROL),
        Ok(Envelope::Download { code }) => download_of(code),
        Ok(Envelope::Expiry { timer }) => Arrived {
            kind: Arrived::EXPIRY,
            number: timer,
        },
        Ok(Envelope::Unrecognized) => event_at(Kind::UNRECOGNIZED_ENVELOPE),
        Err(Malformed) => nothing(),
    }
}

// Those registered for an event, by its place.
fn listeners(registered: [u8; Kind::EVENTS], control: u8, place: u8) -> u8
    ensures { Registered registered control place result }
{
    if place == Kind::CALL_CONTROL {
        return sets::bit(control);
    }
    let p = place as usize;
    if p < Kind::EVENTS {
        return registered[p];
    }
    0
}

// Those whom what arrived is for, by fields of the C card; always in place, for a call from two places would be handed a copy of the rows.
#[inline(always)]
pub fn whom(
    a: Arrived,
    rows: Rows,
    registered: [u8; Kind::EVENTS],
    bank: Bank,
    control: u8,
    polls: [u16; Roll::APPLETS],
) -> u8
    requires { TidyRows rows }
    ensures arrived { IsForOn (view_rows rows) registered bank.owner control polls (view_arrival a) result }
    ensures envelope { IsForEnvelope (view_rows rows) registered bank.owner control a result }
{
    let kind = a.kind;
    let number = a.number;
    if kind == Arrived::EVENT {
        return listeners(registered, control, number);
    }
    let help = kind == Arrived::HELP;
    if help | (kind == Arrived::CHOICE) {
        let owner = menu_shown::chosen_owner(rows, number, help);
        return sets::bit(owner);
    }
    if kind == Arrived::EXPIRY {
        let owner = timers::owner_of(bank, number);
        return sets::bit(owner);
    }
    if kind == Arrived::STATUS {
        return polling::polling_set(polls);
    }
    0
}

// No round.
pub fn no_round() -> Round
    ensures { result ≡ stored_round no_round }
{
    let arrived = nothing();
    Round {
        open: false,
        arrived,
        waiting: 0,
    }
}

// The round after an arrival, by the refusal's number: those of the present ones whom it is for wait; a refused arrival leaves the round.
// It and `answered` take every number, as docs/PROMISES.md names them; `round_after` and `marked` call them.
pub fn opened(refusal: u8, round: Round, arrived: Arrived, whom: u8, present: u8) -> Round
    ensures { result ≡ (if refusal == 0 then record { «open» = true; arrived = arrived; waiting = set_both whom present } else round) }
{
    if refusal == 0 {
        let waiting = sets::both(whom, present);
        return Round {
            open: true,
            arrived,
            waiting,
        };
    }
    round
}

// The round after an arrival, the same by its refusal.
pub fn round_after(
    refusal: Result<(), Refused>,
    round: Round,
    arrived: Arrived,
    whom: u8,
    present: u8,
) -> Round
    ensures { result ≡ (if refusal_number refusal == 0 then record { «open» = true; arrived = arrived; waiting = set_both whom present } else round) }
{
    match refusal {
        Ok(()) => opened(0, round, arrived, whom, present),
        Err(_) => round,
    }
}

// The round after a turn: the one named leaves it, and where nobody is named it ends.
pub fn turned(round: Round, named: u8) -> Round
    ensures { result ≡ (if named == 0 then stored_round no_round else leaving round named) }
{
    if named == 0 {
        return no_round();
    }
    let waiting = sets::switched(round.waiting, named, false);
    let mut left = round;
    left.waiting = waiting;
    left
}

// Those whose turn may come: the selectable ones of those whom what arrived is for, while they wait.
pub fn ready(whom: u8, selectable: u8, waiting: u8) -> u8
    ensures { result ≡ set_both (set_both selectable whom) waiting }
{
    let wanted = sets::both(selectable, whom);
    sets::both(wanted, waiting)
}

// The set of the one whose one-shot is used up: the one named, in a round that settled opened.
pub fn used_up(arrived: Arrived, named: u8) -> u8
    ensures { result ≡ (if by_settled (view_arrival arrived) then single named else 0) }
{
    let kind = arrived.kind;
    let number = arrived.number;
    if kind == Arrived::EVENT {
        if number == Kind::HANDLER_AVAILABLE {
            return sets::bit(named);
        }
    }
    0
}

// The marks that come with a profile, a settled moment or a STATUS.
pub fn other_marks(outstanding: bool) -> Marks
    ensures { result ≡ other_marks outstanding }
{
    let proactive = !outstanding;
    Marks {
        proactive,
        envelope: false,
        response: false,
    }
}

// Whether the response handler is available with an envelope.
#[tactic(auto, unfolding(rules::specs::Arrivals::responds))]
fn has_response(e: Result<Envelope, Malformed>) -> bool
    ensures { result ≡ responds e }
{
    matches!(e, Ok(Envelope::Call | Envelope::Unrecognized))
}

// The marks that come with an envelope.
pub fn envelope_marks(outstanding: bool, e: Result<Envelope, Malformed>) -> Marks
    ensures { result ≡ envelope_marks outstanding e }
{
    let response = has_response(e);
    Marks {
        proactive: !outstanding,
        envelope: true,
        response,
    }
}

// The answer by the refusal's number: the marks, of which there are none with a refusal.
#[tactic(auto, unfolding(rules::specs::Held::stored_answer))]
pub fn answered(refusal: u8, marks: Marks) -> Answer
    ensures { result ≡ answering refusal marks }
{
    match refusal {
        0 => Answer {
            marks,
            ..answers::of_refusal(0)
        },
        _ => answers::of_refusal(refusal),
    }
}

// The answer: the refusal, or the marks.
#[tactic(auto, unfolding(rules::specs::Held::stored_answer, rules::specs::Numbers::refusal_number))]
pub fn marked(given: Result<Marks, Refused>) -> Answer
    ensures { result ≡ answering (refusal_number given) (result_unwrap_or given no_marks) }
{
    match given {
        Ok(marks) => answered(0, marks),
        Err(refusal) => answers::refusal(Err(refusal)),
    }
}

// The desk after a profile: a session has begun with these bytes, no command is outstanding, and this is due.
#[tactic(auto, using(crate::proofs::Answering::begins))]
pub fn begun(desk: Desk, due: Due, bytes: &[u8]) -> Desk
    ensures { Begins bytes.now due desk result }
{
    let title = desk.title;
    let profile = writing::held(bytes);
    Desk {
        due,
        session: true,
        outstanding: false,
        title_len: desk.title_len,
        title,
        profile,
    }
}
