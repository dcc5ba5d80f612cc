// The answer of a call, one struct for every call, made of the refusal's number (0: none) and of what an accepted call tells.
// What it holds of each answer stands in `rules`, specs/Held.antt.
#![tactic(auto, unfolding(rules::specs::Held::stored_answer, rules::specs::Calls::answer_with, rules::specs::Numbers::refusal_number))]

ghost use Rattle.std.specs.Prelude.{◌≡◌, false};
ghost use Rattle.std.specs.Prelude.{if◌then◌else◌, ◌==◌};
ghost use Rattle.std.specs.Result.{result_unwrap_or};
ghost use Rattle.rules.specs.Arrivals.{no_marks};
ghost use Rattle.rules.specs.Numbers.{number_of, refusal_number};
ghost use Rattle.rules.specs.Calls.{plainly, refused_with, numbered, saying, answer_with};
ghost use Rattle.rules.specs.Held.{stored_answer};

use rules::{Answer, Refused};

// An answer that names nobody.
fn plain(refusal: u8, number: u8, says: bool) -> Answer
    ensures { result ≡ stored_answer (plainly refusal number says) }
{
    Answer {
        refusal,
        number,
        says,
        ..Answer::default()
    }
}

// The four over a number take every number, as docs/PROMISES.md names them; those over a result, below, call these.

// The refusal by its number, or that the call is accepted.
pub fn of_refusal(refusal: u8) -> Answer
    ensures { result ≡ stored_answer (refused_with refusal) }
{
    plain(refusal, 0, false)
}

// The refusal by its number, or a number.
pub fn of_number(refusal: u8, number: u8) -> Answer
    ensures { result ≡ stored_answer (if refusal == 0 then numbered number else refused_with refusal) }
{
    if refusal == 0 {
        return plain(0, number, false);
    }
    of_refusal(refusal)
}

// The refusal by its number, or a yes or no.
pub fn of_yes_or_no(refusal: u8, yes: bool) -> Answer
    ensures { result ≡ stored_answer (if refusal == 0 then saying yes else refused_with refusal) }
{
    plain(refusal, 0, yes & (refusal == 0))
}

// The refusal by its number, beside the one called; 0 where nobody is.
pub fn of_called(refusal: u8, called: u8) -> Answer
    ensures { result ≡ record { refusal = refusal; number = 0; says = false; called = called; marks = no_marks } }
{
    Answer {
        called,
        ..of_refusal(refusal)
    }
}

// A refusal.
fn refused(refusal: Refused) -> Answer
    ensures { result ≡ stored_answer (refused_with (number_of refusal)) }
{
    of_refusal(refusal.number())
}

// The refusal, or that the call is accepted.
pub fn refusal(given: Result<(), Refused>) -> Answer
    ensures { result ≡ stored_answer (refused_with (refusal_number given)) }
{
    match given {
        Ok(()) => of_refusal(0),
        Err(refusal) => refused(refusal),
    }
}

// The refusal, or a number.
pub fn number(given: Result<u8, Refused>) -> Answer
    ensures { result ≡ stored_answer (answer_with numbered given) }
{
    match given {
        Ok(number) => of_number(0, number),
        Err(refusal) => refused(refusal),
    }
}

// The refusal, or a yes or no.
pub fn yes_or_no(given: Result<bool, Refused>) -> Answer
    ensures { result ≡ stored_answer (answer_with saying given) }
{
    match given {
        Ok(yes) => of_yes_or_no(0, yes),
        Err(refusal) => refused(refusal),
    }
}

// The refusal, or the one called; 0 where nobody is.
pub fn called(given: Result<u8, Refused>) -> Answer
    ensures { result ≡ record { refusal = refusal_number given; number = 0; says = false; called = result_unwrap_or given 0; marks = no_marks } }
{
    match given {
        Ok(called) => of_called(0, called),
        Err(refusal) => refused(refusal),
    }
}
