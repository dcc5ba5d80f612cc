// The timer bank by value: who owns each timer, and the two timer calls of a bank that stands alone.
// What each answer means stands in `rules`, specs/Timers.antt and specs/Beside.antt.
#![tactic(auto)]

ghost use Rattle.std.specs.Prelude.{◌≡◌, ◌≤◌, min, not, [], ◌∷◌, IfOk};
ghost use Rattle.rules.specs.Timers.{is_owner, lowest_free, none_free, at_limit, owner_of, not_its_timer, without_timers};
ghost use Rattle.rules.specs.Numbers.{number_of, refusal_number};
ghost use Rattle.rules.specs.Calls.{refused_with};
ghost use Rattle.rules.specs.Refusals.{line, first_holding};
ghost use Rattle.rules.specs.Held.{stored_answer};
ghost use Rattle.timers.specs.Sets.{bit, is_between, set_of};
ghost use Rattle.timers.specs.Promises.{Allocates, Releases};

use rules::{Answer, Bank, Refused, Roll};

// The last applet number, and the last timer.
const LAST_APPLET: u8 = Roll::APPLETS as u8;

const LAST_TIMER: u8 = Bank::TIMERS as u8;

// What a timer call hands back.
#[derive(Clone, Copy)]
pub struct BankReply {
    pub bank: Bank,
    pub answer: Answer,
}

// Whether a number is one of first to last.
fn between(n: u8, first: u8, last: u8) -> bool
    ensures { result ≡ is_between first last n }
{
    first <= n && n <= last
}

// The set of the timers with an owner of first to last, as bits (document 01 names the form): bit i is set where timer i + 1 has one.
fn owner_bits(owner: [u8; Bank::TIMERS], first: u8, last: u8) -> u32
    ensures { result ≡ set_of (is_between first last) owner }
{
    let mut bits = 0;
    for i in (0..Bank::TIMERS).rev() {
        bits = bits * 2 + u32::from(between(owner[i], first, last));
    }
    bits
}

// A limit; one over 8 counts as 8.
fn capped(limit: u8) -> u32
    ensures { result ≡ min limit 8 }
{
    u32::from(limit.min(LAST_TIMER))
}

// Whether the applet holds its timer limit or more.
pub fn at_limit(bank: Bank, applet: u8, limit: u8) -> bool
    ensures { result ≡ at_limit bank.owner applet limit }
{
    capped(limit) <= owner_bits(bank.owner, applet, applet).count_ones()
}

// The lowest free timer as the rules number it: 9 where none is free (lowest_free, rules/specs/Timers.antt).
pub fn lowest_free(bank: Bank) -> u8
    ensures { result ≡ lowest_free bank.owner }
{
    owner_bits(bank.owner, 1, LAST_APPLET).trailing_ones() as u8 + 1
}

// The owner of a timer; 0, nobody in C's bank, for a number outside 1..8.
pub fn owner_of(bank: Bank, timer: u8) -> u8
    ensures { result ≡ owner_of bank.owner timer }
{
    applets::by_number(0, &bank.owner, timer)
}

// The bank as it was, and a refusal.
fn refuse(bank: Bank, refusal: Refused) -> BankReply
    ensures { result ≡ record { bank = bank; answer = stored_answer (refused_with (number_of refusal)) } }
{
    let answer = answers::refusal(Err(refusal));
    BankReply { bank, answer }
}

// The timer that the applet gets: the lowest free one, unless it holds its limit.
fn timer_for(bank: Bank, applet: u8, limit: u8) -> Result<u8, Refused>
    ensures refusal { refusal_number result ≡ first_holding (line 2 (not (is_owner applet)) ∷ line 13 (at_limit bank.owner applet limit) ∷ line 14 (none_free bank.owner) ∷ []) }
    ensures timer { IfOk result (λ timer. timer ≡ lowest_free bank.owner) }
    ensures last { IfOk result (λ timer. timer ≤ 8) }
{
    Refused::NoApplet.when(!between(applet, 1, LAST_APPLET))?;
    Refused::TimerLimit.when(at_limit(bank, applet, limit))?;
    let timer = lowest_free(bank);
    Refused::NoTimerFree.when(LAST_TIMER < timer)?;
    Ok(timer)
}

// Gives the applet the lowest free timer, unless it holds its limit.
pub fn allocate(bank: Bank, applet: u8, limit: u8) -> BankReply
    ensures { Allocates bank applet limit result.answer result.bank }
{
    match timer_for(bank, applet, limit) {
        Ok(timer) => {
            let mut next = bank;
            next.owner[(timer - 1) as usize] = applet;
            let answer = answers::number(Ok(timer));
            BankReply { bank: next, answer }
        }
        Err(refusal) => refuse(bank, refusal),
    }
}

// Of a release: there is no such applet, or the timer is not its own.
fn release_refusal(bank: Bank, applet: u8, timer: u8) -> Result<(), Refused>
    ensures { refusal_number result ≡ first_holding (line 2 (not (is_owner applet)) ∷ line 15 (not_its_timer bank.owner applet timer) ∷ []) }
{
    Refused::NoApplet.when(!between(applet, 1, LAST_APPLET))?;
    Refused::NotItsTimer.when(owner_of(bank, timer) != applet)
}

// Frees a timer of the applet.
pub fn release(bank: Bank, applet: u8, timer: u8) -> BankReply
    ensures { Releases bank applet timer result.answer result.bank }
{
    match release_refusal(bank, applet, timer) {
        Ok(()) => {
            let mut next = bank;
            next.owner[(timer - 1) as usize] = 0;
            let answer = answers::refusal(Ok(()));
            BankReply { bank: next, answer }
        }
        Err(refusal) => refuse(bank, refusal),
    }
}

// Frees all timers of an applet.
pub fn freed(bank: Bank, applet: u8) -> Bank
    ensures { result.owner ≡ without_timers applet bank.owner }
{
    let mut owner = bank.owner;
    for o in &mut owner {
        *o = applets::owner_without(*o, applet);
    }
    Bank { owner }
}
