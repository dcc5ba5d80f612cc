// What an install may ask for: the refusals 2 to 6 for a raw request, and what it is granted.
// Of the pairs that are requested, as many are looked at as the entry limit says.
#![tactic(auto)]

ghost use Rattle.std.specs.Prelude.{ℕ, ◌≤◌, ◌<◌, ◌≡◌, not, ◌&&◌, ◌||◌, length};
ghost use Rattle.lists.specs.Tests.{◌<?◌};
ghost use Rattle.std.specs.Prelude.{◌==◌};
ghost use Rattle.lists.specs.Lists.{some?, sum, in?, repeats?, padded};
ghost use Rattle.rules.specs.declared.Pair as pair;
ghost use Rattle.rules.specs.Holds.{document};
ghost use Rattle.rules.specs.Applets.{is_number, looked_at, out_of_range, requested, newcomer};
ghost use Rattle.rules.specs.Rows.{no_pair};
ghost use Rattle.rules.specs.Numbers.{refusal_number};
ghost use Rattle.applets.specs.ByNumber.{grant_of};
ghost use Rattle.admission.specs.Refuses.{RefusesInstall, limit, taken, asks_for, has_requested};

use rules::{Bank, Grant, Pair, Refused, Request, Roll, Row, Rows};

// The last applet number; the most that a request may ask for; the most that all may.
const LAST_APPLET: u8 = Roll::APPLETS as u8;

const MOST_TIMERS: u8 = Bank::TIMERS as u8;

const MOST_ENTRIES: u8 = Grant::ENTRIES as u8;

const MOST_TEXT: u8 = Row::TEXT as u8;

const MOST_ROWS: u32 = Rows::MOST as u32;

// How many pairs are looked at: as many as the entry limit, of the four that there are.
fn pair_count(request: Request) -> u8
    ensures { (result ≡ length (looked_at request)) × (result ≤ 4) }
{
    request.entries.min(MOST_ENTRIES)
}

// The pairs that are looked at, with blanks behind.
fn looked_at(request: Request) -> [Pair; Grant::ENTRIES]
    ensures { result ≡ padded 4 no_pair (looked_at request) }
{
    let n = usize::from(pair_count(request));
    let mut pairs = [Pair::default(); Grant::ENTRIES];
    pairs[..n].copy_from_slice(&request.pairs[..n]);
    pairs
}

// What an install with this request is granted, whatever its number.
pub fn granted(request: Request) -> Grant
    ensures { (n : ℕ) → result ≡ grant_of (newcomer n request) }
{
    let entries = pair_count(request);
    let pairs = looked_at(request);
    Grant {
        priority: request.priority,
        timers: request.timers,
        text: request.text,
        entries,
        pairs,
    }
}

// Whether one of the pairs requests an identifier.
fn asks(pairs: &[Pair], identifier: u8) -> bool
    ensures { result ≡ some? (asks_for identifier) pairs.now }
{
    pairs.iter().any(|p| p.identifier == identifier)
}

// Whether an applet present requests an identifier.
fn is_taken(grants: &[Grant], identifier: u8) -> bool
    ensures { result ≡ some? (has_requested identifier) grants.now }
{
    grants.iter().any(|g| asks(&g.pairs, identifier))
}

// Whether an identifier is not zero, and requested by one of the pairs or by an applet present.
fn is_repeated(grants: &[Grant], pairs: &[Pair], identifier: u8) -> bool
    ensures { result ≡ (not (identifier == 0) && (in? identifier (requested pairs.now) || in? identifier (taken grants.now))) }
{
    identifier != 0 && (asks(pairs, identifier) || is_taken(grants, identifier))
}

// Refusal 6: a non-zero identifier is requested twice, here or by an applet present.
fn clashes(grants: [Grant; Roll::APPLETS], pairs: [Pair; Grant::ENTRIES]) -> bool
    ensures { result ≡ repeats? (requested pairs) (taken grants) }
{
    for (i, p) in pairs.iter().enumerate() {
        if is_repeated(&grants, &pairs[i + 1..], p.identifier) {
            return true;
        }
    }
    false
}

// Whether one of the pairs requests an identifier over 127.
fn is_over(pairs: [Pair; Grant::ENTRIES]) -> bool
    ensures { result ≡ some? (λ (p : pair.Pair). 127 <? p.identifier) pairs }
{
    pairs.iter().any(|p| 127 < p.identifier)
}

// Refusal 4: priority 0, limit too large, identifier over 127.
fn is_out_of_range(request: Request, pairs: [Pair; Grant::ENTRIES]) -> bool
    requires { pairs ≡ padded 4 no_pair (looked_at request) }
    ensures { result ≡ out_of_range document request }
{
    if request.priority == 0 {
        return true;
    }
    if MOST_TIMERS < request.timers {
        return true;
    }
    if MOST_ENTRIES < request.entries {
        return true;
    }
    if MOST_TEXT < request.text {
        return true;
    }
    is_over(pairs)
}

// The sum of the entry limits of all applets.
fn total(grants: [Grant; Roll::APPLETS]) -> u32
    ensures { (result ≡ sum limit grants) × (result < 2048) }
{
    let mut limits = 0;
    for g in &grants {
        limits += u32::from(g.entries);
    }
    limits
}

// Whether a number is an applet's.
#[tactic(auto, unfolding(rules::specs::Applets::is_number))]
fn is_number(applet: u8) -> bool
    ensures { result ≡ is_number document applet }
{
    1 <= applet && applet <= LAST_APPLET
}

// The refusal of an install.
pub fn install_refusal(roll: Roll, applet: u8, request: Request) -> Result<(), Refused>
    ensures { RefusesInstall roll applet request (refusal_number result) }
{
    Refused::NoApplet.when(!is_number(applet))?;
    Refused::NumberInUse.when(sets::has(roll.present, applet))?;
    let pairs = looked_at(request);
    Refused::OutOfRange.when(is_out_of_range(request, pairs))?;
    let grants = roll.grants;
    let entries = total(grants) + u32::from(request.entries);
    Refused::TooManyEntries.when(MOST_ROWS < entries)?;
    Refused::IdentifierTwice.when(clashes(grants, pairs))
}
