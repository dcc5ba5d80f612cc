// The requests for poll intervals, by applet number: who requests one, the system interval, and what of polling is due.
// What they mean stands in specs/Polls.antt.
#![tactic(auto)]

ghost use Rattle.std.specs.Prelude.{◌≡◌, not, false};
ghost use Rattle.std.specs.Prelude.{if◌then◌else◌, ◌==◌};
ghost use Rattle.sets.specs.Sets.{switched_set};
ghost use Rattle.rules.specs.Applets.{seconds_of};
ghost use Rattle.applets.specs.ByNumber.{table_with};
ghost use Rattle.polling.specs.Polls.{polling_set, shorter_of, interval_of, polling_after};

use rules::Roll;

// The requests for poll intervals by applet number, and the set of those that count: the selectable ones.
#[derive(Clone, Copy)]
pub struct Requests {
    pub polls: [u16; Roll::APPLETS],
    pub set: u8,
}

// Which of POLL INTERVAL and POLLING OFF is due.
#[derive(Clone, Copy)]
pub struct Polling {
    pub interval: bool,
    pub off: bool,
}

// The seconds that a duration requests; none for the card's choice.
pub fn seconds_of(duration: i16) -> u16
    ensures { result ≡ seconds_of duration }
{
    u16::try_from(duration).unwrap_or(0)
}

// Those who request an interval.
pub fn polling_set(polls: [u16; Roll::APPLETS]) -> u8
    ensures { result ≡ polling_set polls }
{
    let mut set = 0;
    for i in (0..Roll::APPLETS).rev() {
        set = set * 2 + u8::from(polls[i] != 0);
    }
    set
}

// Of two intervals the shorter; 0 is none, as in C's card.
fn shorter(one: u16, other: u16) -> u16
    ensures { result ≡ shorter_of one other }
{
    if one == 0 {
        other
    } else if other == 0 {
        one
    } else {
        one.min(other)
    }
}

// What counts of a request.
fn counted(counts: bool, seconds: u16) -> u16
    ensures { result ≡ (if counts then seconds else 0) }
{
    if counts { seconds } else { 0 }
}

impl Requests {
    // The system interval.
    pub fn interval(self) -> u16
        ensures { result ≡ interval_of self.polls self.set }
    {
        let mut least = 0;
        for i in (0..Roll::APPLETS).rev() {
            if sets::has(self.set, i as u8 + 1) {
                least = shorter(self.polls[i], least);
            }
        }
        least
    }

    // Whether there is a system interval.
    pub fn any(self) -> bool
        ensures { result ≡ not (interval_of self.polls self.set == 0) }
    {
        self.interval() != 0
    }

    // The system interval of the others.
    fn without(self, applet: u8) -> u16
        ensures { result ≡ interval_of self.polls (switched_set self.set applet false) }
    {
        let mut rest = self;
        rest.set = sets::switched(self.set, applet, false);
        rest.interval()
    }
}

impl Polling {
    // What is due after the interval turned, or did not.
    fn after(self, session: bool, before: u16, after: u16) -> Polling
        ensures { result ≡ polling_after session self.interval self.off before after }
    {
        if session && before != after {
            Polling {
                interval: after != 0,
                off: after == 0,
            }
        } else {
            self
        }
    }

    // What is due after what counts of one applet's request turned, or did not.
    fn after_turn(
        self,
        session: bool,
        requests: Requests,
        applet: u8,
        before: u16,
        after: u16,
    ) -> Polling
        ensures { result ≡ polling_after session self.interval self.off (shorter_of before (interval_of requests.polls (switched_set requests.set applet false))) (shorter_of after (interval_of requests.polls (switched_set requests.set applet false))) }
    {
        if before == after {
            return self;
        }
        let others = requests.without(applet);
        let was = shorter(before, others);
        let is = shorter(after, others);
        self.after(session, was, is)
    }

    // What is due after an applet became selectable, or locked.
    pub fn after_switch(self, session: bool, requests: Requests, applet: u8, on: bool) -> Polling
        ensures { result ≡ polling_after session self.interval self.off (interval_of requests.polls requests.set) (interval_of requests.polls (switched_set requests.set applet on)) }
    {
        let own = applets::by_number(0, &requests.polls, applet);
        let was = sets::has(requests.set, applet);
        self.after_turn(
            session,
            requests,
            applet,
            counted(was, own),
            counted(on, own),
        )
    }

    // What is due after an applet's request.
    pub fn after_request(
        self,
        session: bool,
        requests: Requests,
        applet: u8,
        seconds: u16,
    ) -> Polling
        ensures { result ≡ polling_after session self.interval self.off (interval_of requests.polls requests.set) (interval_of (table_with 0 requests.polls applet seconds) requests.set) }
    {
        let own = applets::by_number(0, &requests.polls, applet);
        let counts = sets::has(requests.set, applet);
        self.after_turn(
            session,
            requests,
            applet,
            counted(counts, own),
            counted(counts, seconds),
        )
    }
}
