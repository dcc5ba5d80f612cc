// The calls about menu entries: new, change, enable, disable. Each has one way through: a refused call leaves what was there.
// A row is known by its identifier; it is found, changed and told of in one pass over the rows.
ghost use Rattle.std.specs.Prelude.{◌≡◌};
ghost use Rattle.rules.specs.Calls.{entry, new_entry, change_entry, enable_entry, disable_entry};
ghost use Rattle.card.specs.View.{Left};
ghost use Rattle.card.specs.Replies.{Replies};
ghost use Rattle.card.specs.Switches.{enabling};

use crate::{Card, Reply, due_after};

impl Card {
    // Makes the applet's next entry: a row at its requested position, with its requested identifier or a free one.
    pub fn new_entry(self, applet: u8, help: bool, text: &[u8]) -> Reply
        requires { Left self }
        ensures { Replies self (entry (new_entry applet help text.now)) result }
    {
        let mut left = self;
        let there = sets::has(left.roll.present, applet);
        let grants = left.roll.grants;
        let grant = applets::grant_at(&grants, applet);
        let made = left.made;
        let count = applets::by_number(0, &made, applet);
        let fits = refusals::fits(grant.text, text);
        let refusal = refusals::new_refusal(there, grant.entries, count, fits);
        let mut identifier: u8 = 0;
        if refusal.is_ok() {
            let rows = left.rows;
            let pair = applets::next_pair(grant, count);
            let entered = menu_entries::entered(rows, pair, applet, help, text);
            identifier = entered.identifier;
            let next = entered.rows;
            let more = applets::table_with(made, applet, count + 1);
            let turns = sets::has(left.selectable, applet);
            let due = due_after(left.desk.session, left.desk.due.menu, turns);
            left.made = more;
            left.rows = next;
            left.desk.due.menu = due;
        }
        let answer = answers::number(refusal.and(Ok(identifier)));
        Reply { card: left, answer }
    }

    // Gives a row of the applet a new text and help mark.
    pub fn change_entry(self, applet: u8, identifier: u8, help: bool, text: &[u8]) -> Reply
        requires { Left self }
        ensures { Replies self (entry (change_entry applet identifier help text.now)) result }
    {
        let mut left = self;
        let there = sets::has(left.roll.present, applet);
        let shown = sets::has(left.selectable, applet);
        let grants = left.roll.grants;
        let grant = applets::grant_at(&grants, applet);
        let fits = refusals::fits(grant.text, text);
        let rows = left.rows;
        let worded = menu_entries::changed(rows, applet, identifier, fits, help, text);
        let due = due_after(left.desk.session, left.desk.due.menu, shown & worded.turns);
        let next = worded.rows;
        left.rows = next;
        left.desk.due.menu = due;
        let refusal = refusals::change_refusal(there, worded.its, fits);
        let answer = answers::refusal(refusal);
        Reply { card: left, answer }
    }

    // Enables a row of the applet.
    pub fn enable_entry(self, applet: u8, identifier: u8) -> Reply
        requires { Left self }
        ensures { Replies self (entry (enable_entry applet identifier)) result }
    {
        self.switch_entry::<true>(applet, identifier)
    }

    // Disables a row of the applet.
    pub fn disable_entry(self, applet: u8, identifier: u8) -> Reply
        requires { Left self }
        ensures { Replies self (entry (disable_entry applet identifier)) result }
    {
        self.switch_entry::<false>(applet, identifier)
    }

    // Enables or disables a row of the applet; an instance has one call site, as that of the lock.
    fn switch_entry<const ON: bool>(self, applet: u8, identifier: u8) -> Reply
        requires { Left self }
        ensures { Replies self (entry (enabling ON applet identifier)) result }
    {
        let mut left = self;
        let there = sets::has(left.roll.present, applet);
        let shown = sets::has(left.selectable, applet);
        let rows = left.rows;
        let touched = menu_entries::enabled(rows, applet, identifier, ON);
        let due = due_after(left.desk.session, left.desk.due.menu, shown & touched.turns);
        let next = touched.rows;
        left.rows = next;
        left.desk.due.menu = due;
        let refusal = refusals::row_refusal(there, touched.its);
        let answer = answers::refusal(refusal);
        Reply { card: left, answer }
    }
}
