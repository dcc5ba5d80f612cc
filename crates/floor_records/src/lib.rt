// The records of a piece of input obeyed, and their lines, one behind the other.
#![tactic(auto)]

ghost use Rattle.std.specs.Prelude.{◌≡◌, ◌+◌, ◌*◌, ◌^◌, ◌<◌, ◌≤◌, length};
ghost use Rattle.rules.specs.Calls.{accepted};
ghost use Rattle.rules.specs.Held.{stored_answer};
ghost use Rattle.card.specs.View.{view, Left};
ghost use Rattle.floor_records.specs.Pieces.{records_in, ObeysAll};

use card::{Card, Reply};
use floor_answers::write_answer;
use floor_lines::Counter;
use floor_orders::values::{request, value_of};
use floor_orders::{arguments, call_letter};
use texts::{byte_at, from};

// What a piece leaves: the card, the number of the next record, and how many bytes its lines have.
#[derive(Clone, Copy)]
pub struct AfterPiece {
    pub card: Card,
    pub number: u64,
    pub len: usize,
}

// Where a record makes no call: the card as it was, and no answer.
fn no_call(card: Card) -> Reply
    ensures { result ≡ record { card = card; answer = stored_answer accepted } }
{
    let answer = answers::refusal(Ok(()));
    Reply { card, answer }
}

// Obeys the records of a piece of input, the first of which has this number, and writes their lines at the front of the buffer.
pub fn obey_all(mut card: Card, number: u64, input: &[u8], out: &mut [u8]) -> AfterPiece
    requires { Left card × (number + records_in input.now < 2 ^ 64) × (540 * records_in input.now ≤ length out.old) }
    ensures { ObeysAll number (view card) input.now out.old out.new result }
{
    let mut command = [0; 256];
    let mut counter = Counter::new(number);
    let mut len = 0;
    for bytes in input.chunks(24) {
        let applet = byte_at(bytes, 1);
        let rest = arguments(bytes);
        let call = call_letter(bytes);
        let reply = match call {
            Some(b'I') => card.install(applet, request(rest)),
            Some(b'M') => card.new_entry(applet, byte_at(rest, 0) == 1, from(rest, 1)),
            Some(b'E') => card.set_event(applet, value_of(rest)),
            Some(b'C') => card.clear_event(applet, value_of(rest)),
            Some(b'P') => card.profile(rest),
            Some(b'S') => card.envelope(rest),
            Some(b'O') => card.settled(),
            Some(b'N') => card.next(),
            Some(b'W') => card.system_command(&mut command),
            Some(b'R') => card.response(),
            Some(b'T') => card.allocate(applet),
            Some(b'D') => card.delete(applet),
            Some(b'L') => card.lock(applet),
            Some(b'U') => card.unlock(applet),
            _ => no_call(card),
        };
        card = reply.card;
        let line = &mut out[len..len + 540];
        let letter = byte_at(bytes, 0);
        len += write_answer(line, counter.text(), letter, call, reply.answer, &command);
        counter.count_on();
    }
    AfterPiece {
        card,
        number: counter.number,
        len,
    }
}
