// The call that a record of the floor program makes, known by its letter, and the arguments that the call takes.
// What a record makes stands in `rules`, specs/Floor.antt.
#![tactic(auto)]

pub mod values;

ghost use Rattle.std.specs.Prelude.{◌≡◌, ◌==◌, length};
ghost use Rattle.std.specs.List.{list_all};
ghost use Rattle.rules.specs.Floor.{filled, order_by};
ghost use Rattle.floor_orders.specs.Orders.{arguments_of, marks_help, makes_call, call_letter};

use texts::{byte_at, first, from};

// The arguments of a record, a part of it: as many bytes as it counts, or as there are.
pub fn arguments(bytes: &[u8]) -> &[u8]
    ensures { result.now ≡ arguments_of bytes.now }
{
    let n = byte_at(bytes, 2) as usize;
    first(from(bytes, 3), n)
}

// All of the bytes are 00.
fn are_blank(bytes: &[u8]) -> bool
    ensures { result ≡ list_all (λ x. x == 0) bytes.now }
{
    bytes.iter().all(|b| *b == 0)
}

// The record is whole, counts at most 20 arguments, and holds 00 behind them.
fn is_filled(bytes: &[u8]) -> bool
    ensures { result ≡ filled bytes.now }
{
    if bytes.len() != 24 {
        return false;
    }
    let n = bytes[2] as usize;
    if 20 < n {
        return false;
    }
    are_blank(from(bytes, n + 3))
}

// A help mark, 0 or 1, stands first.
#[tactic(auto, unfolding(crate::specs::Orders::marks_help))]
fn marks_help(arguments: &[u8]) -> bool
    ensures { result ≡ marks_help arguments.now }
{
    arguments.first().is_some_and(|mark| *mark <= 1)
}

// The letter is known, and takes this applet, or none, 0, and these arguments.
fn is_call(letter: u8, applet: u8, arguments: &[u8]) -> bool
    ensures { result ≡ makes_call (order_by letter applet (length arguments.now) arguments.now) }
{
    let n = arguments.len();
    match letter {
        b'I' => n == 12,
        b'M' => marks_help(arguments),
        b'E' | b'C' => n == 2,
        b'P' | b'S' => applet == 0,
        b'O' | b'W' | b'R' => n == 0 && applet == 0,
        b'N' => n == 0 && applet == 0,
        b'T' => n == 0,
        b'D' | b'L' | b'U' => n == 0,
        _ => false,
    }
}

// The letter of the call that a record makes, if it makes one; any bytes are a record, and all but 24 make none. Its letter names a call, for
// the line shows it also where none is made.
pub fn call_letter(bytes: &[u8]) -> Option<u8>
    ensures { result ≡ call_letter bytes.now }
{
    let letter = byte_at(bytes, 0);
    if is_filled(bytes) && is_call(letter, byte_at(bytes, 1), arguments(bytes)) {
        Some(letter)
    } else {
        None
    }
}
