// What the arguments of a record say: an event value, and what an install asks for.
ghost use Rattle.std.specs.Prelude.{◌≡◌, ◌+◌, ◌≤◌};
ghost use Rattle.rules.specs.Bytes.{byte};
ghost use Rattle.rules.specs.Floor.{signed, request_of};

use rules::{Pair, Request};
use texts::byte_at;

// The signed number that two bytes give.
pub fn signed_of(high: u8, low: u8) -> i16
    ensures { result ≡ signed high low }
{
    i16::from_be_bytes([high, low])
}

// The event value that bytes start with, high byte first.
pub fn value_of(bytes: &[u8]) -> i16
    ensures { result ≡ signed (byte bytes.now 0) (byte bytes.now 1) }
{
    signed_of(byte_at(bytes, 0), byte_at(bytes, 1))
}

fn pair_at(s: &[u8], at: usize) -> Pair
    requires { at ≤ 10 }
    ensures { result ≡ record { position = byte s.now at; identifier = byte s.now (at + 1) } }
{
    Pair {
        position: byte_at(s, at),
        identifier: byte_at(s, at + 1),
    }
}

// What the bytes of an install ask for.
pub fn request(bytes: &[u8]) -> Request
    ensures { result ≡ request_of bytes.now }
{
    // fewer bytes stand for 0 behind them
    let pairs = [
        pair_at(bytes, 4),
        pair_at(bytes, 6),
        pair_at(bytes, 8),
        pair_at(bytes, 10),
    ];
    Request {
        priority: byte_at(bytes, 0),
        timers: byte_at(bytes, 1),
        entries: byte_at(bytes, 2),
        text: byte_at(bytes, 3),
        pairs,
    }
}
