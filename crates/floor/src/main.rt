// The floor program: obeys the records on standard input and writes a line for each.
// What its turns write is proved in `floor_records`; here bytes are moved.
#![tactic(auto)]

ghost use Rattle.std.specs.Prelude.{◌≡◌, ◌+◌, ◌^◌, ◌<◌, ◌≤◌, length};
ghost use Rattle.card.specs.View.{Left};
ghost use Rattle.floor.specs.Turned.{Turned};

use card::Card;
use floor_records::obey_all;
use std::io;
use std::io::{Read, Write};

// Where the program stands: the card, and the number of the next record.
#[derive(Clone, Copy)]
struct Stand {
    card: Card,
    number: u64,
}

// Reads until the buffer is full, the input ends or a read fails; how many bytes stand at its front.
// check_readers reads so too: a crate for these lines alone would be no plainer.
fn read_full(from: &mut impl Read, buf: &mut [u8]) -> usize
    ensures { result ≤ length buf.new }
{
    let mut done = 0;
    // each turn goes on by what was read
    while done < buf.len() {
        let n = from.read(&mut buf[done..]).unwrap_or(0);
        if n == 0 {
            break;
        }
        done += n;
    }
    done
}

// Obeys the records of a piece of input and writes their lines, by way of the lent buffer.
fn obey_piece<O: Write>(
    to: &mut O,
    stand: &mut Stand,
    piece: &[u8],
    out: &mut [u8; 276480],
) -> io::Result<()>
    requires { Left stand.old.card × (stand.old.number + 512 < 2 ^ 64) × (length piece.now ≤ 12288) }
    ensures { Turned stand.old.card stand.old.number piece.now stand.new }
{
    let run = obey_all(stand.card, stand.number, piece, out);
    stand.card = run.card;
    stand.number = run.number;
    to.write_all(&out[..run.len])
}

// A proved loop has to end, and nothing says that the input does: the turns are more than any input has pieces, and the numbers of their records fit.
fn obey_input<I: Read, O: Write>(from: &mut I, to: &mut O, card: Card) -> io::Result<()>
    requires { Left card }
{
    let mut stand = Stand { card, number: 1 };
    let mut input = [0; 12288];
    let mut out = [0; 276480];
    for _ in 0..u64::MAX / 512 {
        let n = read_full(from, &mut input);
        if n == 0 {
            break;
        }
        obey_piece(to, &mut stand, &input[..n], &mut out)?;
    }
    Ok(())
}

// With nobody to read its lines the program ends as it does behind the last.
fn main(rt: HostRuntime) {
    let made = Card::fresh(&[]);
    let _ = obey_input(&mut rt.stdin(), &mut rt.stdout(), made.card);
}
