// The one writer of bytes: all that is written into a lent buffer goes through it, and what the card holds of bytes:
// titles, texts and profiles, each in its place with zeros behind.
#![tactic(auto)]

ghost use Rattle.std.specs.Prelude.{◌+◌, ◌≤◌, ◌≡◌, length, take};
ghost use Rattle.std.specs.Prelude.{if◌then◌else◌};
ghost use Rattle.lists.specs.Lists.{padded};
ghost use Rattle.lists.specs.Wrote.{Wrote};
ghost use Rattle.writing.specs.Puts.{Room, Puts};

// The bytes of s from index at on; the index behind them.
// With an index, which `held` needs: no proof learns what an array holds that was lent to an Out (tried with a local Out and a passing one).
#[tactic(auto, using(lists::proofs::WrittenParts::wrote_over))]
pub fn put(buf: &mut [u8], at: usize, s: &[u8]) -> usize
    requires { at + length s.now ≤ length buf.old }
    ensures { Wrote buf.old at s.now buf.new result }
{
    let end = at + s.len();
    buf[at..end].copy_from_slice(s);
    end
}

// The place in a lent buffer that the next byte is written at.
#[derive(Drop)]
pub struct Out<'a> {
    pub buf: &'a mut [u8],
    pub at: usize,
}

impl<'a> Out<'a> {
    // The front of the buffer.
    pub fn new(buf: &'a mut [u8]) -> Out<'a>
        ensures same_buffer { result.buf.ghost_name ≡ buf.entry.ghost_name }
        ensures untouched { result.buf.now ≡ buf.old }
        ensures front { result.at ≡ 0 }
    {
        Out { buf, at: 0 }
    }

    // The bytes of s, and on to the place behind them.
    pub fn put(&mut self, s: &[u8])
        requires { Room self.old (length s.now) }
        ensures { Puts self.old s.now self.new }
    {
        self.at = put(self.buf, self.at, s);
    }
}

// The qualifier of a menu command: 80 for the help mark.
pub fn qualifier(help: bool) -> u8
    ensures { result ≡ (if help then 0x80 else 0x00) }
{
    if help { 0x80 } else { 0x00 }
}

// The first N bytes, as what holds N of them: zeros behind a shorter text.
pub fn held<const N: usize>(bytes: &[u8]) -> [u8; N]
    ensures { result ≡ padded N 0 (take N bytes.now) }
{
    let n = N.min(bytes.len());
    let mut held = [0; N];
    put(&mut held, 0, &bytes[..n]);
    held
}
