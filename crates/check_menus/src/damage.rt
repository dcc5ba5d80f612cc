// A menu command with one thing wrong, and the same for each place where it can be wrong.
// What is counted is how many were tried and how many of them the reader refuses.
ghost use Rattle.std.specs.Prelude.{◌+◌, ◌<◌, ◌≤◌, length};

use std::io::Write;
use telling::put;
use texts::byte_at;

// How a byte is changed.
#[derive(Clone, Copy)]
enum Way {
    Up,
    Down,
    Turned(u8),
    To(u8),
}

impl Way {
    fn changed(self, old: u8) -> u8 {
        match self {
            Way::Up => old.wrapping_add(1),
            Way::Down => old.wrapping_sub(1),
            Way::Turned(bits) => old ^ bits,
            Way::To(b) => b,
        }
    }
}

// The byte of an element that is changed: its tag, its length, the first of its value.
#[derive(Clone, Copy)]
enum Part {
    Tag,
    Length,
    Value,
}

impl Part {
    fn place(self) -> usize
        ensures { result ≤ 2 }
    {
        match self {
            Part::Tag => 0,
            Part::Length => 1,
            Part::Value => 2,
        }
    }
}

#[derive(Clone, Copy, Default)]
struct Tried {
    count: u64,
    refused: u64,
}

impl Tried {
    // One more: the command as it is.
    fn add(&mut self, s: &[u8]) {
        let refusal = menu_reader::read_menu(s).refusal;
        self.count = self.count.wrapping_add(1);
        self.refused = self.refused.wrapping_add(refusal as u64);
    }

    // One more: the command with the byte at a position changed, if there is one.
    fn add_changed(&mut self, s: &mut [u8], at: usize, way: Way) {
        if s.len() <= at {
            return;
        }
        let old = s[at];
        s[at] = way.changed(old);
        self.add(s);
        s[at] = old;
    }

    // The command with one byte of each element from a position on changed.
    fn add_elements(&mut self, s: &mut [u8], from: usize, part: Part, way: Way) {
        let mut at = from;
        // each turn goes on by an element's length
        while at < s.len() {
            self.add_changed(s, at + part.place(), way);
            at = past(s, at);
        }
    }
}

fn as_it_is(s: &[u8]) -> Tried {
    let mut tried = Tried::default();
    tried.add(s);
    tried
}

// The command with each byte at the position behind it.
fn behind(s: &mut [u8], end: usize) -> Tried {
    let mut tried = Tried::default();
    for b in 0..=u8::MAX {
        tried.add_changed(s, end, Way::To(b));
    }
    tried
}

// The command with each of its bytes changed.
fn each_byte(s: &mut [u8], way: Way) -> Tried {
    let mut tried = Tried::default();
    for at in 0..s.len() {
        tried.add_changed(s, at, way);
    }
    tried
}

fn each_element(s: &mut [u8], from: usize, part: Part, way: Way) -> Tried {
    let mut tried = Tried::default();
    tried.add_elements(s, from, part, way);
    tried
}

// Each length, the command's own first.
fn each_length(s: &mut [u8], way: Way) -> Tried {
    let value = value_at(s);
    let mut tried = Tried::default();
    tried.add_changed(s, value - 1, way);
    tried.add_elements(s, value, Part::Length, way);
    tried
}

// The position behind the element at a position.
fn past(s: &[u8], at: usize) -> usize
    requires { at ≤ length s.now + 300 }
    ensures { (at < result) × (result ≤ at + 257) }
{
    at + 2 + byte_at(s, at + 1) as usize
}

// Where the value starts.
fn value_at(s: &[u8]) -> usize
    ensures { (2 ≤ result) × (result ≤ 3) }
{
    if byte_at(s, 1) == 0x81 { 3 } else { 2 }
}

// Where the items start, behind the title.
fn items_at(s: &[u8]) -> usize
    ensures { result ≤ 269 }
{
    past(s, value_at(s) + 9)
}

// Writes how many were tried and refused of a kind of damage.
fn told(to: &mut impl Write, kind: &str, tried: Tried) {
    put(to, "  ");
    put(to, kind);
    put(to, tried.refused);
    put(to, " of ");
    put(to, tried.count);
    put(to, " refused\n");
}

// The items, where there are any.
fn tell_items(to: &mut impl Write, s: &mut [u8]) {
    let items = items_at(s);
    if byte_at(s, items + 1) == 0 {
        return;
    }
    let first = byte_at(s, items + 2);
    let second = past(s, items);
    told(
        to,
        "identifier twice: ",
        each_element(s, second, Part::Value, Way::To(first)),
    );
    told(
        to,
        "item with length 0: ",
        each_element(s, items, Part::Length, Way::To(0)),
    );
}

// Every kind of damage that leaves the command its size.
fn tell_kinds(to: &mut impl Write, s: &mut [u8]) {
    told(to, "length one more: ", each_length(s, Way::Up));
    told(to, "length one less: ", each_length(s, Way::Down));
    let value = value_at(s);
    told(
        to,
        "flag missing: ",
        each_element(s, value, Part::Tag, Way::Turned(0x80)),
    );
    tell_items(to, s);
    told(to, "lowest bit turned: ", each_byte(s, Way::Turned(1)));
    told(to, "highest bit turned: ", each_byte(s, Way::Turned(0x80)));
}

// Every kind of damage to the first n bytes.
pub fn tell(to: &mut impl Write, out: &mut [u8], n: usize)
    requires { (1 ≤ n) × (n < length out.old) }
{
    let less = n - 1;
    let more = n + 1;
    told(to, "a byte less: ", as_it_is(&out[..less]));
    told(to, "a byte behind: ", behind(&mut out[..more], n));
    tell_kinds(to, &mut out[..n]);
}
