// The line of a record of the floor program, written at the front of a lent buffer.
// What a line holds stands in `rules`, specs/Floor.antt.
#![tactic(auto)]

ghost use Rattle.std.specs.Prelude.{◌≡◌, ℕ, ◌+◌, ◌*◌, ◌^◌, ◌<◌, ◌≤◌, length};
ghost use Rattle.std.specs.Prelude.{if◌then◌else◌};
ghost use Rattle.lists.specs.Lists.{in?};
ghost use Rattle.lists.specs.Wrote.{Wrote};
ghost use Rattle.writing.specs.Puts.{Room, Puts};
ghost use Rattle.rules.specs.Floor.{letters, decimal, hex, line_of};
ghost use Rattle.rules.specs.Floor.{digit as character_of};
ghost use Rattle.floor_lines.specs.Texts.{Spells, refusal_text, answer_text};

use writing::Out;

// The character of a digit, to F.
fn digit(n: u8) -> u8
    requires { n < 16 }
    ensures { result ≡ character_of n }
{
    if n < 10 { b'0' + n } else { b'A' + (n - 10) }
}

// A number in decimal; printed by hand, for a line has no heap, and the kit's printer would bring a second decimal beside the rules'.
pub fn put_decimal(out: &mut Out, n: u64)
    requires { Room out.old (length (decimal n)) }
    ensures { Puts out.old (decimal n) out.new }
{
    if n >= 10 {
        put_decimal(out, n / 10);
    }
    out.put(&[digit((n % 10) as u8)]);
}

// A number in decimal at the front of the buffer; how many digits it has.
fn write_decimal(buf: &mut [u8], n: u64) -> usize
    requires { length (decimal n) ≤ length buf.old }
    ensures { Wrote buf.old 0 (decimal n) buf.new result }
{
    let mut out = Out::new(buf);
    put_decimal(&mut out, n);
    out.at
}

// A number and its decimal digits, at the front of an array of which the last digit is counted on in place.
#[derive(Clone, Copy)]
pub struct Counter {
    pub number: u64,
    pub digits: [u8; 20],
    pub len: usize,
    ghost spelled: { Spells number digits len },
}

impl Counter {
    pub fn new(number: u64) -> Counter
        ensures { result.number ≡ number }
    {
        let mut digits = [0; 20];
        let len = write_decimal(&mut digits, number);
        Counter {
            number,
            digits,
            len,
        }
    }

    // The digits of the number.
    pub fn text(&self) -> &[u8]
        ensures { result.now ≡ decimal self.now.number }
    {
        &self.digits[..self.len]
    }

    // The next number, of which most often just the last digit is another.
    pub fn count_on(&mut self)
        requires { self.old.number + 1 < 2 ^ 64 }
        ensures { self.new.number ≡ self.old.number + 1 }
    {
        let end = self.len - 1;
        let last = self.digits[end];
        let next = self.number + 1;
        let only_last = last < b'9';
        if only_last {
            self.digits[end] = last + 1;
        } else {
            self.len = write_decimal(&mut self.digits, next);
        }
        self.number = next;
    }
}

// Bytes in upper hex.
fn put_hex(out: &mut Out, bytes: &[u8])
    requires { Room out.old (2 * length bytes.now) }
    ensures { Puts out.old (hex bytes.now) out.new }
{
    for b in bytes {
        out.put(&[digit(*b / 16), digit(*b % 16)]);
    }
}

// The letter, or ? where it is not known.
fn shown_letter(letter: u8) -> u8
    ensures { result ≡ (if in? letter letters then letter else 63) }
{
    if b"IMECPSONWRTDLU".contains(&letter) {
        letter
    } else {
        b'?'
    }
}

// The refusal's number in decimal, or - where no call was made.
fn put_refusal(out: &mut Out, refusal: Option<u8>)
    requires { Room out.old 3 }
    ensures { Puts out.old (refusal_text refusal) out.new × (out.new.at ≤ out.old.at + 3) }
{
    match refusal {
        Some(number) => put_decimal(out, number as u64),
        None => out.put(b"-"),
    }
}

// The answer in upper hex, or - where it is empty.
fn put_answer(out: &mut Out, answer: &[u8])
    requires { Room out.old (length (answer_text answer.now)) }
    ensures { Puts out.old (answer_text answer.now) out.new }
{
    if answer.is_empty() {
        out.put(b"-");
    } else {
        put_hex(out, answer);
    }
}

// The line of a record, whose number is spelled, at the front of the buffer; how many bytes it has. With no refusal, no call was made.
pub fn write_line(
    buf: &mut [u8],
    number: &[u8],
    letter: u8,
    refusal: Option<u8>,
    answer: &[u8],
) -> usize
    requires { (length number.now ≤ 20) × (length answer.now ≤ 256) × (540 ≤ length buf.old) }
    ensures { (k : ℕ) → number.now ≡ decimal k → Wrote buf.old 0 (line_of k letter (refusal_text refusal) answer.now) buf.new result }
{
    let mut out = Out::new(buf);
    out.put(number);
    out.put(&[b' ', shown_letter(letter), b' ']);
    put_refusal(&mut out, refusal);
    out.put(b" ");
    put_answer(&mut out, answer);
    out.put(b"\n");
    out.at
}
