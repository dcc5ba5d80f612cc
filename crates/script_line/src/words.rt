// The words of a line, and the numbers that they stand for.
// A word ends at a space, at a tab, or at a '#', which starts a comment.
ghost use Rattle.std.specs.Prelude.{◌≡◌, ◌<◌, ◌≤◌, [], length, IfSome, MatchOption};
ghost use Rattle.std.specs.List.{prefix_len};
ghost use Rattle.script_line.specs.Words.{space?, in_word?, skipped, word, behind, ended?, nibble_of, joined, decimal_of, minus, plus, signed_of};

use crate::Cause;

// Whether a byte stands between words.
fn is_space(b: u8) -> bool
    ensures { result ≡ space? b }
{
    b == b' ' || b == b'\t'
}

// Whether a byte is one of a word.
fn in_word(b: u8) -> bool
    ensures { result ≡ in_word? b }
{
    b != b'#' && !is_space(b)
}

// A space, a comment or nothing stands at the front of a line.
pub(crate) fn is_end(line: &[u8]) -> bool
    ensures { result ≡ ended? line.now }
{
    match line {
        [] | [b'#', ..] => true,
        [b, ..] => is_space(*b),
    }
}

// How many bytes at the front of a line stand between words.
fn spaces(line: &[u8]) -> usize
    ensures count { result ≡ prefix_len space? line.now }
    ensures within { result ≤ length line.now }
{
    line.iter().take_while(|b| is_space(**b)).count()
}

// How many bytes the word has that a line starts with.
fn word_len(line: &[u8]) -> usize
    ensures count { result ≡ prefix_len in_word? line.now }
    ensures within { result ≤ length line.now }
{
    line.iter().take_while(|b| in_word(**b)).count()
}

// What is left of a line behind its spaces: nothing where a comment starts.
pub(crate) fn skip_spaces(line: &[u8]) -> &[u8]
    ensures { result.now ≡ skipped line.now }
{
    match &line[spaces(line)..] {
        [b'#', ..] => &[],
        left => left,
    }
}

// The word that a line starts with, and what is left behind it.
#[tactic(auto, unfolding(crate::specs::Words::word, crate::specs::Words::behind))]
fn split_word(line: &[u8]) -> (&[u8], &[u8])
    ensures front { result.0.now ≡ word line.now }
    ensures back { result.1.now ≡ behind line.now }
{
    line.split_at(word_len(line))
}

// The next word of a line, and what is left behind it, if there is one.
pub(crate) fn next_word(line: &[u8]) -> Option<(&[u8], &[u8])>
    ensures { MatchOption result
        (skipped line.now ≡ [])
        (λ next. (0 < length (skipped line.now)) × (next.0.now ≡ word (skipped line.now)) × (next.1.now ≡ behind (skipped line.now))) }
{
    match skip_spaces(line) {
        [] => None,
        start => Some(split_word(start)),
    }
}

// The value of a hexadecimal digit of either case.
#[tactic(auto, unfolding(crate::specs::Words::nibble_of))]
fn nibble(b: u8) -> Option<u8>
    ensures value { result ≡ nibble_of b }
    ensures small { IfSome result (λ n. n < 16) }
{
    match b {
        b'0'..=b'9' => Some(b - b'0'),
        b'A'..=b'F' => Some(b - b'A' + 10),
        b'a'..=b'f' => Some(b - b'a' + 10),
        _ => None,
    }
}

// The byte that two hexadecimal digits give.
#[tactic(auto, unfolding(crate::specs::Words::joined))]
pub(crate) fn byte(high: u8, low: u8) -> Result<u8, Cause>
    ensures { result ≡ joined (nibble_of high) (nibble_of low) }
{
    let high = nibble(high).ok_or(Cause::BadByte)?;
    let low = nibble(low).ok_or(Cause::BadByte)?;
    Ok(high * 16 + low)
}

// The number that decimal digits give, up to 65535.
pub(crate) fn decimal(word: &[u8]) -> Result<u32, Cause>
    ensures { result ≡ decimal_of word.now }
{
    if word.is_empty() {
        return Err(Cause::BadNumber);
    }
    let mut value = 0;
    for b in word {
        if !b.is_ascii_digit() {
            return Err(Cause::BadNumber);
        }
        value = value * 10 + u32::from(*b - b'0');
        if 65535 < value {
            return Err(Cause::LargeNumber);
        }
    }
    Ok(value)
}

// The 16 bits of a number that a minus stands before.
#[tactic(auto, unfolding(crate::specs::Words::minus))]
fn negative(n: u32) -> Result<u16, Cause>
    ensures { result ≡ minus (Ok n) }
{
    if 32768 < n {
        return Err(Cause::LargeNumber);
    }
    Ok((n as u16).wrapping_neg())
}

// The 16 bits of a number that no minus stands before.
#[tactic(auto, unfolding(crate::specs::Words::plus))]
fn positive(n: u32) -> Result<u16, Cause>
    ensures { result ≡ plus (Ok n) }
{
    if 32767 < n {
        return Err(Cause::LargeNumber);
    }
    Ok(n as u16)
}

// The 16 bits of a signed decimal number from -32768 to 32767.
#[tactic(auto, unfolding(crate::specs::Words::signed_of))]
pub(crate) fn signed(word: &[u8]) -> Result<u16, Cause>
    ensures { result ≡ signed_of word.now }
{
    match word {
        [b'-', digits @ ..] => negative(decimal(digits)?),
        _ => positive(decimal(word)?),
    }
}
