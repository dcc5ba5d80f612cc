// Parts of bytes: what stands at a place, from a place on, up to a place, where a byte stands; and the lines of a text.
// Nothing is asked of a place: behind the end there is nothing.
#![tactic(auto)]

ghost use Rattle.std.specs.Prelude.{◌≡◌, ◌==◌, ◌+◌, ◌≤◌, [], length, get_or, take, drop, slice_range};
ghost use Rattle.std.specs.List.{position, position_or_len, slice_split};

// The bytes from a place on, or none behind the end.
pub fn from(bytes: &[u8], at: usize) -> &[u8]
    ensures { result.now ≡ drop at bytes.now }
{
    &bytes[at.min(bytes.len())..]
}

// The first bytes, so many or as many as there are.
pub fn first(bytes: &[u8], n: usize) -> &[u8]
    ensures { result.now ≡ take n bytes.now }
{
    &bytes[..n.min(bytes.len())]
}

// The byte at an index, or 0 behind the end.
pub fn byte_at(s: &[u8], at: usize) -> u8
    ensures { result ≡ get_or s.now at 0 }
{
    s.get(at).copied().unwrap_or(0)
}

// The first place of a byte, if it is there.
pub fn place(bytes: &[u8], byte: u8) -> Option<usize>
    ensures { result ≡ position (λ b. b == byte) bytes.now }
{
    bytes.iter().position(|b| *b == byte)
}

// The first place of a byte from a place on and before another, or that other where there is none.
pub fn find(bytes: &[u8], from: usize, to: usize, byte: u8) -> usize
    requires ordered { from ≤ to }
    requires within { to ≤ length bytes.now }
    ensures place { result ≡ from + position_or_len (λ b. b == byte) (slice_range bytes.now from to) }
    ensures low { from ≤ result }
    ensures high { result ≤ to }
{
    match place(&bytes[from..to], byte) {
        Some(n) => from + n,
        None => to,
    }
}

// The line at a place, counted from 0, without its line feed; nothing where there are fewer lines.
pub fn line_at(text: &[u8], place: usize) -> &[u8]
    ensures { result.now ≡ get_or (slice_split (λ b. b == 0x0A) text.now) place [] }
{
    text.split(|b| *b == b'\n').nth(place).unwrap_or(&[])
}
