// A text told in pieces, each tried whatever became of the one before, where a `write!` of several ends at the first that is not taken.
#![tactic(auto)]

ghost use Rattle.std.specs.Prelude.{◌≡◌, true, IfSome};
ghost use Rattle.std.specs.Io.KnownBytes.{Appends};

use std::fmt::Display;
use std::io::Write;

// Writes all of a piece, or as much of it as is taken, and says whether it was all: then the bytes that the writer holds have grown by its text.
pub fn put<W: Write, D: Display + Drop>(to: &mut W, piece: D) -> bool
    ensures { result ≡ true → IfSome (D.output piece) (Appends (W.contents to.old) (W.contents to.new)) }
{
    write!(to, "{piece}").is_ok()
}
