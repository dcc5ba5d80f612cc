// How a message says why a line is no record.
use crate::Cause;
use std::fmt;
use std::fmt::Display;

impl Display for Cause {
    fn fmt<W: fmt::Write>(&self, f: &mut fmt::Formatter<W>) -> fmt::Result {
        f.write_str(match self {
            Cause::UnknownLetter => "unknown letter",
            Cause::MissingApplet => "missing applet",
            Cause::MissingNumber => "missing number",
            Cause::BadNumber => "bad number",
            Cause::LargeNumber => "number too large",
            Cause::BadByte => "bad byte",
            Cause::ManyBytes => "too many bytes",
            Cause::OpenQuote => "unclosed quote",
            Cause::MissingSpace => "missing space",
            Cause::MissingHelp => "missing help byte",
            Cause::BadHelp => "help byte not 00 or 01",
            Cause::ExtraWord => "unexpected argument",
            Cause::LongLine => "line too long",
        })
    }
}
