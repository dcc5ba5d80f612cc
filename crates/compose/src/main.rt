// Turns a script on standard input into records of the floor program on standard output.
// It stops at the first bad line, with a message on standard error.
#![tactic(auto)]

ghost use Rattle.std.specs.Prelude.{◌≤◌};
ghost use Rattle.compose.specs.declared.TheConstants.{TEXT};

use script::Stop;
use script_line::Cause;
use std::io::{Read, Write};
use telling::put;

// Bytes of text that are held at once, and bytes of records that are written at once.
const TEXT: usize = 4096;

const RECORDS: usize = 65536;

// Why a run ends before its input does.
#[derive(Clone, Copy)]
enum Fault {
    Input,
    Output,
    Line(u64, Cause),
}

// What is kept from one read to the next: how many bytes of a line that has not ended, and how many lines came before it.
#[derive(Clone, Copy)]
struct Rest {
    kept: usize,
    lines: u64,
    ghost held: { kept ≤ TEXT },
}

// Reads once, writes the records of the lines that are whole, and keeps what is left of the text, if anything may follow.
fn turn<I: Read, O: Write>(
    input: &mut I,
    output: &mut O,
    text: &mut [u8; TEXT],
    out: &mut [u8; RECORDS],
    rest: Rest,
) -> Result<Option<Rest>, Fault> {
    let kept = rest.kept;
    let n = input.read(&mut text[kept..]).map_err(|_| Fault::Input)?;
    let end = kept + n;
    let done = script::compose(&text[..end], out, n == 0);
    let wrote = done.records * 24;
    output.write_all(&out[..wrote]).map_err(|_| Fault::Output)?;
    let lines = rest.lines.wrapping_add(done.lines as u64);
    let stop = done
        .stop
        .map_err(|cause| Fault::Line(lines.wrapping_add(1), cause))?;
    if stop == Stop::End && n == 0 {
        return Ok(None);
    }
    text.copy_within(done.at..end, 0);
    Ok(Some(Rest {
        kept: end - done.at,
        lines,
    }))
}

// A proved loop has to end, and nothing says that the input does: so the turns are counted, up to a number that no run uses up.
fn run<I: Read, O: Write>(
    input: &mut I,
    output: &mut O,
    text: &mut [u8; TEXT],
    out: &mut [u8; RECORDS],
) -> Result<(), Fault> {
    let mut rest = Rest { kept: 0, lines: 0 };
    for _ in 0..u64::MAX {
        match turn(input, output, text, out, rest)? {
            Some(next) => rest = next,
            None => break,
        }
    }
    Ok(())
}

// Says why a run ended, each piece whatever became of the one before. Where no output is taken, nothing is said.
fn complain(told: &mut impl Write, fault: Fault) {
    match fault {
        Fault::Input => {
            put(told, "compose: standard input cannot be read\n");
        }
        Fault::Line(line, cause) => {
            put(told, "compose: line ");
            put(told, line);
            put(told, ": ");
            put(told, cause);
            put(told, "\n");
        }
        Fault::Output => {}
    }
}

fn main(rt: HostRuntime) {
    let mut text = [0; TEXT];
    let mut out = [0; RECORDS];
    if let Err(fault) = run(&mut rt.stdin(), &mut rt.stdout(), &mut text, &mut out) {
        complain(&mut rt.stderr(), fault);
    }
}
