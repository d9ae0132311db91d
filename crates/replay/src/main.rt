//! Reads commands from its standard input, one a line, performs them on inputs, and answers each in
//! a line.
#![tactic(auto)]

ghost use Rattle.std.specs.Prelude.{IfOk};
ghost use Rattle.player.specs.Lines.{Leaves};

mod kinds;
#[cfg(test)]
mod tests;

use kinds::{on, ring_of_bytes, ring_of_codes, ring_of_text, slice};
use player::{Desk, Lines, idle};
use protocol::{Make, Reply, parse_new};
use std::io;
use std::io::Read;
use std::process::ExitCode;

/// The list that begins with a line for a new input. Tells the line that asks for the next, or that
/// there is none.
fn list<'b>(
    rt: &HostRuntime,
    line: &[u8],
    lines: &mut Lines<'b>,
    desk: &mut Desk,
) -> io::Result<Option<&'b [u8]>>
    ensures { IfOk result (λ asked. Leaves lines.old.rest.now asked lines.new.rest.now) }
{
    match parse_new(rt.alloc(), line)? {
        None => {
            desk.begin(Reply::Bad)?;
            idle(rt, lines, desk)
        }
        Some(Make::Slice(bytes)) => on(rt, slice(bytes.as_slice()), lines, desk),
        Some(Make::Text(bytes)) => on(rt, ring_of_text(bytes.as_slice()), lines, desk),
        Some(Make::Bytes(bytes)) => on(rt, ring_of_bytes(bytes.as_slice()), lines, desk),
        Some(Make::Codes(codes, ending)) => {
            on(rt, ring_of_codes(codes.as_slice(), ending), lines, desk)
        }
    }
}

#[tactic(auto, using(crate::proofs::Turns::fewer))]
fn run(rt: &HostRuntime, text: &[u8]) -> io::Result<()> {
    let mut desk = Desk::new(rt.alloc())?;
    let mut lines = Lines::new(text);
    let mut asked = idle(rt, &mut lines, &mut desk)?;
    while let Some(line) = asked {
        asked = list(rt, line, &mut lines, &mut desk)?;
    }
    desk.flush(rt)
}

fn read_and_run(rt: &HostRuntime) -> io::Result<()> {
    let mut text = Vec::new(rt.alloc());
    let mut stdin = rt.stdin();
    stdin.read_to_end(&mut text)?;
    run(rt, text.as_slice())
}

/// Says in one line why it stopped.
fn report(rt: &HostRuntime, res: io::Result<()>) -> io::Result<()> {
    if let Err(e) = &res {
        eprintln!(rt; "replay: {e}")?;
    }
    res
}

fn main(rt: HostRuntime) -> ExitCode {
    match report(&rt, read_and_run(&rt)) {
        Ok(()) => ExitCode::SUCCESS,
        Err(_) => ExitCode::FAILURE,
    }
}
