//! Reads settings from a text by slice and by ring, and prints what each gives.
#![tactic(auto)]

use anyhow::{Result, bail};
use reader::{ByteChars, Closing, FallibleBufferedInput, Reading, Refusal, Scan, StrInput};
use std::str;

/// Prints the settings of an input: a key, a colon and a number on each line.
fn print_settings<I: Scan>(rt: &HostRuntime, input: &mut I) -> Result<()> {
    let mut room = [0; 80];
    for _ in 0..u16::MAX {
        let end = input.fetch_block_scalar_line(&mut room, 0).into_result()?;
        if let Some(fault) = input.take_source_error() {
            return Err(Refusal::Source(fault).into());
        }
        match str::from_utf8(&room[..end])?.split_once(": ") {
            Some((key, number)) => println!(rt; "{key} = {}", number.parse::<u32>()?)?,
            None => break,
        }
        input.skip();
    }
    match Reading::open(input).close(input) {
        Closing::Whole => Ok(()),
        other => bail!("{other:?}"),
    }
}

fn main(rt: HostRuntime) -> Result<()> {
    let text = b"cone: 6\nrate: 150\n";
    print_settings(&rt, &mut StrInput::of(text)?)?;
    print_settings(&rt, &mut FallibleBufferedInput::new(ByteChars::of(text)?))
}
