//! A ring over a source that counts no steps is served as well.

use buffered::BufferedInput;
use player::{Desk, Lines, serve};
use source::TextChars;
use std::fmt::Display;
use std::io;
use std::test::*;

/// Takes this text alone.
struct Expected(&'static [u8]);

impl Print for Expected {
    fn print<D: Display + Drop>(&self, _value: D) -> io::Result<()> {
        Err(io::Error::other("a value"))
    }

    fn println<D: Display + Drop>(&self, _value: D) -> io::Result<()> {
        Err(io::Error::other("a value"))
    }

    fn write_all(&self, bytes: &[u8]) -> io::Result<()> {
        if bytes != self.0 {
            return Err(io::Error::other("another text"));
        }
        Ok(())
    }
}

#[test]
fn a_plain_ring(rt: HostRuntime) -> Result<(), Fail> {
    let source = TextChars::of(b"ab")?;
    let mut ring = BufferedInput::new(source);
    let mut lines = Lines::new(b"look_ch\nsteps\nnew slice 61\nclose\n");
    let mut desk = Desk::new(rt.alloc())?;
    let asked = serve(&rt, &mut ring, &mut lines, &mut desk)?;
    assert_eq!(rt; asked, Some("new slice 61".as_bytes()));
    assert_eq!(rt; lines.take_line(), Some("close".as_bytes()));
    desk.flush(&Expected(b"61\nnone\n"))?;
    Ok(())
}
