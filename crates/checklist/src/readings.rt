//! An input read to its end.

ghost use Rattle.std.specs.Prelude.{◌≡◌, [], IfOk};
ghost use Rattle.checklist.specs.Readings.{Drained, ReadOut};

use input::ticket::Reading;
use input::{Closing, Input};
use std::alloc::{AllocError, Global};

/// What a reading gave: its characters, and how it was closed.
#[derive(Drop)]
pub struct Taken {
    pub chars: Vec<char>,
    pub closing: Closing,
}

/// Takes all that is ahead.
fn drain<I: Input>(heap: Global, input: &mut I) -> Result<Vec<char>, AllocError>
    ensures { IfOk result (λ chars. Drained chars.items (I.view input.old) (I.view input.new)) }
{
    let mut chars = Vec::new(heap);
    while let Some(c) = input.next_ch() {
        chars.push(c)?;
        input.skip();
    }
    Ok(chars)
}

/// Opens a reading, takes all that is ahead, and closes it.
pub fn read_out<I: Input>(heap: Global, input: &mut I) -> Result<Taken, AllocError>
    ensures { IfOk result (λ taken. ReadOut taken.chars.items taken.closing (I.view input.old)) }
{
    let reading = Reading::open(input);
    let drained = drain(heap, input);
    let closing = reading.close(input);
    let chars = drained?;
    Ok(Taken { chars, closing })
}
