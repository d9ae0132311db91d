//! The room that fetches have unless another was asked for.

ghost use Rattle.std.specs.Prelude.{◌≡◌, ◌-◌, ◌≤◌, length, drop, vec_items};
ghost use Rattle.player.specs.Untouched.{untouched, usual_size};

use crate::play::fetch_line;
use crate::rooms::{UNTOUCHED, clean_bytes};
use calls::{Call, NoClass};
use input::ticket::Reading;
use runs::Scan;
use std::alloc::{AllocError, Global};

/// Its size in bytes.
const SIZE: usize = 70_000;

/// 70,000 bytes, more than any fetch can fill. Only what was filled is wiped before the next fetch.
#[derive(Drop)]
pub(crate) struct Usual {
    bytes: Vec<u8>,
    filled: usize,
    ghost size: { length (vec_items bytes) ≡ usual_size },
    ghost within: { filled ≤ usual_size },
    ghost rest: { drop filled (vec_items bytes) ≡ untouched (usual_size - filled) },
}

/// Makes the bytes as they are before a fetch.
fn wipe(bytes: &mut [u8])
    ensures { bytes.new ≡ untouched (length bytes.old) }
{
    bytes.fill(UNTOUCHED);
}

/// Wipes the bytes up to a place, after which none was written to.
fn wipe_front(bytes: &mut [u8], until: usize)
    requires within { until ≤ length bytes.old }
    requires rest { drop until bytes.old ≡ untouched (length bytes.old - until) }
    ensures { bytes.new ≡ untouched (length bytes.old) }
{
    wipe(&mut bytes[..until]);
}

impl Usual {
    ghost use Rattle.std.specs.Prelude.{ℕ, true, List, ◌++◌, string_bytes, is_some, OnOk, IfOk};
    ghost use Rattle.calls.specs.declared.call.Answer.{Answer};
    ghost use Rattle.calls.specs.Entries.{opens, filled_after};
    ghost use Rattle.calls.specs.Kinds.{kind_of};
    ghost use Rattle.player.specs.Plays.{entry, AnswersCall};

    pub(crate) fn new(heap: Global) -> Result<Usual, AllocError>
        ensures { IfOk result (λ room. (vec_items room.bytes ≡ untouched usual_size)
            × (room.filled ≡ 0)) }
    {
        let bytes = clean_bytes(heap, SIZE)?;
        Ok(Usual { bytes, filled: 0 })
    }

    /// Every byte of it.
    pub(crate) fn bytes(&self) -> &[u8]
        ensures { result.now ≡ vec_items self.now.bytes }
    {
        self.bytes.as_slice()
    }

    /// Takes back what was filled.
    fn wipe(&mut self)
        ensures bytes { vec_items self.new.bytes ≡ untouched usual_size }
        ensures filled { self.new.filled ≡ 0 }
    {
        let bytes = self.bytes.as_mut_slice();
        wipe_front(bytes, self.filled);
        self.filled = 0;
    }

    /// A fetch into the room, which is wiped first, and its line.
    pub(crate) fn fetch<I: Scan>(
        &mut self,
        input: &mut I,
        fetch: Call<NoClass>,
        held: Option<Reading>,
        out: &mut String,
    ) -> (Result<(), AllocError>, Option<Reading>)
        requires { (kind_of fetch).fetches ≡ true }
        ensures line { (line : List ℕ) × (a : Answer)
            × OnOk result.0 (string_bytes out.new ≡ string_bytes out.old ++ line)
            × (self.new.filled ≡ filled_after 0 a)
            × AnswersCall (I.shown input.old)
            (entry fetch (untouched usual_size) 0 a (vec_items self.new.bytes)) line
            (I.view input.old) (I.view input.new) }
        ensures held { is_some result.1 ≡ opens fetch (is_some held) }
    {
        self.wipe();
        let room = self.bytes.as_mut_slice();
        let (pushed, held, filled) = fetch_line(input, fetch, room, 0, held, out);
        self.filled = filled;
        (pushed, held)
    }
}
