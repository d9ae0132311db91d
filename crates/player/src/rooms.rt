//! The rooms that fetches are given.

ghost use Rattle.std.specs.Prelude.{◌≡◌, ℕ, List, [], ◌++◌, string_bytes, vec_items, is_some, OnOk, IfOk};
ghost use Rattle.calls.specs.Entries.{opens};
ghost use Rattle.protocol.specs.Answers.{line_of};
ghost use Rattle.protocol.specs.Digits.{bytes_text};
ghost use Rattle.player.specs.Untouched.{untouched};
ghost use Rattle.player.specs.Rooms.{last_room, AreNewRooms, Asked};
ghost use Rattle.player.specs.Plays.{Plays};

use crate::play::{call_line, fetch_line};
use crate::usual::Usual;
use calls::{Call, NoClass};
use input::ticket::Reading;
use protocol::push_room;
use runs::Scan;
use std::alloc::{AllocError, Global};

/// What a room holds before a fetch.
pub(crate) const UNTOUCHED: u8 = 0xEE;

/// A room that was asked for, of which so many bytes from the start are filled.
#[derive(Drop)]
struct Room {
    bytes: Vec<u8>,
    filled: usize,
}

/// The room that the last fetch had.
#[derive(Drop)]
enum Last {
    Usual,
    Asked(Room),
}

/// The rooms of a player: the usual one, the next that was asked for, and which the last fetch had.
#[derive(Drop)]
pub struct Rooms {
    usual: Usual,
    next: Option<Room>,
    last: Option<Last>,
}

/// So many bytes that nothing was written to.
#[tactic(auto, unfolding(crate::specs::Untouched::untouched))]
pub(crate) fn clean_bytes(heap: Global, size: usize) -> Result<Vec<u8>, AllocError>
    ensures { IfOk result (λ bytes. vec_items bytes ≡ untouched size) }
{
    vec![in heap; UNTOUCHED; size]
}

impl Room {
    ghost use Rattle.std.specs.Prelude.{true};
    ghost use Rattle.calls.specs.declared.call.Answer.{Answer};
    ghost use Rattle.calls.specs.Entries.{filled_after};
    ghost use Rattle.calls.specs.Kinds.{kind_of};
    ghost use Rattle.player.specs.Plays.{entry, AnswersCall};

    fn new(heap: Global, size: usize, filled: usize) -> Result<Room, AllocError>
        ensures { IfOk result (λ room. (vec_items room.bytes ≡ untouched size)
            × (room.filled ≡ filled)) }
    {
        let bytes = clean_bytes(heap, size)?;
        Ok(Room { bytes, filled })
    }

    /// A fetch into the room, and its line.
    fn fetch<I: Scan>(
        &mut self,
        input: &mut I,
        fetch: Call<NoClass>,
        held: Option<Reading>,
        out: &mut String,
    ) -> (Result<(), AllocError>, Option<Reading>)
        requires { (kind_of fetch).fetches ≡ true }
        ensures line { (line : List ℕ) × (a : Answer)
            × OnOk result.0 (string_bytes out.new ≡ string_bytes out.old ++ line)
            × (self.new.filled ≡ filled_after self.old.filled a)
            × AnswersCall (I.shown input.old)
            (entry fetch (vec_items self.old.bytes) self.old.filled a (vec_items self.new.bytes))
            line (I.view input.old) (I.view input.new) }
        ensures held { is_some result.1 ≡ opens fetch (is_some held) }
    {
        let room = self.bytes.as_mut_slice();
        let (pushed, held, filled) = fetch_line(input, fetch, room, self.filled, held, out);
        self.filled = filled;
        (pushed, held)
    }
}

impl Rooms {
    /// The usual room, untouched, and no other.
    pub(crate) fn new(heap: Global) -> Result<Rooms, AllocError>
        ensures { IfOk result AreNewRooms }
    {
        Ok(Rooms {
            usual: Usual::new(heap)?,
            next: None,
            last: None,
        })
    }

    /// Gives the next fetch a room of its own.
    pub(crate) fn ask(&mut self, heap: Global, size: usize, filled: usize) -> Result<(), AllocError>
        ensures { OnOk result (Asked size filled self.old self.new) }
    {
        self.next = Some(Room::new(heap, size, filled)?);
        Ok(())
    }

    /// Appends a line with the last room whole.
    pub(crate) fn show(&self, out: &mut String) -> Result<(), AllocError>
        ensures { OnOk result
            (string_bytes out.new ≡ string_bytes out.old
            ++ line_of (bytes_text (last_room self.now))) }
    {
        match &self.last {
            None => push_room(out, &[]),
            Some(Last::Usual) => push_room(out, self.usual.bytes()),
            Some(Last::Asked(room)) => push_room(out, room.bytes.as_slice()),
        }
    }

    /// Makes a call, and appends its line. A fetch has the room that was asked for, or else the
    /// usual one. The ticket of an open reading is handed on, and closing takes it.
    pub(crate) fn play<I: Scan>(
        &mut self,
        input: &mut I,
        call: Call<NoClass>,
        held: Option<Reading>,
        out: &mut String,
    ) -> (Result<(), AllocError>, Option<Reading>)
        ensures line { (line : List ℕ)
            × OnOk result.0 (string_bytes out.new ≡ string_bytes out.old ++ line)
            × Plays (I.shown input.old) call line self.old self.new
            (I.view input.old) (I.view input.new) }
        ensures held { is_some result.1 ≡ opens call (is_some held) }
    {
        if !call.fetches() {
            return call_line(input, call, held, out);
        }
        match self.next.take() {
            Some(mut room) => {
                let (pushed, held) = room.fetch(input, call, held, out);
                self.last = Some(Last::Asked(room));
                (pushed, held)
            }
            None => {
                self.last = Some(Last::Usual);
                self.usual.fetch(input, call, held, out)
            }
        }
    }
}
