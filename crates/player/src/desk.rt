//! What a player has beside its input: rooms, and the lines that it has yet to hand out.

ghost use Rattle.std.specs.Prelude.{◌≡◌, ℕ, ◌<◌, ◌≤◌, List, [], ◌++◌, length, string_bytes, is_some, OnOk, IfOk};
ghost use Rattle.protocol.specs.Answers.{reply_text, line_of};
ghost use Rattle.player.specs.Aside.{AsideLine, AsideRooms};
ghost use Rattle.player.specs.Rooms.{AreNewRooms};
ghost use Rattle.player.specs.Turns.{Turns, open_next};

use crate::play::probe_line;
use crate::predicates::class_answer;
use crate::rooms::Rooms;
use crate::steps::StepCount;
use calls::Answer;
use input::borrowed::BorrowedInput;
use input::ticket::Reading;
use protocol::{Command, Reply, push_answer, push_reply};
use runs::Scan;
use std::alloc::{AllocError, Global};
use std::io;

/// So many bytes are handed out at once: few writes, and little to hold.
const LARGE: usize = 65_536;

/// Where a player keeps the rooms of its fetches, and collects its lines of answer.
#[derive(Drop)]
pub struct Desk {
    heap: Global,
    rooms: Rooms,
    out: String,
}

impl Desk {
    /// A desk with no line, and new rooms.
    pub fn new(heap: Global) -> Result<Desk, AllocError>
        ensures { IfOk result (λ desk. (string_bytes desk.out ≡ []) × AreNewRooms desk.rooms) }
    {
        let rooms = Rooms::new(heap)?;
        Ok(Desk {
            heap,
            rooms,
            out: String::new(heap),
        })
    }

    /// Answers a command that asks nothing of an input. With one that does, there is none.
    pub fn aside(&mut self, command: Command) -> Result<(), AllocError>
        ensures line { OnOk result ((line : List ℕ)
            × (string_bytes self.new.out ≡ string_bytes self.old.out ++ line)
            × AsideLine command self.old.rooms line) }
        ensures rooms { OnOk result (AsideRooms command self.old.rooms self.new.rooms) }
    {
        match command {
            Command::Silent | Command::New => Ok(()),
            Command::Bad => push_reply(&mut self.out, Reply::Bad),
            Command::Class(predicate, code) => {
                let answer = Answer::Tested(class_answer(predicate, code));
                push_answer(&mut self.out, answer, &[])
            }
            Command::Room(size, filled) => {
                self.rooms.ask(self.heap, size, filled)?;
                push_reply(&mut self.out, Reply::Done)
            }
            Command::RoomBytes => self.rooms.show(&mut self.out),
            Command::Call(_) | Command::Probe(_) => push_reply(&mut self.out, Reply::NoInput),
        }
    }

    /// Answers a command with an input, and hands on the ticket of an open reading.
    pub(crate) fn turn<'a, N: StepCount<I>, I: Scan + BorrowedInput<'a>>(
        &mut self,
        input: &mut I,
        command: Command,
        held: Option<Reading>,
    ) -> (Result<(), AllocError>, Option<Reading>)
        ensures line { OnOk result.0 ((line : List ℕ)
            × (string_bytes self.new.out ≡ string_bytes self.old.out ++ line)
            × Turns (I.shown input.old) (N.stepped input.old) (I.Lends input.old)
            command line self.old.rooms self.new.rooms (I.view input.old) (I.view input.new)) }
        ensures held { is_some result.1 ≡ open_next command (is_some held) }
    {
        match command {
            Command::Call(call) => self.rooms.play(input, call, held, &mut self.out),
            Command::Probe(probe) => (probe_line::<N, I>(input, probe, &mut self.out), held),
            other => (self.aside(other), held),
        }
    }

    /// Answers a new input.
    pub fn begin(&mut self, reply: Reply) -> Result<(), AllocError>
        ensures line { OnOk result
            (string_bytes self.new.out ≡ string_bytes self.old.out ++ line_of (reply_text reply)) }
        ensures rooms { self.new.rooms ≡ self.old.rooms }
    {
        push_reply(&mut self.out, reply)
    }

    /// Hands out the lines that wait.
    pub fn flush(&mut self, rt: &impl Print) -> io::Result<()>
        ensures handed { OnOk result (string_bytes self.new.out ≡ []) }
        ensures rooms { self.new.rooms ≡ self.old.rooms }
    {
        rt.write_all(self.out.as_bytes())?;
        self.out.clear();
        Ok(())
    }

    /// Hands out the lines that wait once they are many.
    pub fn flush_if_large(&mut self, rt: &impl Print) -> io::Result<()>
        ensures few { OnOk result (length (string_bytes self.old.out) < 65536
            → string_bytes self.new.out ≡ string_bytes self.old.out) }
        ensures many { OnOk result (65536 ≤ length (string_bytes self.old.out)
            → string_bytes self.new.out ≡ []) }
        ensures rooms { self.new.rooms ≡ self.old.rooms }
    {
        if self.out.len() < LARGE {
            return Ok(());
        }
        self.flush(rt)
    }
}
