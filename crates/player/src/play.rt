//! A call or a probe of an input, with its line of answer.

ghost use Rattle.std.specs.Prelude.{◌≡◌, ℕ, ◌≤◌, max, true, List, [], ◌++◌, length, string_bytes, is_some, OnOk, slice_range};
ghost use Rattle.calls.specs.declared.call.Answer.{Answer};
ghost use Rattle.calls.specs.Entries.{opens, filled_after};
ghost use Rattle.calls.specs.Kinds.{kind_of};
ghost use Rattle.player.specs.Rooms.{Lays};
ghost use Rattle.player.specs.Plays.{entry, AnswersCall, Probes};

use crate::steps::StepCount;
use calls::{Answer, Call, NoClass, Own, answer_to};
use input::Input;
use input::borrowed::BorrowedInput;
use input::ticket::Reading;
use protocol::{Probe, Reply, push_answer, push_part, push_reply};
use runs::Scan;
use std::alloc::AllocError;

/// The bytes from one filled count to another.
fn bytes_between(room: &[u8], from: usize, to: usize) -> &[u8]
    requires { to ≤ max from (length room.now) }
    ensures { result.now ≡ slice_range room.now from to }
{
    if from < to { &room[from..to] } else { &[] }
}

/// Makes a call with no room, and appends its line. The ticket of an open reading is handed on, and
/// closing takes it.
pub(crate) fn call_line<I: Scan>(
    input: &mut I,
    call: Call<NoClass>,
    held: Option<Reading>,
    out: &mut String,
) -> (Result<(), AllocError>, Option<Reading>)
    ensures line { (line : List ℕ) × (a : Answer) × (left : List ℕ)
        × OnOk result.0 (string_bytes out.new ≡ string_bytes out.old ++ line)
        × AnswersCall (I.shown input.old) (entry call [] 0 a left) line
        (I.view input.old) (I.view input.new) }
    ensures held { is_some result.1 ≡ opens call (is_some held) }
{
    let (answer, held) = answer_to::<NoClass, I, Own>(input, call, &mut [], 0, held);
    (push_answer(out, answer, &[]), held)
}

/// Makes a fetch with a room, and appends its line. Tells the new filled count.
#[tactic(auto, using(crate::proofs::Laid::means_lays))]
pub(crate) fn fetch_line<I: Scan>(
    input: &mut I,
    fetch: Call<NoClass>,
    room: &mut [u8],
    filled: usize,
    held: Option<Reading>,
    out: &mut String,
) -> (Result<(), AllocError>, Option<Reading>, usize)
    requires { (kind_of fetch).fetches ≡ true }
    ensures line { (line : List ℕ) × (a : Answer)
        × OnOk result.0 (string_bytes out.new ≡ string_bytes out.old ++ line)
        × (result.2 ≡ filled_after filled a)
        × AnswersCall (I.shown input.old) (entry fetch room.old filled a room.new) line
        (I.view input.old) (I.view input.new) }
    ensures lays { Lays room.old filled room.new result.2 }
    ensures held { is_some result.1 ≡ opens fetch (is_some held) }
{
    let (answer, held) = answer_to::<NoClass, I, Own>(input, fetch, room, filled, held);
    let next = answer.filled_after(filled);
    let bytes = bytes_between(room, filled, next);
    (push_answer(out, answer, bytes), held, next)
}

/// Answers a probe with a line.
pub(crate) fn probe_line<'a, N: StepCount<I>, I: Input + BorrowedInput<'a>>(
    input: &I,
    probe: Probe,
    out: &mut String,
) -> Result<(), AllocError>
    ensures { (line : List ℕ) × OnOk result (string_bytes out.new ≡ string_bytes out.old ++ line)
        × Probes (N.stepped input.now) (I.Lends input.now) probe line
        (I.view input.now) }
{
    match probe {
        Probe::Buflen => push_answer(out, Answer::Count(input.buflen()), &[]),
        Probe::Bufmaxlen => push_answer(out, Answer::Count(input.bufmaxlen()), &[]),
        Probe::BufIsEmpty => {
            push_answer(
                out,
                Answer::Tested(Ok(input::calls::buf_is_empty(input))),
                &[],
            )
        }
        Probe::SliceBorrowed(start, end) => push_part(out, input.slice_borrowed(start, end)),
        Probe::Steps => push_reply(out, Reply::Steps(N::steps(input))),
    }
}
