//! One call, made of an input of any kind.

ghost use Rattle.std.specs.Prelude.{◌≡◌, is_some};
ghost use Rattle.error.specs.Numbers.{outcome};
ghost use Rattle.input.specs.Tests.{flag};
ghost use Rattle.calls.specs.Entries.{class_of, test_number, entry_of, opens, Means, Performs};

use crate::call::{Answer, Call, ClassTest, MarkerTest, Step, Test};
use crate::scanner::Scanner;
use char_traits::class::Class;
use error::Refusal;
use input::ticket::Reading;
use input::{Input, calls};

fn class_test<I: Input>(input: &I, class: ClassTest) -> bool
    ensures { result ≡ class_of class ((I.shown input.now).at 0) }
{
    match class {
        ClassTest::BlankOrBreak => calls::next_is_blank_or_break(input),
        ClassTest::BlankOrBreakz => calls::next_is_blank_or_breakz(input),
        ClassTest::Blank => calls::next_is_blank(input),
        ClassTest::Break => calls::next_is_break(input),
        ClassTest::Breakz => calls::next_is_breakz(input),
        ClassTest::Flow => calls::next_is_flow(input),
        ClassTest::Digit => calls::next_is_digit(input),
        ClassTest::Alpha => calls::next_is_alpha(input),
    }
}

/// Makes a test.
pub fn test<I: Input>(input: &I, test: Test) -> Result<bool, Refusal>
    ensures { outcome flag result ≡ test_number test (I.shown input.now) }
{
    match test {
        Test::Z => Ok(input.next_is_z()),
        Test::Class(class) => Ok(class_test(input, class)),
        Test::CharIs(code) => calls::next_char_is(input, code),
        Test::NthIs(n, code) => calls::nth_char_is(input, n, code),
        Test::TwoAre(first, second) => calls::next_2_are(input, first, second),
        Test::ThreeAre(first, second, third) => calls::next_3_are(input, first, second, third),
        Test::Marker(MarkerTest::Indicator) => calls::next_is_document_indicator(input),
        Test::Marker(MarkerTest::Start) => calls::next_is_document_start(input),
        Test::Marker(MarkerTest::End) => calls::next_is_document_end(input),
        Test::PlainScalar(in_flow) => Ok(calls::next_can_be_plain_scalar(input, in_flow)),
    }
}

/// Makes a call; a fetch has the room that is lent. The ticket of an open reading is handed on, and
/// closing takes it.
pub fn answer_to<C: Class + Copy, I: Input, S: Scanner<I>>(
    input: &mut I,
    call: Call<C>,
    room: &mut [u8],
    filled: usize,
    held: Option<Reading>,
) -> (Answer, Option<Reading>)
    ensures ticket { is_some result.1 ≡ opens call (is_some held) }
    ensures means { Means C.member (I.shown input.old) call
        (record {
          call = call;
          room = room.old;
          filled = filled;
          answer = result.0;
          left = room.new;
        })
        (I.view input.old) (I.view input.new) }
{
    match call {
        Call::Lookahead(n) | Call::Added(n) => {
            input.lookahead(n);
            (Answer::Nothing, held)
        }
        Call::LookCh => (Answer::Character(calls::look_ch(input)), held),
        Call::NextCh => (Answer::Next(input.next_ch()), held),
        Call::Read => (Answer::Character(input.raw_read_ch()), held),
        Call::ReadNonBreakz => (Answer::Next(input.raw_read_non_breakz_ch()), held),
        Call::Skip => {
            input.skip();
            (Answer::Nothing, held)
        }
        Call::SkipN(n) => {
            input.skip_n(n);
            (Answer::Nothing, held)
        }
        Call::Peek => (Answer::Character(calls::peek(input)), held),
        Call::PeekNth(n) => (Answer::Character(input.peek_nth(n)), held),
        Call::Test(which) => (Answer::Tested(test(input, which)), held),
        Call::Scan(call) => (S::scan(input, call, room, filled), held),
        Call::TakeSourceError => (Answer::Asked(input.take_source_error()), held),
        Call::Open => (
            Answer::Nothing,
            Some(held.unwrap_or_else(|| Reading::open(input))),
        ),
        Call::Close => (Answer::Closed(Reading::close_opened(held, input)), None),
    }
}

/// Makes the call of a step, and keeps its answer there.
pub fn perform<C: Class + Copy, I: Input, S: Scanner<I>>(
    input: &mut I,
    step: &mut Step<C>,
    held: Option<Reading>,
) -> Option<Reading>
    ensures call { step.new.call ≡ step.old.call }
    ensures filled { step.new.filled ≡ step.old.filled }
    ensures ticket { is_some result ≡ opens step.old.call (is_some held) }
    ensures made { Performs C.member (entry_of step.old step.new) (I.view input.old)
        (I.view input.new) }
{
    let (answer, next) = match &mut step.room {
        Some(room) => answer_to::<C, I, S>(input, step.call, room, step.filled, held),
        None => answer_to::<C, I, S>(input, step.call, &mut [], step.filled, held),
    };
    step.answer = answer;
    next
}
