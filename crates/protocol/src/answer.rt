//! Answers as text.

ghost use Rattle.std.specs.Prelude.{◌≡◌, Some};
ghost use Rattle.protocol.specs.Answers.{kind_text, fault_text, code_text, refusal_text, closing_text};

use error::{Fault, FaultKind, Refusal};
use input::Closing;
use std::fmt;

/// What a line is answered with that asks for no call of an input.
#[derive(Clone, Copy)]
pub enum Reply {
    Bad,
    NoInput,
    /// A room was set aside, or a new input was made.
    Done,
    /// A new input was refused.
    Refused(Refusal),
    /// How often a source was stepped, if one is below.
    Steps(Option<u64>),
}

impl fmt::Display for Reply {
    ghost use Rattle.protocol.specs.Answers.{reply_text};

    ghost output = { λ reply. Some (reply_text reply) };

    fn fmt<W: fmt::Write>(&self, f: &mut fmt::Formatter<W>) -> fmt::Result {
        match *self {
            Reply::Bad => f.write_str("bad"),
            Reply::NoInput => f.write_str("noinput"),
            Reply::Done => f.write_str("ok"),
            Reply::Refused(refusal) => RefusalText(refusal).fmt(f),
            Reply::Steps(Some(n)) => write!(f, "{n}"),
            Reply::Steps(None) => f.write_str("none"),
        }
    }
}

fn kind_name(kind: FaultKind) -> &'static str
    ensures { result.now ≡ kind_text kind }
{
    match kind {
        FaultKind::InputIo => "InputIo",
        FaultKind::InputDecoding => "InputDecoding",
    }
}

/// A fault's kind and place.
#[derive(Clone, Copy)]
pub struct FaultText(pub Fault);

impl fmt::Display for FaultText {
    ghost output = { λ fault. Some (fault_text fault.0) };

    fn fmt<W: fmt::Write>(&self, f: &mut fmt::Formatter<W>) -> fmt::Result {
        let kind = kind_name(self.0.kind);
        let place = self.0.place;
        write!(f, "{kind} {place}")
    }
}

/// A character by its code.
#[derive(Clone, Copy)]
pub struct CodeText(pub char);

impl fmt::Display for CodeText {
    ghost output = { λ code. Some (code_text code.0) };

    #[tactic(auto, using(crate::proofs::Hex::hex_code))]
    fn fmt<W: fmt::Write>(&self, f: &mut fmt::Formatter<W>) -> fmt::Result {
        let code = u32::from(self.0);
        write!(f, "{code:x}")
    }
}

/// A refusal's number, and its place if it has one.
#[derive(Clone, Copy)]
pub struct RefusalText(pub Refusal);

impl fmt::Display for RefusalText {
    ghost output = { λ refusal. Some (refusal_text refusal.0) };

    fn fmt<W: fmt::Write>(&self, f: &mut fmt::Formatter<W>) -> fmt::Result {
        let number = self.0.number();
        match self.0.place() {
            Some(place) => write!(f, "refused {number} {place}"),
            None => write!(f, "refused {number}"),
        }
    }
}

/// How a reading ended.
#[derive(Clone, Copy)]
pub struct ClosingText(pub Closing);

impl fmt::Display for ClosingText {
    ghost output = { λ closing. Some (closing_text closing.0) };

    fn fmt<W: fmt::Write>(&self, f: &mut fmt::Formatter<W>) -> fmt::Result {
        match self.0 {
            Closing::Left => f.write_str("left"),
            Closing::Whole => f.write_str("whole"),
            Closing::Failed(fault) => {
                let told = FaultText(fault);
                write!(f, "failed {told}")
            }
        }
    }
}
