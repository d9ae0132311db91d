//! Calls of an input and their answers as values, what each means, and the one performer.
#![tactic(auto)]

mod call;
mod performer;
mod scanner;

pub use call::{
    Answer, Call, ClassTest, FetchCall, MarkerTest, NoClass, RoomlessStep, ScanCall, SkipCall,
    Step, Test,
};
pub use performer::{answer_to, perform, test};
pub use scanner::{ByCharacter, Own, Scanner};
