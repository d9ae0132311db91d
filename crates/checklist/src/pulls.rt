//! A cable that is pulled.

ghost use Rattle.std.specs.Prelude.{◌≡◌, ◌+◌, ◌^◌, ◌<◌, ◌≤◌, true, [], ◌∷◌, length, take, IfOk};
ghost use Rattle.std.proofs.Math.Utf8.{scalars};
ghost use Rattle.input.specs.Calls.{closing_number};
ghost use Rattle.source.specs.CodeLimit.{code_limit};
ghost use Rattle.checklist.specs.Pulls.{PulledAll};

use crate::readings::read_out;
use buffered::FallibleBufferedInput;
use error::FaultKind;
use input::Closing;
use source::{Codes, CodesEnding};
use std::alloc::{AllocError, Global};

/// Whether a closing tells that the line failed after so many characters.
fn tells_pull(closing: Closing, place: usize) -> bool
    ensures told { closing_number closing ≡ (8, place ∷ []) → result ≡ true }
    ensures only { result ≡ true → closing_number closing ≡ (8, place ∷ []) }
{
    match closing {
        Closing::Failed(fault) => {
            fault.kind == FaultKind::InputIo && fault.place as usize == place
        }
        _ => false,
    }
}

/// Sends these codes down a cable that is then pulled, and reads them: whether the pull was told with its place, and no character was lost.
pub fn pull_is_told(heap: Global, codes: &[u32]) -> Result<bool, AllocError>
    ensures told { IfOk result (λ told. scalars codes.now ≡ true → length codes.now ≤ code_limit
        → told ≡ true) }
    ensures only { IfOk result (λ told. told ≡ true
        → (scalars codes.now ≡ true) × (length codes.now ≤ code_limit)) }
{
    let Ok(source) = Codes::of(codes, CodesEnding::InputIo) else {
        return Ok(false);
    };
    let mut cable = FallibleBufferedInput::new(source);
    let taken = read_out(heap, &mut cable)?;
    Ok(tells_pull(taken.closing, codes.len()) && taken.chars.len() == codes.len())
}

/// How often a cable was pulled, and how often that was told.
#[derive(Clone, Copy)]
pub struct Pulls {
    pub made: usize,
    pub told: usize,
}

/// The numbers of the first so many characters.
pub fn codes_of(heap: Global, chars: &[char], most: usize) -> Result<Vec<u32>, AllocError>
    ensures { IfOk result (λ v. v.items ≡ take most chars.now) }
{
    let mut codes = Vec::new(heap);
    codes.extend(chars.iter().take(most).map(|c| *c as u32))?;
    Ok(codes)
}

fn one_more(pulls: Pulls, told: bool) -> Pulls
    ensures told { told ≡ true → pulls.told ≡ pulls.made → result.told ≡ result.made }
    ensures made { pulls.made + 1 < 2 ^ 64 → result.made ≡ pulls.made + 1 }
    ensures most { pulls.told ≤ pulls.made → result.told ≤ result.made }
    ensures only { pulls.made + 1 < 2 ^ 64 → pulls.told ≤ pulls.made →
        result.told ≡ result.made → told ≡ true }
{
    Pulls {
        made: pulls.made.saturating_add(1),
        told: if told {
            pulls.told.saturating_add(1)
        } else {
            pulls.told
        },
    }
}

/// Pulls the cable before the first character, then after every so many, 1 at least, and at last after all.
#[tactic(auto, using(crate::proofs::Pulling::pulling_none, crate::proofs::Pulling::pulled_all))]
pub fn pull_all_over(heap: Global, codes: &[u32], every: usize) -> Result<Pulls, AllocError>
    ensures told { IfOk result (λ pulls.
        scalars codes.now ≡ true → length codes.now ≤ code_limit → pulls.told ≡ pulls.made) }
    ensures only { IfOk result (λ pulls.
        pulls.told ≡ pulls.made → (scalars codes.now ≡ true) × (length codes.now ≤ code_limit)) }
    ensures everywhere { IfOk result (λ pulls. PulledAll (length codes.now) every pulls.made) }
{
    let step = every.max(1);
    let mut pulls = Pulls { made: 0, told: 0 };
    let mut place = 0;
    while place < codes.len() {
        let told = pull_is_told(heap, &codes[..place])?;
        pulls = one_more(pulls, told);
        place = place.saturating_add(step);
    }
    let told = pull_is_told(heap, codes)?;
    Ok(one_more(pulls, told))
}
