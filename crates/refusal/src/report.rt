// An answer as three numbers: a refusal's own number (0 for what is done), its place, and the work.
ghost use Rattle.std.specs.Prelude.{◌≡◌};
ghost use Rattle.refusal.specs.Refusal.{later_number, refusal_number};
ghost use Rattle.refusal.specs.Answer.{number_of, place_of, work_in, is_done};

use super::{Later, Refusal, Refused};

// The number that document 02 gives a refusal. 1 to 25 are the documents'; ours is 100.
fn later_number(r: Later) -> usize
    ensures { result ≡ later_number r }
{
    match r {
        Later::BadHeader => 15,
        Later::BadMaximum => 16,
        Later::BadPixel => 17,
        Later::TooManyJobs => 18,
        Later::PixelOffPage => 19,
        Later::NumbersTooFew => 100,
    }
}

// The number that the documents give a refusal.
pub fn refusal_number(r: Refusal) -> usize
    ensures { result ≡ refusal_number r }
{
    match r {
        Refusal::TicketEnds => 1,
        Refusal::WrongTag => 2,
        Refusal::WrongLength => 3,
        Refusal::Unknown => 4,
        Refusal::TooManyBoxes => 5,
        Refusal::BadVector => 6,
        Refusal::BadLength => 7,
        Refusal::BadOrigin => 8,
        Refusal::BadPhase => 9,
        Refusal::BadSides => 10,
        Refusal::SourceTooShort => 11,
        Refusal::OutputTooShort => 12,
        Refusal::ScratchTooShort => 13,
        Refusal::BadBox => 14,
        Refusal::Later(later) => later_number(later),
    }
}

pub fn number(a: Result<u64, Refused>) -> usize
    ensures { result ≡ number_of a }
{
    match a {
        Ok(_) => 0,
        Err(refused) => refusal_number(refused.refusal),
    }
}

pub fn place(a: Result<u64, Refused>) -> usize
    ensures { result ≡ place_of a }
{
    match a {
        Ok(_) => 0,
        Err(refused) => refused.at,
    }
}

#[tactic(auto, unfolding(crate::specs::Answer::work_in))]
pub fn work(a: Result<u64, Refused>) -> u64
    ensures { result ≡ work_in a }
{
    a.unwrap_or(0)
}

// Whether nothing is refused.
#[tactic(auto, unfolding(crate::specs::Answer::is_done))]
pub fn is_done(a: Result<u64, Refused>) -> bool
    ensures { result ≡ is_done a }
{
    a.is_ok()
}
