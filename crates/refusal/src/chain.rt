// Judgements one after the other: of two the first refusal counts.
ghost use Rattle.std.specs.Prelude.{◌≡◌};
ghost use Rattle.refusal.specs.Chain.{unless, ◌then◌};

use super::{Refusal, Refused, report};

// Done, without any work, or the refusal at its place.
pub fn refuse_unless(test: bool, refusal: Refusal, at: usize) -> Result<u64, Refused>
    ensures { result ≡ unless test refusal at }
{
    if test {
        Ok(0)
    } else {
        Err(Refused { refusal, at })
    }
}

// The first judgement if it is a refusal, else the second.
pub fn first_refusal(a: Result<u64, Refused>, b: Result<u64, Refused>) -> Result<u64, Refused>
    ensures { result ≡ (a then b) }
{
    if report::is_done(a) { b } else { a }
}
