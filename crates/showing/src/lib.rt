// Answers and tickets as the numbers that a host reads. The definitions stand in specs/: Outcome (an answer), Shown (a
// ticket alone, and what becomes of a buffer that is too short for it), Laws, what follows, and Worked, a ticket shown.
//
//     outcome_of   an answer
//     shown        a ticket alone, as a row of numbers
#![tactic(auto)]

pub mod shown;

ghost use Rattle.std.specs.Prelude.{◌≡◌};
ghost use Rattle.showing.specs.Outcome.{outcome_of};

use refusal::{Refused, report};

// An answer: refusal is 0 for a finished page, a ticket that was read or a list that was run, else the number of the
// refusal. 1 to 25 are the documents' (1 to 19 so far); 100 is ours and means a buffer of numbers that is too short.
#[repr(C)]
#[derive(Clone, Copy)]
pub struct Outcome {
    pub refusal: u64,
    pub place: u64,
    pub work: u64,
}

// An answer as the numbers that a host reads.
pub fn outcome_of(a: Result<u64, Refused>) -> Outcome
    ensures { result ≡ outcome_of a }
{
    Outcome {
        refusal: report::number(a) as u64,
        place: report::place(a) as u64,
        work: report::work(a),
    }
}
