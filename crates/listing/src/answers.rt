// The numbers that come back: refusal, place and work for each of 256 jobs.
ghost use Rattle.std.specs.Prelude.{◌≡◌, ◌+◌, ◌*◌, ◌≤◌, [], length};
ghost use Rattle.std.proofs.lemmas.List.Edits.{sets};
ghost use Rattle.tray.specs.Written.{cleared};
ghost use Rattle.listing.specs.Numbers.{answers_needed, told};

use refusal::{Refused, report};

// 3 * 256
pub const ANSWERS: usize = 768;

const ANSWER_NUMBERS: usize = 3;

// Every answer zero; the numbers past the answers keep their values.
pub fn clear(answers: &mut [u64])
    requires { answers_needed ≤ length answers.old }
    ensures { answers.new ≡ cleared answers_needed answers.old }
{
    answers[..ANSWERS].fill(0);
}

// Job k's answer in its place.
pub fn put(a: Result<u64, Refused>, k: usize, answers: &mut [u64])
    requires { 3 * (k + 1) ≤ length answers.old }
    ensures { answers.new ≡ sets answers.old (3 * k) (told a []) }
{
    let at = ANSWER_NUMBERS * k;
    answers[at] = report::number(a) as u64;
    answers[at + 1] = report::place(a) as u64;
    answers[at + 2] = report::work(a);
}
