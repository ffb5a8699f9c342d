// A whole tray in one call.
ghost use Rattle.std.specs.Prelude.{◌≡◌, length};
ghost use Rattle.batch.specs.Batch.{lent};
ghost use Rattle.batch.specs.Call.{list_answer, list_output_after, list_scratch_after, list_answers_after};
ghost use Rattle.showing.specs.Outcome.{outcome_of};

use showing::{Outcome, outcome_of};

// Runs a list of up to 256 jobs in its order on one source tray, one output tray and one scratch. A job is eight
// numbers, an answer three.
#[unsafe(no_mangle)]
pub extern "C" fn sotrugla_run_tray(
    count: usize,
    jobs: &[u64],
    tickets: &[u8],
    source: &[u8],
    output: &mut [u8],
    scratch: &mut [u8],
    answers: &mut [u64],
) -> Outcome
    ensures answered { result ≡ outcome_of
        (list_answer count (length jobs.now) (length answers.old)) }
    ensures written { output.new ≡ list_output_after count
        (lent jobs.now tickets.now source.now
        output.old scratch.old)
        answers.old }
    ensures cleared { scratch.new ≡ list_scratch_after count
        (lent jobs.now tickets.now source.now
        output.old scratch.old)
        answers.old }
    ensures told { answers.new ≡ list_answers_after count
        (lent jobs.now tickets.now source.now
        output.old scratch.old)
        answers.old }
{
    outcome_of(batch::run::run(count, jobs, tickets, source, output, scratch, answers))
}
