// The list, job by job.
ghost use Rattle.std.specs.Prelude.{◌≡◌, ◌+◌, ◌*◌, ◌≤◌, length};
ghost use Rattle.listing.specs.Listed.{listed_at};
ghost use Rattle.batch.specs.Batch.{lent, trays};
ghost use Rattle.batch.specs.Call.{list_answer, list_output_after, list_scratch_after, list_answers_after};
ghost use Rattle.batch.specs.Promises.{RanOne, RanJobs};

use listing::{answers, list};
use refusal::{Later, Refusal, Refused};

// "Take a list of up to 256 jobs"
const MOST_JOBS: usize = 256;

// Job k alone, on the trays as the jobs before it left them.
fn run_one(
    jobs: &[u64],
    k: usize,
    tickets: &[u8],
    source: &[u8],
    output: &mut [u8],
    scratch: &mut [u8],
) -> Result<u64, Refused>
    requires { 8 * (k + 1) ≤ length jobs.now }
    ensures { RanOne tickets.now source.now (listed_at jobs.now k)
        (trays output.old scratch.old) (trays output.new scratch.new) result }
{
    let job = list::job_at(jobs, k);
    let ticket = list::ticket_of(tickets, job);
    job::job::run(ticket, job.places, source, output, scratch)
}

// All jobs of a list that nothing refuses, each answer put in its place. A refused job is answered and the rest go on.
fn run_jobs(
    count: usize,
    jobs: &[u64],
    tickets: &[u8],
    source: &[u8],
    output: &mut [u8],
    scratch: &mut [u8],
    answers: &mut [u64],
)
    requires { (8 * count ≤ length jobs.now) × (3 * count ≤ length answers.old) }
    ensures { RanJobs count
        (lent jobs.now tickets.now source.now
        output.old scratch.old)
        answers.old (trays output.new scratch.new) answers.new }
{
    for k in 0..count {
        let a = run_one(jobs, k, tickets, source, output, scratch);
        answers::put(a, k, answers);
    }
}

// The list. It is refused as a whole where a buffer of numbers is too short or where it has more than 256 jobs; else
// every job is answered as a call of its own would be.
pub fn run(
    count: usize,
    jobs: &[u64],
    tickets: &[u8],
    source: &[u8],
    output: &mut [u8],
    scratch: &mut [u8],
    answers: &mut [u64],
) -> Result<u64, Refused>
    ensures answered { result ≡ list_answer count (length jobs.now) (length answers.old) }
    ensures written { output.new ≡ list_output_after count
        (lent jobs.now tickets.now source.now
        output.old scratch.old)
        answers.old }
    ensures cleared { scratch.new ≡ list_scratch_after count
        (lent jobs.now tickets.now source.now
        output.old scratch.old)
        answers.old }
    ensures told { answers.new ≡ list_answers_after count
        (lent jobs.now tickets.now source.now
        output.old scratch.old)
        answers.old }
{
    let short = Refusal::Later(Later::NumbersTooFew);
    if answers.len() < answers::ANSWERS {
        return Err(Refused {
            refusal: short,
            at: answers::ANSWERS,
        });
    }
    if count > MOST_JOBS {
        answers::clear(answers);
        return Err(Refused {
            refusal: Refusal::Later(Later::TooManyJobs),
            at: 0,
        });
    }
    let needed = list::JOB_NUMBERS * count;
    if jobs.len() < needed {
        return Err(Refused {
            refusal: short,
            at: needed,
        });
    }
    answers::clear(answers);
    run_jobs(count, jobs, tickets, source, output, scratch, answers);
    Ok(0)
}
