// A job of the list as its numbers say, and its ticket.
ghost use Rattle.std.specs.Prelude.{◌≡◌, ◌+◌, ◌*◌, ◌<◌, ◌≤◌, length, nat_le, slice_index};
ghost use Rattle.listing.specs.Listed.{spot_at, listed_at, ticket_of};

use super::Listed;
use placement::{Placements, Spot};

// Ticket start and length, width and height, source offset and stride, output offset and stride.
pub const JOB_NUMBERS: usize = 8;

fn number_at(numbers: &[u64], at: usize) -> usize
    requires { at < length numbers.now }
    ensures { result ≡ slice_index numbers.now at }
{
    numbers[at] as usize
}

// A page's offset and stride, two numbers of the list.
fn spot_at(numbers: &[u64], at: usize) -> Spot
    requires { at + 1 < length numbers.now }
    ensures { result ≡ spot_at numbers.now at }
{
    Spot {
        offset: number_at(numbers, at),
        stride: number_at(numbers, at + 1),
    }
}

// Job k of the list.
pub fn job_at(jobs: &[u64], k: usize) -> Listed
    requires { 8 * (k + 1) ≤ length jobs.now }
    ensures { result ≡ listed_at jobs.now k }
{
    let at = JOB_NUMBERS * k;
    let source = spot_at(jobs, at + 4);
    let output = spot_at(jobs, at + 6);
    let places = Placements {
        width: number_at(jobs, at + 2),
        height: number_at(jobs, at + 3),
        source,
        output,
    };
    Listed {
        start: number_at(jobs, at),
        length: number_at(jobs, at + 1),
        places,
    }
}

// Whether a part that starts there, so long, ends within so much room, over whole numbers.
fn is_within(start: usize, length: usize, room: usize) -> bool
    ensures { result ≡ nat_le (start + length) room }
{
    start.checked_add(length).is_some_and(|end| end <= room)
}

// A job's ticket: its part of the buffer, or none of it where the ticket is not wholly there.
pub fn ticket_of(tickets: &[u8], job: Listed) -> &[u8]
    ensures { result.now ≡ ticket_of tickets.now job }
{
    if is_within(job.start, job.length, tickets.len()) {
        return &tickets[job.start..job.start + job.length];
    }
    &[]
}
