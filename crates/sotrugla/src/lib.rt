// The library as C, Rust and Python link it: the proved job on plain numbers and slices. A slice is a pointer and
// then a length; sizes are 64-bit numbers. No function here has a condition on its callers but that of every slice:
// its bytes are there, and no two of the buffers overlap.
#![tactic(auto)]

pub mod files; // files.rt: pages that arrive as P5 files
pub mod lists; // lists.rt: a whole tray in one call
pub mod reasons; // reasons.rt: why a pixel came out so

ghost use Rattle.std.specs.Prelude.{◌≡◌, length};
ghost use Rattle.job.specs.Job.{lengths, answer, output_after, scratch_after};
ghost use Rattle.showing.specs.Shown.{read_outcome, numbers_after};
ghost use Rattle.sotrugla.specs.Pages.{placements_of, scratch_for};
ghost use Rattle.showing.specs.Outcome.{outcome_of};
ghost use Rattle.sotrugla.specs.Hiding.{hidden_by};
ghost use Rattle.sotrugla.specs.Version.{version};

use placement::{Placements, Spot};
use refusal::{Later, Refusal, Refused};
use showing::{Outcome, outcome_of, shown};

fn placements(
    width: usize,
    height: usize,
    source_offset: usize,
    source_stride: usize,
    output_offset: usize,
    output_stride: usize,
) -> Placements
    ensures { result ≡ placements_of width height source_offset source_stride output_offset output_stride }
{
    Placements {
        width,
        height,
        source: Spot {
            offset: source_offset,
            stride: source_stride,
        },
        output: Spot {
            offset: output_offset,
            stride: output_stride,
        },
    }
}

// Filters one page of the source tray into the output tray, as the ticket says.
#[unsafe(no_mangle)]
pub extern "C" fn sotrugla_run(
    ticket: &[u8],
    width: usize,
    height: usize,
    source_offset: usize,
    source_stride: usize,
    output_offset: usize,
    output_stride: usize,
    source: &[u8],
    output: &mut [u8],
    scratch: &mut [u8],
) -> Outcome
    ensures answered { result ≡ outcome_of
        (answer ticket.now
        (placements_of width height source_offset source_stride output_offset output_stride)
        (lengths source.now output.old scratch.old)) }
    ensures written { output.new ≡ output_after ticket.now
        (placements_of width height source_offset source_stride output_offset output_stride)
        source.now output.old scratch.old }
    ensures cleared { scratch.new ≡ scratch_after ticket.now
        (placements_of width height source_offset source_stride output_offset output_stride)
        source.now output.old scratch.old }
{
    let at = placements(
        width,
        height,
        source_offset,
        source_stride,
        output_offset,
        output_stride,
    );
    outcome_of(job::job::run(ticket, at, source, output, scratch))
}

// How many pages a job keeps in the scratch.
const JOB_PAGES: usize = 2;

// How many bytes of scratch a page of these sides needs; 0 where a side is beyond its limits.
#[unsafe(no_mangle)]
pub extern "C" fn sotrugla_scratch_needed(width: usize, height: usize) -> usize
    ensures { result ≡ scratch_for width height }
{
    if !placement::place::is_side(width) {
        return 0;
    }
    if !placement::place::is_side(height) {
        return 0;
    }
    placement::place::scratch_needed(JOB_PAGES, width, height)
}

// Reads a ticket alone into a buffer of 264 numbers, which hosts take for signed ones: a negative one stands there
// as two's complement. A refused ticket shows zeros. A buffer too short is answered 100, its place the numbers
// needed, and is not written.
#[unsafe(no_mangle)]
pub extern "C" fn sotrugla_read_ticket(ticket: &[u8], numbers: &mut [u64]) -> Outcome
    ensures answered { result ≡ read_outcome ticket.now (length numbers.old) }
    ensures written { numbers.new ≡ numbers_after ticket.now numbers.old }
{
    if numbers.len() < shown::NUMBERS {
        return outcome_of(Err(Refused {
            refusal: Refusal::Later(Later::NumbersTooFew),
            at: shown::NUMBERS,
        }));
    }
    match ticket::read(ticket) {
        Ok(read) => {
            shown::put_ticket(read, numbers);
            outcome_of(Ok(0))
        }
        Err(refused) => {
            shown::put_zeros(numbers);
            outcome_of(Err(refused))
        }
    }
}

// Whether a box of the ticket hides the pixel at column, row: 1 or 0. A refused ticket is shown without boxes and
// hides nothing. The boxes are not held to a page, whose sides are not known here: a box that a job would refuse
// (14) hides the pixels that it covers.
#[unsafe(no_mangle)]
pub extern "C" fn sotrugla_is_hidden(ticket: &[u8], column: usize, row: usize) -> u64
    ensures { result ≡ hidden_by ticket.now column row }
{
    match ticket::read(ticket) {
        Ok(read) => {
            if boxes::hides(&read.boxes[..read.count], column, row) {
                1
            } else {
                0
            }
        }
        Err(_) => 0,
    }
}

// 0.6.0: a million for the major number, a thousand for the minor one, one for the patch.
const VERSION: u64 = 6000;

// The version of the library that runs, which need not be that of the header that a host was built with.
#[unsafe(no_mangle)]
pub extern "C" fn sotrugla_version() -> u64
    ensures { result ≡ version }
{
    VERSION
}
