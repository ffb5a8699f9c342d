// The page program. Reads standard input: width, height and ticket length, two bytes each, big-endian, then the
// ticket, then the pixels row by row. Prints `bad input` or `too big`, `refused N at P`, or `done W` and the rows
// in decimal.
//
// `stdin` is case 3 of document 01, the opening of the row 9 1 5, and `stdout` the two lines that it asks for.
#![tactic(auto)]

mod text;

ghost use Rattle.std.specs.Prelude.{◌+◌, ◌<◌, ◌≤◌, length};

use placement::{Placements, Spot};
use std::io;
use std::io::Read;

// Longer than any good input, 6 + 800 + 8192 bytes, so that a longer one is seen.
const MOST_INPUT: u64 = 65536;

// Width, height and ticket length.
const HEAD: usize = 6;

// "or the ticket length is above 800"
const LONGEST_TICKET: usize = 800;

// "`too big` if w·h is above 8192"
const MOST_PIXELS: usize = 8192;

// As much scratch as is ever lent.
const MOST_SCRATCH: usize = 65536;

// Two bytes as one number, the larger part first.
fn number_at(s: &[u8], at: usize) -> usize
    requires { at + 1 < length s.now }
    ensures { result < 65536 }
{
    usize::from(u16::from_be_bytes([s[at], s[at + 1]]))
}

fn area(w: usize, h: usize) -> usize
    requires w_bound { w < 65536 }
    requires h_bound { h < 65536 }
{
    w * h
}

// The scratch that a page needs, or all 65,536 bytes of the array. Only a page with a zero side can need more, as
// any other has sides of 8192 at most, and it is refused for its sides before the job looks at its scratch: the
// answer is the same.
fn scratch_lent(w: usize, h: usize, pixels: usize) -> usize
    requires w_bound { w < 65536 }
    requires h_bound { h < 65536 }
    requires pixels_bound { pixels ≤ 8192 }
    ensures { result ≤ 65536 }
{
    let needed = 2 * pixels + 3 * w.max(h);
    needed.min(MOST_SCRATCH)
}

// Runs the job over trays that are just long enough, and prints its answer.
fn filter_page(
    rt: &impl Print,
    ticket: &[u8],
    w: usize,
    h: usize,
    source: &[u8],
    output: &mut [u8],
    scratch: &mut [u8],
) -> io::Result<()>
    requires { length output.old ≤ 8192 }
{
    let whole = Spot {
        offset: 0,
        stride: w,
    };
    let placements = Placements {
        width: w,
        height: h,
        source: whole,
        output: whole,
    };
    match job::job::run(ticket, placements, source, output, scratch) {
        Ok(work) => text::print_done(rt, work, output, w),
        Err(refused) => println!(rt; "{refused}"),
    }
}

// Lays out the trays of a page of so many pixels.
fn lay_out(
    rt: &impl Print,
    ticket: &[u8],
    w: usize,
    h: usize,
    pixels: usize,
    source: &[u8],
) -> io::Result<()>
    requires w_bound { w < 65536 }
    requires h_bound { h < 65536 }
    requires pixels_bound { pixels ≤ 8192 }
{
    let mut output = [0u8; MOST_PIXELS];
    let mut scratch = [0u8; MOST_SCRATCH];
    let lent = scratch_lent(w, h, pixels);
    filter_page(
        rt,
        ticket,
        w,
        h,
        source,
        &mut output[..pixels],
        &mut scratch[..lent],
    )
}

// Judges the input, and answers it: only what is exactly as long as its head says is a page.
fn answer(rt: &impl Print, input: &[u8]) -> io::Result<()> {
    if input.len() < HEAD {
        return text::print_bad_input(rt);
    }
    let w = number_at(input, 0);
    let h = number_at(input, 2);
    let size = number_at(input, 4);
    if LONGEST_TICKET < size {
        return text::print_bad_input(rt);
    }
    let pixels = area(w, h);
    if MOST_PIXELS < pixels {
        return text::print_too_big(rt);
    }
    let page = HEAD + size;
    if input.len() != page + pixels {
        return text::print_bad_input(rt);
    }
    lay_out(rt, &input[HEAD..page], w, h, pixels, &input[page..])
}

fn main(rt: HostRuntime) -> io::Result<()> {
    let mut input = Vec::new(rt.alloc());
    rt.stdin().take(MOST_INPUT).read_to_end(&mut input)?;
    answer(&rt, &input)
}
