// Lists the number of each pixel on its line. Reads an order of 11 bytes from standard input: the kind of line (1
// connected, 2 periodic), dx and dy (signed), phase, width and height, two bytes each, big-endian. Prints a line of
// text for each row of the page with `behind/ahead` for each pixel, or `bad input`.
#![tactic(auto)]

mod listing;
mod order;

use std::io;
use std::io::Read;

// One byte more than an order has, so that a longer input is seen.
const MOST_INPUT: u64 = 12;

fn main(rt: HostRuntime) -> io::Result<()> {
    let mut input = Vec::new(rt.alloc());
    rt.stdin().take(MOST_INPUT).read_to_end(&mut input)?;
    let Some(order) = order::read(&input).and_then(order::listed) else {
        return println!(rt; "bad input");
    };
    listing::list(&rt, order.line, order.w, order.h)
}
