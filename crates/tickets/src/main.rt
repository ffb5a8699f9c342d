// Reads a list of tickets from standard input, at most 65,536 bytes, each after its length in two bytes, big-endian,
// and prints a line for each: `ticket OP LINE DX DY L O PHASE COUNT` and its boxes as `left,top,width,height`, or
// `refused N at P`. Where the list ends inside an entry the last line is `cut`.
//
// The list in `stdin` is made by hand, 318 tickets in this order:
// - operations and lines, known and unknown;
// - 49 vectors, each connected, then each periodic: (0, 0), the units, (2, 2), 255 and one past it, 0x8000 as a sign;
// - L at 0, 1, 8192, 8193 and others, o at L - 1 and at L, phases at their limit and one past it;
// - every truncation of a ticket with one box, and the same ticket with bytes too many;
// - wrong tags and wrong lengths at each of its heads, and pairs of faults, of which the first counts;
// - boxes at their limits, 63 and 64 of them;
// - the last places: the 65th box, with a right and a wrong length and cut short, and the 64th.
// It ends inside an entry. Each refusal stands at its first and at its last possible place: 1 and 2 at 0 and 734, 3
// at 0 and 723, 4 at 0 and 4, 5 at 734, 6 at 8, 7 at 15, 8 at 20, 9 at 25. `stdout` comes from a second reader,
// written from the document alone.
#![tactic(auto)]

mod text;

ghost use Rattle.std.specs.Prelude.{◌<◌, IfSome, length};

use std::io;
use std::io::Read;

// A longer list is read no further.
const LONGEST_LIST: u64 = 65536;

fn print_ticket(rt: &impl Print, s: &[u8]) -> io::Result<()> {
    match ticket::read(s) {
        Ok(ticket) => text::print_good(rt, &ticket),
        Err(refused) => println!(rt; "{refused}"),
    }
}

// The first entry of a list, behind its length, and what follows it; none where the list ends inside the entry.
fn split_entry(list: &[u8]) -> Option<(&[u8], &[u8])>
    ensures { IfSome result (λ parts. length parts.1.now < length list.now) }
{
    let (size, rest) = list.split_first_chunk::<2>()?;
    rest.split_at_checked(usize::from(u16::from_be_bytes(*size)))
}

fn print_list(rt: &impl Print, list: &[u8]) -> io::Result<()> {
    let mut rest = list;
    while !rest.is_empty() {
        let Some((entry, others)) = split_entry(rest) else {
            return text::print_cut(rt);
        };
        print_ticket(rt, entry)?;
        rest = others;
    }
    Ok(())
}

fn main(rt: HostRuntime) -> io::Result<()> {
    let mut list = Vec::new(rt.alloc());
    rt.stdin().take(LONGEST_LIST).read_to_end(&mut list)?;
    print_list(&rt, &list)
}
