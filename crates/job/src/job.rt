// The job: judged, filtered, cleared.
ghost use Rattle.std.specs.Prelude.{◌≡◌, length};
ghost use Rattle.ticket.specs.Laws.{Allowed};
ghost use Rattle.job.specs.Job.{lengths, answer, output_after, scratch_after};
ghost use Rattle.job.specs.Finishing.{Unrefused, Finished, RanRead};

use super::order::recipe_of;
use filter::page::filter;
use judging::Lengths;
use judging::judge::judge;
use judging::pages::pages_of;
use placement::{Placements, place};
use refusal::Refused;
use ticket::Ticket;

// "A hidden pixel comes out as 255 in every finished page."
const WHITE: u8 = 255;

// Stays: source, output and scratch are three parameters: the last two are lent on by `&mut`, as the C interface lends
// them.
//
// A job that nothing refuses: the page filtered into the output tray, and the scratch it used zero again.
fn finish(
    t: Ticket,
    white: u8,
    p: Placements,
    source: &[u8],
    output: &mut [u8],
    scratch: &mut [u8],
) -> usize
    requires { Unrefused t p (length source.now) (length output.old) (length scratch.old) }
    ensures { Finished t white p source.now output.old scratch.old
        output.new scratch.new result }
{
    let how = recipe_of(t, white);
    let from = place::source_page(p);
    let to = place::output_page(p);
    let work = filter(how, source, from, output, to, scratch);
    let used = place::scratch_needed(pages_of(), p.width, p.height);
    tray::paint::clear(scratch, used);
    work
}

// The job of a ticket that was read, with this white under its boxes: a file's page has a white of its own.
pub fn run_read(
    t: Ticket,
    white: u8,
    p: Placements,
    source: &[u8],
    output: &mut [u8],
    scratch: &mut [u8],
) -> Result<u64, Refused>
    requires { Allowed t }
    ensures { RanRead t white p source.now output.old scratch.old
        output.new scratch.new result }
{
    let n = Lengths {
        source: source.len(),
        output: output.len(),
        scratch: scratch.len(),
    };
    judge(&t.boxes[..t.count], p, n)?;
    let work = finish(t, white, p, source, output, scratch);
    Ok(work as u64)
}

// The job. Every ticket, placement and buffer length gets an answer: a finished page and its comparisons, or the
// first of the fourteen refusals. A refused job writes nothing. A finished one writes only its page, and leaves the
// scratch it used at zero.
#[tactic(auto, using(crate::proofs::Running::unread))]
pub fn run(
    ticket: &[u8],
    p: Placements,
    source: &[u8],
    output: &mut [u8],
    scratch: &mut [u8],
) -> Result<u64, Refused>
    ensures answered { result ≡ answer ticket.now p
        (lengths source.now output.old scratch.old) }
    ensures written { output.new ≡ output_after ticket.now p source.now
        output.old scratch.old }
    ensures cleared { scratch.new ≡ scratch_after ticket.now p source.now
        output.old scratch.old }
{
    let read = ticket::read(ticket)?;
    run_read(read, WHITE, p, source, output, scratch)
}
