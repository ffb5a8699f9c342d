// The job on a file: the ticket read, the file read, its page filtered behind the place of the header, and the header
// written before it.
ghost use Rattle.std.specs.Prelude.{◌≡◌};
ghost use Rattle.ticket.specs.Laws.{Allowed};
ghost use Rattle.job.specs.Job.{lengths};
ghost use Rattle.file.specs.FileJob.{delivery, file_output_after, file_scratch_after};
ghost use Rattle.file.specs.Delivering.{Delivered};

use super::Finished;
use super::places::places_of;
use heading::write::put_header;
use pgm::Header;
use refusal::Refused;
use ticket::Ticket;

// The job of a ticket and a header that were read.
fn deliver(
    t: Ticket,
    h: Header,
    file: &[u8],
    output: &mut [u8],
    scratch: &mut [u8],
) -> Result<Finished, Refused>
    requires { Allowed t }
    ensures { Delivered t h file.now output.old scratch.old
        output.new scratch.new result }
{
    let places = places_of(h);
    let work = job::job::run_read(t, h.maximum, places, file, output, scratch)?;
    put_header(h.width, h.height, h.maximum, output);
    let length = places.output.offset + h.width * h.height;
    Ok(Finished { work, length })
}

// The job on a file. Every ticket, file and buffer length gets an answer: a finished file, its length and its
// comparisons, or the first refusal: the ticket's own, then 15 to 17, then 10 to 14. A refused job writes nothing; a
// finished one writes the file from the output's first byte on, and leaves the scratch it used at zero.
pub fn run(
    ticket: &[u8],
    file: &[u8],
    output: &mut [u8],
    scratch: &mut [u8],
) -> Result<Finished, Refused>
    ensures answered { result ≡ delivery ticket.now file.now
        (lengths file.now output.old scratch.old) }
    ensures written { output.new ≡ file_output_after ticket.now file.now
        output.old scratch.old }
    ensures cleared { scratch.new ≡ file_scratch_after ticket.now file.now
        output.old scratch.old }
{
    let order = ticket::read(ticket)?;
    let header = pgm::read(file)?;
    deliver(order, header, file, output, scratch)
}
