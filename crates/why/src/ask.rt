// The question: a job and a pixel.
ghost use Rattle.std.specs.Prelude.{◌≡◌};
ghost use Rattle.why.specs.Told.{judge_pixel, told};

use super::Reason;
use super::steps::reason_of;
use judging::Lengths;
use judging::judge::judge;
use nearby::Pixel;
use placement::{Placements, place};
use refusal::chain::{first_refusal, refuse_unless};
use refusal::{Later, Refusal, Refused};

// 19: the pixel is one of the page.
fn judge_pixel(p: Placements, at: Pixel) -> Result<u64, Refused>
    ensures { result ≡ judge_pixel p at }
{
    let across = at.column < p.width;
    let down = at.row < p.height;
    refuse_unless(across & down, Refusal::Later(Later::PixelOffPage), 0)
}

// Why a pixel of a job comes out so. The output tray and the scratch are judged by their lengths as for the job, and
// neither is lent. Every ticket, placement, length and pixel gets an answer: a reason, or the first of the job's
// refusals and then 19.
pub fn why(
    ticket: &[u8],
    p: Placements,
    source: &[u8],
    output: usize,
    scratch: usize,
    at: Pixel,
) -> Result<Reason, Refused>
    ensures { result ≡ told ticket.now p source.now output scratch at }
{
    let read = ticket::read(ticket)?;
    let n = Lengths {
        source: source.len(),
        output,
        scratch,
    };
    let boxes = &read.boxes[..read.count];
    let places = judge(boxes, p, n);
    first_refusal(places, judge_pixel(p, at))?;
    Ok(reason_of(read, source, place::source_page(p), at))
}
