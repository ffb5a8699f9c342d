// Refusals 10 to 14: whether a job's pages and boxes lie where they may. Each is a test of its own, so that a call
// that has no output page can leave its test out.
ghost use Rattle.std.specs.Prelude.{◌≡◌, ◌≤◌};
ghost use Rattle.ticket.specs.declared.Ticket.{Ticket};
ghost use Rattle.placement.specs.Placement.{longest_side, most_pages};
ghost use Rattle.boxes.specs.Boxes.{boxes_of};
ghost use Rattle.judging.specs.Judging.{judge_sides, judge_source, judge_output, judge_scratch, judge_page_boxes};
ghost use Rattle.judging.specs.Judging.{judge_places};

use super::Lengths;
use super::pages::pages_of;
use placement::{Placements, place};
use refusal::chain::{first_refusal, refuse_unless};
use refusal::{Refusal, Refused};
use ticket::HiddenBox;

// 10: both pages are within the limits.
pub fn judge_sides(p: Placements) -> Result<u64, Refused>
    ensures { result ≡ judge_sides p }
{
    let from = place::is_allowed(place::source_page(p));
    let to = place::is_allowed(place::output_page(p));
    refuse_unless(from && to, Refusal::BadSides, 0)
}

// 11: the source page fits its tray.
pub fn judge_source(p: Placements, length: usize) -> Result<u64, Refused>
    ensures { result ≡ judge_source p length }
{
    let fits = place::does_fit(place::source_page(p), length);
    refuse_unless(fits, Refusal::SourceTooShort, 0)
}

// 12: the output page fits its tray.
pub fn judge_output(p: Placements, length: usize) -> Result<u64, Refused>
    ensures { result ≡ judge_output p length }
{
    let fits = place::does_fit(place::output_page(p), length);
    refuse_unless(fits, Refusal::OutputTooShort, 0)
}

// 13: the scratch has room for so many pages of these sides, which are within their limits.
pub fn judge_scratch(
    pages: usize,
    width: usize,
    height: usize,
    length: usize,
) -> Result<u64, Refused>
    requires { (pages ≤ most_pages) × (width ≤ longest_side) × (height ≤ longest_side) }
    ensures { result ≡ judge_scratch pages width height length }
{
    let needed = place::scratch_needed(pages, width, height);
    refuse_unless(needed <= length, Refusal::ScratchTooShort, 0)
}

// 14: every lent box lies on the page; the place is the first one that does not.
pub fn judge_boxes(boxes: &[HiddenBox], width: usize, height: usize) -> Result<u64, Refused>
    ensures { result ≡ judge_page_boxes width height boxes.now }
{
    match boxes::first_refused(boxes, width, height) {
        Some(first) => Err(Refused {
            refusal: Refusal::BadBox,
            at: first,
        }),
        None => Ok(0),
    }
}

// The first of refusals 10 to 14 for every ticket with these boxes; without one it is done, with no work yet. The
// scratch is judged only for sides within their limits.
pub fn judge(boxes: &[HiddenBox], p: Placements, n: Lengths) -> Result<u64, Refused>
    ensures { (t : Ticket) → boxes_of t ≡ boxes.now → result ≡ judge_places t p n }
{
    judge_sides(p)?;
    let source = judge_source(p, n.source);
    let output = judge_output(p, n.output);
    first_refusal(source, output)?;
    let scratch = judge_scratch(pages_of(), p.width, p.height, n.scratch);
    let boxes = judge_boxes(boxes, p.width, p.height);
    first_refusal(scratch, boxes)
}
