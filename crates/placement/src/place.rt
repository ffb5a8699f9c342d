// A placement's limits, whether its page fits a tray, where a row starts, the two pages of a job, and the scratch they
// need. The decisions hold for any numbers: nothing wraps.
ghost use Rattle.std.specs.Prelude.{◌≡◌, ◌&&◌, ◌-◌, ◌*◌, ◌<◌, ◌≤◌, ◌^◌, max, leb, ltb};
ghost use Rattle.placement.specs.Placement.{row_start, side_allowed, allowed, fits, longest_side, longest_stride};
ghost use Rattle.placement.specs.Placement.{source_page, output_page, most_pages, scratch_needed};

use crate::{Placement, Placements, Spot};

const LONGEST_SIDE: usize = 8192;

const LONGEST_STRIDE: usize = 16384;

// Whether a width or a height is within its limits.
#[tactic(auto, unfolding(crate::specs::Placement::side_allowed))]
pub fn is_side(n: usize) -> bool
    ensures { result ≡ side_allowed n }
{
    1 <= n && n <= LONGEST_SIDE
}

fn are_sides(width: usize, height: usize) -> bool
    ensures { result ≡ side_allowed width && side_allowed height }
{
    is_side(width) && is_side(height)
}

fn is_stride(stride: usize, width: usize) -> bool
    ensures { result ≡ leb width stride && leb stride longest_stride }
{
    width <= stride && stride <= LONGEST_STRIDE
}

// Whether the sides and the stride are within their limits.
#[tactic(auto, unfolding(crate::specs::Placement::allowed))]
pub fn is_allowed(p: Placement) -> bool
    ensures { result ≡ allowed p }
{
    are_sides(p.width, p.height) && is_stride(p.stride, p.width)
}

// Whether a length is less than so many strides, by a quotient, since the product may wrap.
fn is_shorter(length: usize, steps: usize, stride: usize) -> bool
    ensures { result ≡ ltb length (steps * stride) }
{
    if steps == 0 {
        return false;
    }
    length / steps < stride
}

// Whether a page fits a tray of so many bytes, whatever its offset, sides and stride: the length is divided and taken
// from, so that no sum or product can wrap.
#[tactic(auto, unfolding(crate::specs::Placement::fits))]
pub fn does_fit(p: Placement, length: usize) -> bool
    ensures { result ≡ fits p length }
{
    let steps = p.height.saturating_sub(1);
    if is_shorter(length, steps, p.stride) {
        return false;
    }
    let left = length - steps * p.stride;
    if left < p.width {
        return false;
    }
    p.offset <= left - p.width
}

// The page of a job that stands at a spot.
fn page_at(p: Placements, spot: Spot) -> Placement
    ensures { result ≡ record { offset = spot.offset; width = p.width; height = p.height; stride = spot.stride } }
{
    Placement {
        offset: spot.offset,
        width: p.width,
        height: p.height,
        stride: spot.stride,
    }
}

// Where the page that a job reads stands.
#[tactic(auto, unfolding(crate::specs::Placement::source_page))]
pub fn source_page(p: Placements) -> Placement
    ensures { result ≡ source_page p }
{
    page_at(p, p.source)
}

// Where the page that a job writes stands.
#[tactic(auto, unfolding(crate::specs::Placement::output_page))]
pub fn output_page(p: Placements) -> Placement
    ensures { result ≡ output_page p }
{
    page_at(p, p.output)
}

// How many bytes of scratch are used by a job that keeps so many pages of these sides there.
#[tactic(auto, unfolding(crate::specs::Placement::scratch_needed))]
pub fn scratch_needed(pages: usize, width: usize, height: usize) -> usize
    requires { (pages ≤ most_pages) × (width ≤ longest_side) × (height ≤ longest_side) }
    ensures { result ≡ scratch_needed pages width height }
{
    pages * width * height + 3 * width.max(height)
}

// Where a row starts. No other function computes a row's place from its number; tiles go on from their first row's,
// stride by stride.
#[tactic(auto, unfolding(crate::specs::Placement::row_start))]
pub fn row_start(p: Placement, r: usize) -> usize
    requires { row_start p r < 2 ^ 64 }
    ensures { result ≡ row_start p r }
{
    p.offset + r * p.stride
}
