// The filters: a page that stands in one lent buffer, filtered along lines into a page that stands in another.
// The definitions stand in specs/: Seen (a page with absent pixels), Filters (windows, erosion, dilation, opening,
// closing), Work (comparisons), Windows (which steps are in a window), Promises (what the functions here ask and
// promise). Laws, in proofs/, is what others may use of them.
// They speak of a page as a function of column and row; nobody above knows how the scratch is used.
//
//     page     a placed page filtered into a placed page: filter
//     passes   the four filters, of one pass or two, over the page in the scratch
#![tactic(auto)]

pub mod page;
mod passes;

use geometry::Line;
use ticket::{HiddenBox, Operation};

// What a window is laid along: the line, how many steps a window has, and how many of them lie before the pixel in an
// erosion.
#[derive(Clone, Copy)]
pub struct Segment {
    pub line: Line,
    pub length: usize,
    pub origin: usize,
}

// What is done to a page: an operation along a segment, with the pixels under the first count
// boxes absent, and white in their place on the page that comes out.
#[derive(Clone, Copy)]
pub struct Recipe {
    pub operation: Operation,
    pub segment: Segment,
    pub white: u8,
    // Stays: no lent list, since `recipe_of` in job's specs builds this record from a ticket's count and its 64 places.
    pub count: usize,
    pub boxes: [HiddenBox; 64],
}
