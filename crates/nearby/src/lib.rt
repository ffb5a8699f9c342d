// The pixels near a pixel: those of its own line fewer than L steps away, as demand 3 has them, in a row of 2·L - 1
// values. The pixel itself stands in the middle of the row, at place L - 1; a place that is before the line's first
// step, off the page or under a box is absent.
// The definitions stand in specs/: Stand (a pixel on its line, and the pixel at a place of its row), Promises (what the
// functions here ask and promise), and Laws, what follows.
//
//     stand    a pixel, its line and its page, by the axes
//     place    which pixel stands at a place of the row
//     row      the values of the row
#![tactic(auto)]

pub mod place;
pub mod row;
pub mod stand;

use geometry::Line;

// A pixel of a page, by its column and row.
#[derive(Clone, Copy)]
pub struct Pixel {
    pub column: usize,
    pub row: usize,
}

// A pixel and its line: the page is `high` places long on the axis along which the line runs and `wide` on the other,
// the pixel is at `major` of the one and `minor` of the other, and its row begins `reach` steps before it.
#[derive(Clone, Copy)]
pub struct Standing {
    pub line: Line,
    pub steep: bool,
    pub reach: usize,
    pub high: usize,
    pub wide: usize,
    pub major: usize,
    pub minor: usize,
}
