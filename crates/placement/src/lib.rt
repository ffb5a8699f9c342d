// Where a page stands in a tray of bytes, in numbers alone: no function here is lent a tray.
//
// The definitions stand in specs/: Placement (the byte of a pixel, limits, fitting, scratch). Laws, in proofs/, is what
// follows.
#![tactic(auto)]

pub mod place; // place.rt: limits, fitting, where a row starts; the two pages of a job; the scratch they need

// A page's place in a tray: the byte of its corner, its sides, and how far apart its rows start.
#[derive(Clone, Copy)]
pub struct Placement {
    pub offset: usize,
    pub width: usize,
    pub height: usize,
    pub stride: usize,
}

// Where a page of known sides stands in its tray: the byte of its corner, and how far apart its rows start.
#[derive(Clone, Copy)]
pub struct Spot {
    pub offset: usize,
    pub stride: usize,
}

// Where the two pages of a job stand. They share their sides; each has its own offset and stride.
#[derive(Clone, Copy)]
pub struct Placements {
    pub width: usize,
    pub height: usize,
    pub source: Spot,
    pub output: Spot,
}
