// Lines across a page: where each step lands, and which number a pixel has on its line. Which way a line runs,
// `vectors` says; how a connected one is drawn, `bresenham`. The definitions stand in specs/: Line (D, phases, steps),
// Number (behind, ahead), Drift (the profile's size, the normal form, reach), Flip (the line of a flipped page),
// Bresenham (the running error). Laws, in proofs/, has all that a layer above may use.
#![tactic(auto)]

mod bresenham;
pub mod entry;
pub mod normal;
pub mod number;
pub mod profile;

// A line as a ticket orders it: connected or periodic, along the vector (dx, dy), with a phase.
// Stays: `Allowed` in the contracts, no ghost field: `line_of` in job's specs builds the line of any ticket, allowed or
// not, and theorems of demands name it.
#[derive(Clone, Copy)]
pub struct Line {
    pub periodic: bool,
    pub dx: i32,
    pub dy: i32,
    pub phase: usize,
}
