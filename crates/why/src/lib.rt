// Why a pixel came out so. Document 02, wish 4: given a job and a pixel, the reason. Nothing is filtered and nothing is
// written: the values near the pixel are gathered in a row (`nearby`), and the reason is searched there (`finding`).
// The definitions stand in specs/: Reason (what is named), Told (refusals, and the reason of a job that would finish),
// Promises (what the functions here ask of one another). Laws, in proofs/, is what follows.
//
//     ask      the question, with no condition on its callers: why
//     steps    the reason for a pixel of a page that is there
//     order    what a ticket orders of the search
#![tactic(auto)]

pub mod ask;
mod order;
mod steps;

use nearby::Pixel;

// A reason: kind 1, a hidden box, by its number from 0; 3, one pass, `through` the pixel itself and `from` the step of
// its window; 4, two passes, `through` the step of the second window and `from` the one of that step's own window. 2 is
// left for a kept box. A number that is not meant is 0.
#[derive(Clone, Copy)]
pub struct Reason {
    pub kind: usize,
    pub number: usize,
    pub phase: usize,
    pub through: Pixel,
    pub from: Pixel,
}
