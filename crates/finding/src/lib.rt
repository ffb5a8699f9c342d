// The search for a reason along one line. Its values stand in a row: each is a grey, or none where the pixel is absent.
// A first pass takes the lowest, or highest, of a window of the row; the result is the highest, or lowest, of what the
// first pass makes of some neighbouring places; and the reason is the first of these places that has the result after
// the first pass, with the first place of its own window that has it.
// The definitions stand in specs/: Row (values, a first pass, the result, the first hit), Promises (what the functions
// here ask). Laws, in proofs/, is what follows.
//
//     value     of two values the lower, or the higher
//     extreme   the extreme of a window, of one first pass, and of all
//     hits      the first hit
#![tactic(auto)]

mod extreme;
pub mod hits;
mod value;

// What is looked for: a first pass whose windows have so many places, `back` of them before the place they are laid at,
// at each of the `steps` places of the row from `from` on.
#[derive(Clone, Copy)]
pub struct Search {
    pub low: bool,
    pub back: usize,
    pub length: usize,
    pub from: usize,
    pub steps: usize,
}

// The first hit: the place whose first pass gives the result, and the place of its window that gave it.
#[derive(Clone, Copy)]
pub struct Hit {
    pub through: usize,
    pub from: usize,
}
