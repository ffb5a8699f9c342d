// The rows of numbers that a list of jobs and its answers are. The definitions stand in specs/: Listed (a job of the
// list, and its ticket), Numbers (how many numbers there are, and an answer as numbers).
//
//     list      a job of the list as its numbers say, and its ticket
//     answers   the numbers that come back
#![tactic(auto)]

pub mod answers;
pub mod list;

use placement::Placements;

// A job of a list: where its ticket stands in the buffer of tickets, and where its pages stand.
#[derive(Clone, Copy)]
pub struct Listed {
    pub start: usize,
    pub length: usize,
    pub places: Placements,
}
