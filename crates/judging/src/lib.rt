// Whether a job's pages, scratch and boxes lie where they may: refusals 10 to 14, before anything is filtered. The
// definitions stand in specs/: Pages (the scratch that a job needs), Judging (the refusals, test by test), and Laws,
// what follows where nothing is refused.
//
//     judge    refusals 10 to 14, each a test of its own
//     pages    what a job keeps in the scratch
#![tactic(auto)]

pub mod judge;
pub mod pages;

// The lengths of the three buffers that a job is lent.
#[derive(Clone, Copy)]
pub struct Lengths {
    pub source: usize,
    pub output: usize,
    pub scratch: usize,
}
