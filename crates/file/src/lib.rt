// The job on a file: a page that arrives as a raw Netpbm grey file (P5) is filtered as a ticket orders and given back
// as such a file. Nothing here has a condition on its callers. The definitions stand in specs/: Places (where the page
// stands in both files), Reading (a file alone), FileJob (answer, output and scratch of a job on a file).
//
//     places   where the page stands in both files
//     read     a file alone: refusals 15 to 17 and 10
//     run      the job on a file
#![tactic(auto)]

mod places;
pub mod read;
pub mod run;

// A job on a file that is done: its work, and how many bytes were written, the whole file.
#[derive(Clone, Copy)]
pub struct Finished {
    pub work: u64,
    pub length: usize,
}
