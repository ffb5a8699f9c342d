// The job: a page of one tray, judged, filtered into another tray as its ticket orders, and the scratch cleared.
// The definitions stand in specs/: Order (what a ticket orders of the filter), Job (answer, output tray and scratch of
// a job), Finishing (what the functions here promise one another), and Laws, what follows for a finished job.
//
//     job      the job, with no condition on its callers: run
//     order    what a ticket orders of the filter
#![tactic(auto)]

pub mod job;
pub mod order;
