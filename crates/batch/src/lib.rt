// A whole tray in one call: a list of up to 256 jobs, run in its order on one source tray, one output tray and one
// scratch. The definitions stand in specs/: Batch (the trays after so many jobs, and each job's answer: a fold of what
// a single job answers and leaves), Call (the whole call: why a list is refused, and what every buffer holds
// afterwards), Promises (what the functions here promise one another). Laws, in proofs/, is what follows. The list and
// its answers are rows of numbers, which `listing` reads and writes.
//
//     run       the list, with no condition on its callers: run
#![tactic(auto)]

pub mod run;
