#![tactic(auto)]

// The worked cases of document 01, 'Small pages to check against': one table under one statement over the
// definitions of page, work and job (specs/Cases); a job on a file (specs/Files); a list of jobs (specs/Lists); and why
// pixels came out so (specs/Reasons). No function stands here; the cases of document 01 are run by the program `cases`.
// They have a crate of their own because they take some seconds to compute, and would be computed again with every
// wrong program of the job.
