#![tactic(auto)]

// What a job's answer and its trays depend on, as theorems over the definitions that the job promises (crate job, file
// Job; crate filter, file Filters). There is no code here. specs/ holds the statements: Same (the answer), Untouched
// (what a job leaves alone), Work (how much it may be), Near and Reach (which pixels a result depends on), Exact (that
// it depends on each of them), Flip (of flipped pages), Files (of jobs on files), Lists (of lists of jobs); Demands
// lists them all. proofs/ holds their proofs, and its file Demands says where each is found.
