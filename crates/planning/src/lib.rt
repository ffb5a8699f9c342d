// How a row of each sweep over a page in normal form is made: a plan for it, in numbers alone. No function here is
// lent a page; `runs` says what a plan is, and carries it out.
//
// The definitions stand in specs/: Plans (the plans of the three sweeps).
#![tactic(auto)]

pub mod plans; // plans.rt: what is written, what is read, where blocks begin
