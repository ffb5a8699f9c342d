// A row of a page in normal form, made in runs of neighbouring bytes by a plan. A page in normal form has its lines
// running down the rows and drifting to the right (geometry, Drift). The scratch holds two such pages, A and behind
// it B.
//
// The definitions stand in specs/: Span (the extreme between two steps), Block (van Herk's scheme along one line,
// and its cost), Grid (lines of a page in normal form), Scratch (the two pages, and what is kept of them), Runs
// (runs, marks, and a plan carried out); GridLaws, and BlockLaws in proofs/, are what follows from them. The
// plans of the sweeps are made in `planning`.
//
//     walk    a plan carried out
//     marks   where the lines of side columns are in their blocks
//     run     runs of neighbouring bytes: copied, or compared and counted
//     step    where the steps of a pixel's line stand
//     tables  a page with the tables of its line, and a row of it
#![tactic(auto)]

use geometry::Line;

pub mod marks;
pub mod run;
pub mod step;
pub mod tables;
pub mod walk;

// The page's sides, its line, and the window: how far it reaches back and on from a pixel, and its length, back + 1
// + on.
#[derive(Clone, Copy)]
pub struct Grid {
    pub line: Line,
    pub width: usize,
    pub height: usize,
    pub period: usize,
    pub back: usize,
    pub on: usize,
    pub length: usize,
    pub low: bool,
}

// How a part of a row is made, from column lo up to hi: written from place `to` on, as it stands at `first` where a
// pixel's line is at a block's first step, counted from step `top`, else chosen of `first` and `second`. All places
// are those of column lo.
#[derive(Clone, Copy)]
pub struct Plan {
    pub lo: usize,
    pub hi: usize,
    pub to: usize,
    pub first: usize,
    pub second: usize,
    pub top: usize,
}
