// One pass over a page in normal form: the backward sweep, and the forward one with the results close behind it,
// each one loop over the rows. The definitions stand in specs/: Sweeps (what each sweep makes, finds and costs),
// Bottom (lines that leave at the page's bottom).
//
//     rows    the sweeps, and the pass
//     row     one row of each sweep
//     rest    results whose windows end past their line
//     bottom  those of lines that leave at the page's bottom
//     pixel   such a result by itself
#![tactic(auto)]

mod bottom;
mod pixel;
mod rest;
mod row;
pub mod rows;

// A value, and how many comparisons it cost.
// Stays: an enum of `AsIs(u8)` and `Compared(u8)` would be matched for the value and again for the count.
#[derive(Clone, Copy)]
pub struct Made {
    pub value: u8,
    pub count: usize,
}

// The marks of lines whose windows, cut at the line's last step, lie in one block: of the marks up to `last` those
// below `near`, of the others those below `far`.
#[derive(Clone, Copy)]
pub struct Within {
    pub last: u16,
    pub near: u16,
    pub far: u16,
}

// The three sweeps of a pass, as the contracts name them: each is a function of `row`.
#[derive(Clone, Copy)]
pub enum Sweep {
    Backward,
    Forward,
    Result,
}
