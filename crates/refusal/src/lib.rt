// What a reader or a job answers: that it is done, with its work, or a refusal with its place. No function has a
// `requires`. The definitions stand in specs/: Refusal (the numbers), Answer (what an answer is; its number, place and
// work), Chain (judgements one after the other, and their laws). A further refusal is one case here and one number in
// `report` and specs/Refusal.
#![tactic(auto)]

pub mod chain; // chain.rt: judgements one after the other
mod printed; // printed.rt: a refusal as the programs print it
pub mod report; // report.rt: an answer as numbers

// Why nothing is done: the refusals 1 to 14 of document 01, in this order, and those that came later.
#[derive(Clone, Copy)]
pub enum Refusal {
    TicketEnds, // ticket ends in a field, or before one of tags 1 to 6
    WrongTag, // a tag other than the one due
    WrongLength, // wrong field length
    Unknown, // unknown operation or line
    TooManyBoxes, // a 65th box
    BadVector, // vector not allowed
    BadLength, // L is 0 or above 8192
    BadOrigin, // o not below L
    BadPhase, // phase not allowed
    BadSides, // w, h or a stride beyond its limits
    SourceTooShort, // source page doesn't fit its tray
    OutputTooShort, // output page doesn't fit its tray
    ScratchTooShort, // scratch too short
    BadBox, // box with a zero side or passing the page's edge
    Later(Later), // one of document 02, or ours
}

// The refusals that document 02 adds, from 15 on, and ours. An enum of their own, as the prover walks enums of sixteen
// cases by itself and not of more.
#[derive(Clone, Copy)]
pub enum Later {
    BadHeader, // bad header, or maximum 0
    BadMaximum, // maximum above 255
    BadPixel, // pixel above the maximum, or too few pixels
    TooManyJobs, // more than 256 jobs
    PixelOffPage, // pixel off the page
    NumbersTooFew, // ours, 100, of every call that is lent a buffer of numbers: the buffer is too short
}

// What is refused, and its place: the head of a field, a byte of a file, a box's number, the numbers needed, or 0. An
// answer is a `Result` with this as its error: `Ok` with the work, or `Err` with the refusal.
#[derive(Clone, Copy)]
pub struct Refused {
    pub refusal: Refusal,
    pub at: usize,
}
