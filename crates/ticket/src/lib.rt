// The job ticket: what stands in it, and the nine refusals of its reader. `read` takes every string of bytes: no
// public function has a `requires`.
// The definitions stand in specs/: Boxes (the boxes of a ticket), Judging (the order of judging), Reading (the ticket
// as shown). Laws has what a caller may rely on: the fields of a ticket that was read are in their ranges. The refusals
// are crate refusal's; bytes and fields, and the rules of vector and phase, are crate fields'.
#![tactic(auto)]

mod fill; // fill.rt: the ticket as shown, with its 64 box places
mod judge; // judge.rt: the answer, field by field

ghost use Rattle.std.specs.Prelude.{◌≡◌};
ghost use Rattle.ticket.specs.Reading.{reading};

use refusal::Refused;

// A box whose pixels are hidden: its left column, its top row, its sides.
#[derive(Clone, Copy)]
pub struct HiddenBox {
    pub left: usize,
    pub top: usize,
    pub width: usize,
    pub height: usize,
}

// "operation: 1 erode, 2 dilate, 3 open, 4 close"
#[derive(Clone, Copy)]
pub enum Operation {
    Erode = 1,
    Dilate = 2,
    Open = 3,
    Close = 4,
}

// "line: 1 connected (Bresenham), 2 periodic"
#[derive(Clone, Copy)]
pub enum LineKind {
    Connected = 1,
    Periodic = 2,
}

// The ticket as shown: its fields, how many boxes it has, and 64 box places.
// Stays: `Allowed` in the contracts, no ghost field: `shown` builds the ticket of any bytes, refused ones too.
#[derive(Clone, Copy)]
pub struct Ticket {
    pub operation: Operation,
    pub line: LineKind,
    pub dx: i32,
    pub dy: i32,
    pub length: usize,
    pub origin: usize,
    pub phase: usize,
    // Stays: 64 places with their count beside, as `box_places` and `numbers_of` state them; there is no heap here.
    pub count: usize,
    pub boxes: [HiddenBox; 64],
}

// The reading of every string of bytes: the ticket as shown, or the first refusal and the head of its field.
pub fn read(ticket: &[u8]) -> Result<Ticket, Refused>
    ensures { result ≡ reading ticket.now }
{
    judge::judge(ticket)?;
    Ok(fill::show(ticket))
}
