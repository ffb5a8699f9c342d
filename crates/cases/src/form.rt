// Tickets, from their fields.
// How many bytes of a form make a ticket with no box, with a box over the middle of a row of three, and an empty one.
pub const BARE: usize = 30;

pub const BOXED: usize = 41;

pub const EMPTY: usize = 0;

// The operations, by their numbers in a ticket.
#[derive(Clone, Copy)]
pub enum Operation {
    Erode = 1,
    Dilate = 2,
    Open = 3,
    Close = 4,
}

// The kinds of lines, by theirs.
#[derive(Clone, Copy)]
enum Kind {
    Connected = 1,
    Periodic = 2,
}

// A component of the vector is two bytes: dx is below 256 and has no upper one.
#[derive(Clone, Copy)]
pub struct Line {
    kind: Kind,
    dx: u8,
    dy_upper: u8,
    dy: u8,
    phase: u8,
}

pub fn connected(dx: u8, dy: u8, phase: u8) -> Line {
    Line {
        kind: Kind::Connected,
        dx,
        dy_upper: 0,
        dy,
        phase,
    }
}

// The connected line (dx, -1), in two's complement.
pub fn falling_by_one(dx: u8) -> Line {
    Line {
        kind: Kind::Connected,
        dx,
        dy_upper: 255,
        dy: 255,
        phase: 0,
    }
}

pub fn periodic(dx: u8, dy: u8) -> Line {
    Line {
        kind: Kind::Periodic,
        dx,
        dy_upper: 0,
        dy,
        phase: 0,
    }
}

// "connected (1, 0), phase 0, unless said otherwise"
pub fn level() -> Line {
    connected(1, 0, 0)
}

// Fields 1 to 6 with values of zero, then a box at column 1 and row 0 of one pixel.
fn blank() -> [u8; 41] {
    *b"\x01\0\x01\0\x02\0\x01\0\x03\0\x04\0\0\0\0\x04\0\x02\0\0\x05\0\x02\0\0\x06\0\x02\0\0\
        \x07\0\x08\0\x01\0\0\0\x01\0\x01"
}

// A filled form, of which a case takes the bytes it wants.
pub fn ticket(operation: Operation, line: Line, length: u16, origin: u8) -> [u8; 41] {
    let mut bytes = blank();
    bytes[3] = operation as u8;
    bytes[7] = line.kind as u8;
    bytes[12] = line.dx;
    bytes[13] = line.dy_upper;
    bytes[14] = line.dy;
    let [upper, lower] = length.to_be_bytes();
    bytes[18] = upper;
    bytes[19] = lower;
    bytes[24] = origin;
    bytes[29] = line.phase;
    bytes
}
