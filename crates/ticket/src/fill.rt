// The ticket as shown: its fields, and 64 box places, zero past its boxes.
ghost use Rattle.std.specs.Prelude.{◌≡◌, ◌<◌, length};
ghost use Rattle.ticket.specs.Boxes.{box_at, boxes_in};
ghost use Rattle.ticket.specs.Reading.{operation_of, kind_of, box_places, shown};

use super::{HiddenBox, LineKind, Operation, Ticket};

// What stands in a box place past the boxes.
const NO_BOX: HiddenBox = HiddenBox {
    left: 0,
    top: 0,
    width: 0,
    height: 0,
};

fn box_at(s: &[u8], head: usize) -> HiddenBox
    requires { head < 8388608 }
    ensures { result ≡ box_at s.now head }
{
    let value = head + fields::value::HEAD_BYTES;
    HiddenBox {
        left: fields::value::number_at(s, value) as usize,
        top: fields::value::number_at(s, value + 2) as usize,
        width: fields::value::number_at(s, value + 4) as usize,
        height: fields::value::number_at(s, value + 6) as usize,
    }
}

// The boxes of a ticket, found by one walk from head to head: how many they are, and their places.
// Stays: 64 places with a count beside, as a Ticket shows them.
#[derive(Clone, Copy)]
struct Boxes {
    count: usize,
    places: [HiddenBox; 64],
}

fn find_boxes(s: &[u8]) -> Boxes
    ensures counted { result.count ≡ length (boxes_in s.now) }
    ensures placed { result.places ≡ box_places (boxes_in s.now) }
{
    let mut places = [NO_BOX; 64];
    let mut head = fields::value::FIRST_BOX;
    for count in 0..fields::value::MOST_BOXES {
        if s.len() <= head {
            return Boxes { count, places };
        }
        places[count] = box_at(s, head);
        head = fields::value::field_end(s, head);
    }
    Boxes {
        count: fields::value::MOST_BOXES,
        places,
    }
}

// The operation of a number, and the kind of line: of a ticket that is read both are known.
// Stays: tests and no `match`, as its arm `_` tells a proof nothing of the number: the last operation stays open.
fn operation_of(n: u8) -> Operation
    ensures { result ≡ operation_of n }
{
    if n == 1 {
        Operation::Erode
    } else if n == 2 {
        Operation::Dilate
    } else if n == 3 {
        Operation::Open
    } else {
        Operation::Close
    }
}

fn kind_of(n: u8) -> LineKind
    ensures { result ≡ kind_of n }
{
    if n == 2 {
        LineKind::Periodic
    } else {
        LineKind::Connected
    }
}

pub fn show(s: &[u8]) -> Ticket
    ensures { result ≡ shown s.now }
{
    let Boxes { count, places } = find_boxes(s);
    Ticket {
        operation: operation_of(fields::value::operation_in(s)),
        line: kind_of(fields::value::line_in(s)),
        dx: fields::value::dx_in(s),
        dy: fields::value::dy_in(s),
        length: fields::value::length_in(s) as usize,
        origin: fields::value::origin_in(s) as usize,
        phase: fields::value::phase_in(s) as usize,
        count,
        boxes: places,
    }
}
