// The reason for a pixel of a page that is there: a box, or steps of its line.
ghost use Rattle.std.specs.Prelude.{◌≡◌, false, suc, ◌+◌, length};
ghost use Rattle.boxes.specs.Boxes.{hidden, boxes_of};
ghost use Rattle.why.specs.Reason.{without_steps, by_steps, reason_of};
ghost use Rattle.why.specs.Promises.{Asked, Searched, reason_in};

use super::Reason;
use super::order::{passes_twice, search_of};
use boxes::Question;
use finding::hits::first_hit;
use nearby::place::pixel_in;
use nearby::row::fill_row;
use nearby::stand::standing_of;
use nearby::{Pixel, Standing};
use placement::Placement;
use ticket::Ticket;

// The kinds of reasons.
const HIDDEN_BOX: usize = 1;

const ONE_PASS: usize = 3;

const TWO_PASSES: usize = 4;

// A reason that names no step.
pub fn without_steps(kind: usize, number: usize) -> Reason
    ensures { result ≡ without_steps kind number }
{
    let nowhere = Pixel { column: 0, row: 0 };
    Reason {
        kind,
        number,
        phase: 0,
        through: nowhere,
        from: nowhere,
    }
}

// The reason that the first hit in a row names.
fn named_in(t: Ticket, s: Standing, profile: &[usize], row: &[Option<u16>]) -> Reason
    requires { Searched t s profile.now row.now }
    ensures { result ≡ reason_in t s row.now }
{
    let hit = first_hit(search_of(t), row);
    let twice = passes_twice(t.operation);
    Reason {
        kind: if twice { TWO_PASSES } else { ONE_PASS },
        number: 0,
        phase: t.phase,
        through: pixel_in(s, profile, hit.through),
        from: pixel_in(s, profile, hit.from),
    }
}

// The reason for an unhidden pixel: the values near it are gathered, and the first hit is searched among them.
fn by_steps(
    t: Ticket,
    source: &[u8],
    from: Placement,
    at: Pixel,
    profile: &mut [usize],
    row: &mut [Option<u16>],
) -> Reason
    requires asked { Asked t from (length source.now) at }
    requires row_value { hidden (boxes_of t) at.column at.row ≡ false }
    requires profile_len { (length profile.old ≡ 8192) × (suc (length row.old) ≡ t.length + t.length) }
    ensures { result ≡ by_steps t from source.now at }
{
    let line = job::order::line_of(t);
    let s = standing_of(line, t.length - 1, from.width, from.height, at);
    geometry::profile::fill_profile(line, profile);
    fill_row(&t.boxes[..t.count], s, source, from, profile, row);
    named_in(t, s, profile, row)
}

// The reason: "For a hidden pixel, the first box that holds it", for any other the steps of its line.
pub fn reason_of(t: Ticket, source: &[u8], from: Placement, at: Pixel) -> Reason
    requires { Asked t from (length source.now) at }
    ensures { result ≡ reason_of t from source.now at }
{
    let question = Question::Holds {
        column: at.column,
        row: at.row,
    };
    match boxes::first_of(t.boxes, t.count, question) {
        Some(number) => without_steps(HIDDEN_BOX, number),
        None => {
            // A table for the longest side, and of a row for the longest segment the places of this one.
            let mut profile = [0; 8192];
            let mut row = [None; 16384];
            let places = t.length + t.length - 1;
            by_steps(t, source, from, at, &mut profile[..], &mut row[..places])
        }
    }
}
