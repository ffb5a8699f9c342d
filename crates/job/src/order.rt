// What a ticket orders of the filter.
ghost use Rattle.std.specs.Prelude.{◌≡◌};
ghost use Rattle.ticket.specs.Laws.{Allowed};
ghost use Rattle.ticket.specs.Reading.{periodic_kind};
ghost use Rattle.job.specs.Order.{line_of, recipe_of};

use filter::{Recipe, Segment};
use geometry::Line;
use ticket::{LineKind, Ticket};

fn is_periodic(line: LineKind) -> bool
    ensures { result ≡ periodic_kind line }
{
    matches!(line, LineKind::Periodic)
}

// The line of a ticket that was read.
pub fn line_of(t: Ticket) -> Line
    requires { Allowed t }
    ensures { result ≡ line_of t }
{
    Line {
        periodic: is_periodic(t.line),
        dx: t.dx,
        dy: t.dy,
        phase: t.phase,
    }
}

// The operation along the segment, the boxes, and how a hidden pixel comes out.
pub fn recipe_of(t: Ticket, white: u8) -> Recipe
    requires { Allowed t }
    ensures { result ≡ recipe_of t white }
{
    let segment = Segment {
        line: line_of(t),
        length: t.length,
        origin: t.origin,
    };
    let boxes = t.boxes;
    Recipe {
        operation: t.operation,
        segment,
        white,
        count: t.count,
        boxes,
    }
}
