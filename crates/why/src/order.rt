// What a ticket orders of the search.
ghost use Rattle.std.specs.Prelude.{◌≡◌};
ghost use Rattle.ticket.specs.Laws.{Allowed};
ghost use Rattle.why.specs.Reason.{starts_low, passes_twice};
ghost use Rattle.why.specs.Promises.{search_of};

use finding::Search;
use ticket::{Operation, Ticket};

// Whether the first pass takes the lowest.
fn starts_low(operation: Operation) -> bool
    ensures { result ≡ starts_low operation }
{
    matches!(operation, Operation::Erode | Operation::Open)
}

// Whether a second pass follows.
pub fn passes_twice(operation: Operation) -> bool
    ensures { result ≡ passes_twice operation }
{
    matches!(operation, Operation::Open | Operation::Close)
}

// The windows of the first pass, and where they are laid: at every step of the second window, or at the pixel alone.
// The row begins L - 1 steps before the pixel, and the second window as many as the first ones have after their
// pixels: so it begins at place `back` of the row.
pub fn search_of(t: Ticket) -> Search
    requires { Allowed t }
    ensures { result ≡ search_of t }
{
    let low = starts_low(t.operation);
    let twice = passes_twice(t.operation);
    let last = t.length - 1;
    let back = if low { t.origin } else { last - t.origin };
    let (from, steps) = if twice { (back, t.length) } else { (last, 1) };
    Search {
        low,
        back,
        length: t.length,
        from,
        steps,
    }
}
