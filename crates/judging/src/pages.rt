// What a job keeps in the scratch.
ghost use Rattle.std.specs.Prelude.{◌≡◌, ◌≤◌};
ghost use Rattle.ticket.specs.declared.Ticket.{Ticket};
ghost use Rattle.placement.specs.Placement.{most_pages};
ghost use Rattle.judging.specs.Pages.{pages_of};

// How many pages a job keeps in the scratch: two, whatever its ticket.
pub fn pages_of() -> usize
    ensures every_job { (t : Ticket) → result ≡ pages_of t }
    ensures few { result ≤ most_pages }
{
    2
}
