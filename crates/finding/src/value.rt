// Of two values the lower, or the higher; an absent one does not count.
ghost use Rattle.std.specs.Prelude.{◌≡◌};
ghost use Rattle.filter.specs.Filters.{joined};
ghost use Rattle.finding.specs.Row.{grey_in, value_of};

pub fn joined(low: bool, x: Option<u16>, y: Option<u16>) -> Option<u16>
    ensures { result ≡ value_of (joined low (grey_in x) (grey_in y)) }
{
    match (x, y) {
        (Some(x), Some(y)) => Some(if low { x.min(y) } else { x.max(y) }),
        (None, _) => y,
        (_, None) => x,
    }
}
