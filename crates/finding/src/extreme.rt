// The extreme of a window, what a first pass makes of one place, and the extreme of all first passes.
ghost use Rattle.std.specs.Prelude.{◌≡◌, length};
ghost use Rattle.filter.specs.Filters.{extreme};
ghost use Rattle.finding.specs.Row.{in_row, value_of, first_pass, result_of};
ghost use Rattle.finding.specs.Promises.{Fits, Lies};

use super::Search;
use super::value::joined;

// The lowest, or highest, of the values of a window.
fn extreme_of(low: bool, window: &[Option<u16>]) -> Option<u16>
    ensures { result ≡ value_of (extreme low (in_row window.now) 0 (length window.now)) }
{
    window
        .iter()
        .rev()
        .fold(None, |most, x| joined(low, *x, most))
}

// What the first pass makes of the place i: an absent pixel stays absent, any other becomes its window's extreme.
pub fn first_pass(s: Search, row: &[Option<u16>], i: usize) -> Option<u16>
    requires { Lies s (length row.now) i }
    ensures { result ≡ first_pass s row.now i }
{
    match row[i] {
        None => None,
        Some(_) => {
            let begin = i - s.back;
            extreme_of(s.low, &row[begin..begin + s.length])
        }
    }
}

// The result: the highest, or lowest, of what the first pass makes of the places that are looked over.
pub fn result_of(s: Search, row: &[Option<u16>]) -> Option<u16>
    requires { Fits s (length row.now) }
    ensures { result ≡ result_of s row.now }
{
    let mut most = None;
    for i in (s.from..s.from + s.steps).rev() {
        most = joined(!s.low, first_pass(s, row, i), most);
    }
    most
}
