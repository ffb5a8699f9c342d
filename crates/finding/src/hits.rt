// The search for the first hit.
ghost use Rattle.std.specs.Prelude.{◌≡◌, length, IsSome};
ghost use Rattle.finding.specs.Row.{result_of, hit_of};
ghost use Rattle.finding.specs.Promises.{Fits};

use super::extreme::{first_pass, result_of};
use super::{Hit, Search};

// "looking over steps .. and stopping at the hit": the first place whose first pass gives the result, and in its own
// window the first that has it. That the result stands somewhere in the window of a place is not enough: the first pass
// must give it there.
pub fn first_hit(s: Search, row: &[Option<u16>]) -> Hit
    requires fits { Fits s (length row.now) }
    requires row_bound { IsSome (result_of s row.now) }
    ensures { result ≡ hit_of s row.now }
{
    let grey = result_of(s, row);
    'search: {
        for through in s.from..s.from + s.steps {
            if first_pass(s, row, through) != grey {
                continue;
            }
            let begin = through - s.back;
            for from in begin..begin + s.length {
                if row[from] == grey {
                    break 'search Hit { through, from };
                }
            }
        }
        unreachable!()
    }
}
