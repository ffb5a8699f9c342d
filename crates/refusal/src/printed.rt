// A refusal as the programs print it.
ghost use Rattle.std.specs.Prelude.{Some, ◌++◌, codes, decimal};
ghost use Rattle.refusal.specs.Refusal.{refusal_number as its_number};

use super::{Refused, report};
use std::fmt;

// `refused N at P`: its number and its place.
impl fmt::Display for Refused {
    ghost output = { λ r. Some (codes "refused " ++ decimal (its_number r.refusal) ++ codes " at " ++ decimal r.at) };

    fn fmt<W: fmt::Write>(&self, f: &mut fmt::Formatter<W>) -> fmt::Result {
        let number = report::refusal_number(self.refusal);
        let at = self.at;
        write!(f, "refused {number} at {at}")
    }
}
