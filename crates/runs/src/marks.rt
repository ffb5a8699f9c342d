// Where the lines that entered from the side are in their blocks: a mark for each column left of a row's drift, in
// the order of the columns. Some columns at the drift and right of it have marks too, so that a row's columns can
// be taken thirty-two at a time.
ghost use Rattle.std.specs.Prelude.{◌≡◌, replicate};
ghost use Rattle.runs.specs.Runs.{Marked};

use super::step;
use super::tables::Tables;

// Marks for the longest side, and the spare ones, all zero.
pub fn no_marks() -> [u16; 8224]
    ensures { result ≡ replicate 8224 0 }
{
    [0u16; 8224]
}

pub fn fill_marks(tables: &Tables, marks: &mut [u16])
    requires { marks.old ≡ replicate 8224 0 }
    ensures { Marked tables.now.grid marks.new }
{
    let height = tables.grid.height;
    let length = tables.grid.length;
    for v in 1..height {
        let entry = step::entry_of(tables.reaches, v);
        marks[height - v] = (entry % length) as u16;
    }
}
