// A pixel, its line and its page, by the axes: shallow lines run along the columns, steep ones along the rows.
ghost use Rattle.std.specs.Prelude.{◌≡◌};
ghost use Rattle.geometry.specs.Drift.{Allowed};
ghost use Rattle.tray.specs.Turned.{down_of, across_of};
ghost use Rattle.nearby.specs.Stand.{standing_of};

use super::{Pixel, Standing};
use geometry::Line;

// Of a column and a row, or of a width and a height: the one along which the lines run.
pub fn down_of(steep: bool, column: usize, row: usize) -> usize
    ensures { result ≡ down_of steep column row }
{
    if steep { row } else { column }
}

// And the other one.
pub fn across_of(steep: bool, column: usize, row: usize) -> usize
    ensures { result ≡ across_of steep column row }
{
    if steep { column } else { row }
}

// The pixel of a page with these sides on its line, with `reach` steps of its row before it.
pub fn standing_of(line: Line, reach: usize, width: usize, height: usize, at: Pixel) -> Standing
    requires { Allowed line }
    ensures { result ≡ standing_of line reach width height at }
{
    let steep = vectors::is_steep(line.dx, line.dy);
    Standing {
        line,
        steep,
        reach,
        high: down_of(steep, width, height),
        wide: across_of(steep, width, height),
        major: down_of(steep, at.column, at.row),
        minor: across_of(steep, at.column, at.row),
    }
}
