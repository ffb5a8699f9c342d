// How far a line has moved along the minor axis at each of its steps.
ghost use Rattle.std.specs.Prelude.{◌≡◌, ◌≤◌, length};
ghost use Rattle.geometry.specs.Drift.{Allowed};
ghost use Rattle.geometry.specs.Tables.{Multiples, ProfileTable};

use crate::{Line, bresenham};
use vectors::{major_of, minor_of, size};

// Fills a table with the multiples of a periodic line's minor component: "one step adds (dx, dy)".
fn add_up(minor: usize, table: &mut [usize])
    requires minor_bound { minor ≤ 255 }
    requires table_len_bound { length table.old ≤ 8193 }
    ensures same_length { length table.new ≡ length table.old }
    ensures multiples { Multiples minor table.new }
{
    let mut moved: usize = 0;
    for place in table.iter_mut() {
        *place = moved;
        moved += minor;
    }
}

// Fills a table with the drift at each of a line's first steps, from step 0 on.
pub fn fill_profile(line: Line, table: &mut [usize])
    requires allowed { Allowed line }
    requires table_len_bound { length table.old ≤ 8193 }
    ensures same_length { length table.new ≡ length table.old }
    ensures tabled { ProfileTable line table.new }
{
    let minor = size(minor_of(line.dx, line.dy));
    if line.periodic {
        add_up(minor, table);
    } else {
        bresenham::draw(major_of(line.dx, line.dy), minor, line.phase, table);
    }
}
