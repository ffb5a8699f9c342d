// The compact page of a layout: its sides, and its place in a tray of its own.
ghost use Rattle.std.specs.Prelude.{◌≡◌};
ghost use Rattle.tray.specs.Turned.{compact_width, compact_height, compact_of};

use crate::Layout;
use placement::Placement;

// How long the rows of the compact page are.
pub fn compact_width(lay: Layout) -> usize
    ensures { result ≡ compact_width lay }
{
    if lay.steep { lay.width } else { lay.height }
}

// How many rows the compact page has.
pub fn compact_height(lay: Layout) -> usize
    ensures { result ≡ compact_height lay }
{
    if lay.steep { lay.height } else { lay.width }
}

// Where the compact page stands in its own tray: at the start, with nothing between its rows.
pub fn compact(lay: Layout) -> Placement
    ensures { result ≡ compact_of lay }
{
    let width = compact_width(lay);
    let height = compact_height(lay);
    Placement {
        offset: 0,
        width,
        height,
        stride: width,
    }
}
