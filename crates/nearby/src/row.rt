// The values of the row.
ghost use Rattle.std.specs.Prelude.{◌≡◌, ◌≤◌, length};
ghost use Rattle.placement.specs.Placement as placed;
ghost use Rattle.filter.specs.Seen.{seen};
ghost use Rattle.finding.specs.Row.{value_of};
ghost use Rattle.nearby.specs.Promises.{Stands, Tabled, OnPage, RowAmong};

use super::place::pixel_in;
use super::{Pixel, Standing};
use boxes::Question;
use placement::Placement;
use ticket::HiddenBox;

// What a filter sees at a pixel that may be off the page: its grey, or nothing where it is absent. The boxes are lent:
// a ticket's would be copied for each pixel.
fn value_at(boxes: &[HiddenBox], source: &[u8], from: Placement, at: Pixel) -> Option<u16>
    requires { placed.Placed from (length source.now) }
    ensures { result ≡ value_of (seen boxes.now from.width from.height
        (placed.pixel_in source.now from) at.column at.row) }
{
    let Pixel { column, row } = at;
    if from.width <= column || from.height <= row {
        None
    } else if boxes::first(boxes, Question::Holds { column, row }).is_some() {
        None
    } else {
        let part = tray::row::row(source, from, row);
        Some(part[column] as u16)
    }
}

// Fills a row with the values near a pixel.
pub fn fill_row(
    boxes: &[HiddenBox],
    s: Standing,
    source: &[u8],
    from: Placement,
    profile: &[usize],
    row: &mut [Option<u16>],
)
    requires stands { Stands s }
    requires tabled { Tabled s profile.now }
    requires of_page { OnPage s from (length source.now) }
    requires row_len_bound { length row.old ≤ 16383 }
    ensures same_length { length row.new ≡ length row.old }
    ensures filled { RowAmong boxes.now s from source.now row.new }
{
    for (i, value) in row.iter_mut().enumerate() {
        *value = value_at(boxes, source, from, pixel_in(s, profile, i));
    }
}
