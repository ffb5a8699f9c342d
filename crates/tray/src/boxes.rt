// Boxes of a page, and where they lie on the compact page.
ghost use Rattle.std.specs.Prelude.{◌≡◌, ◌*◌, ◌≤◌, length};
ghost use Rattle.tray.specs.Turned.{mirrored_from, mirrored_to, turned_box};
ghost use Rattle.tray.specs.Promises.{RectangleFits, BoxPainted};

use crate::paint::paint;
use crate::sides::compact_width;
use crate::{Layout, Rectangle};

// Of w columns those from m to just before n are mirrored where the line falls: then the first of them, and the one
// past their last.
fn mirrored_sides(falls: bool, w: usize, m: usize, n: usize) -> (usize, usize)
    requires { (m ≤ w) × (n ≤ w) }
    ensures { (result.0 ≡ mirrored_from falls w m n) × (result.1 ≡ mirrored_to falls w m n) }
{
    if falls { (w - n, w - m) } else { (m, n) }
}

// Where a rectangle of the page lies on the compact page.
pub fn turned_box(lay: Layout, x: Rectangle) -> Rectangle
    requires { RectangleFits x lay.width lay.height }
    ensures { result ≡ turned_box lay x }
{
    if lay.steep {
        let (left, right) = mirrored_sides(lay.falls, lay.width, x.left, x.right);
        Rectangle {
            top: x.top,
            bottom: x.bottom,
            left,
            right,
        }
    } else {
        let (left, right) = mirrored_sides(lay.falls, lay.height, x.top, x.bottom);
        Rectangle {
            top: x.left,
            bottom: x.right,
            left,
            right,
        }
    }
}

// The pixels of a rectangle of the page take the value on the compact page; every other byte is as it was.
pub fn paint_box(page: &mut [u8], lay: Layout, x: Rectangle, value: u8)
    requires rectangle_fits { RectangleFits x lay.width lay.height }
    requires height_in_bounds { lay.width * lay.height ≤ length page.old }
    ensures { BoxPainted lay x value page.old page.new }
{
    let y = turned_box(lay, x);
    let w = compact_width(lay);
    paint(page, w, y, value);
}
