// A rectangle of a compact page painted with one value, and the used scratch cleared.
ghost use Rattle.std.specs.Prelude.{◌≡◌, ◌≤◌, length};
ghost use Rattle.tray.specs.Written.{cleared};
ghost use Rattle.tray.specs.Promises.{RectangleInRows, RectanglePainted};

use crate::Rectangle;

// On a page whose rows are w long, a rectangle takes the value; every other byte is as it was.
pub fn paint(page: &mut [u8], w: usize, x: Rectangle, value: u8)
    requires { RectangleInRows x w (length page.old) }
    ensures { RectanglePainted w x value page.old page.new }
{
    for r in x.top..x.bottom {
        let from = r * w + x.left;
        let to = r * w + x.right;
        page[from..to].fill(value);
    }
}

// The first n bytes are zero, and the rest is as it was.
pub fn clear(scratch: &mut [u8], n: usize)
    requires { n ≤ length scratch.old }
    ensures { scratch.new ≡ cleared n scratch.old }
{
    scratch[..n].fill(0);
}
