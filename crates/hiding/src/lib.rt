// Hidden pixels on the compact page: each box of a lent list is painted over it.
// Document 01: "The hidden boxes are handed on as one lent list of boxes."
#![tactic(auto)]

ghost use Rattle.std.specs.Prelude.{◌≡◌, true, ◌∷◌, [], ◌≤◌, length};
ghost use Rattle.tray.specs.Turned.{boxed};
ghost use Rattle.boxes.specs.Boxes.{box_allowed};
ghost use Rattle.hiding.specs.Hiding.{Hideable, BoxesPainted};

use ticket::HiddenBox;
use tray::{Layout, Rectangle};

// A box as some rows and columns of the page.
fn rectangle_of(b: HiddenBox, width: usize, height: usize) -> Rectangle
    requires { (box_allowed width height b ≡ true) × (width ≤ 8192) × (height ≤ 8192) }
    ensures { result ≡ boxed b.left b.top b.width b.height }
{
    Rectangle {
        top: b.top,
        bottom: b.top + b.height,
        left: b.left,
        right: b.left + b.width,
    }
}

// Every pixel that the box hides takes the value; every other byte is as it was.
pub fn hide_one(b: HiddenBox, lay: Layout, page: &mut [u8], value: u8)
    requires { Hideable (b ∷ []) lay (length page.old) }
    ensures { BoxesPainted (b ∷ []) lay value page.old page.new }
{
    let x = rectangle_of(b, lay.width, lay.height);
    tray::boxes::paint_box(page, lay, x, value);
}

// Every pixel that one of the lent boxes hides takes the value; every other byte is as it was.
pub fn hide(boxes: &[HiddenBox], lay: Layout, page: &mut [u8], value: u8)
    requires { Hideable boxes.now lay (length page.old) }
    ensures { BoxesPainted boxes.now lay value page.old page.new }
{
    for b in boxes {
        hide_one(*b, lay, page, value);
    }
}
