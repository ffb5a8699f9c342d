// A row of a page, handed out as a part of its tray, and the filling of a row.
ghost use Rattle.std.specs.Prelude.{◌≡◌, true, false, ◌+◌, ◌≤◌, ◌<◌, length, take, drop};
ghost use Rattle.placement.specs.Placement.{row_start, Placed};
ghost use Rattle.tray.specs.Promises.{RowFilled};

use placement::Placement;
use placement::place::row_start;

// A row's own part of the caller's tray: from its start, exactly as long as the page is wide.
pub fn row_from(tray: &[u8], start: usize, width: usize) -> &[u8]
    requires { start + width ≤ length tray.now }
    ensures { result.now ≡ take width (drop start tray.now) }
{
    let end = start + width;
    &tray[start..end]
}

// The same by the row's number.
pub fn row(tray: &[u8], p: Placement, r: usize) -> &[u8]
    requires placed { Placed p (length tray.now) }
    requires r_lt_height { r < p.height }
    ensures { result.now ≡ take p.width (drop (row_start p r) tray.now) }
{
    let start = row_start(p, r);
    row_from(tray, start, p.width)
}

// A row is filled with another of its length, from the other end where it is mirrored.
pub fn fill_row(from: &[u8], falls: bool, to: &mut [u8])
    requires { length from.now ≡ length to.old }
    ensures { RowFilled from.now falls to.new }
{
    if falls {
        fill_mirrored(from, to);
    } else {
        fill_same(from, to);
    }
}

// Stays: on x86-64 a steep page takes 8 % longer where `copy_from_slice` does this.
fn fill_same(from: &[u8], to: &mut [u8])
    requires { length from.now ≡ length to.old }
    ensures { RowFilled from.now false to.new }
{
    for k in 0..to.len() {
        to[k] = from[k];
    }
}

// The other row is read forwards and this one filled from its end: read backwards it takes half as long again.
// Stays: on x86-64 a steep page that falls takes 20 % longer where `copy_from_slice` and `reverse` do this.
fn fill_mirrored(from: &[u8], to: &mut [u8])
    requires { length from.now ≡ length to.old }
    ensures { RowFilled from.now true to.new }
{
    let n = to.len();
    for k in 0..n {
        to[n - 1 - k] = from[k];
    }
}
