// The four filters over the page in the scratch: one pass, or two.
ghost use Rattle.std.specs.Prelude.{◌≡◌, ◌+◌, ◌*◌, ◌≤◌, ◌<◌, length};
ghost use Rattle.geometry.specs.Drift.{Allowed};
ghost use Rattle.hiding.specs.Hiding.{Hideable, BoxesPainted};
ghost use Rattle.filter.specs.Filters.{operated, recipe_boxes};
ghost use Rattle.filter.specs.Work.{work_of};
ghost use Rattle.filter.specs.Engine.{neutral, steep_of, falls_of, layout_of, back_of, grid_of, Fair, PassReady};
ghost use Rattle.filter.specs.Engine.{PassDone};
ghost use Rattle.filter.specs.Engine.{passed, pass_cost, passed_twice, twice_cost};

use super::{Recipe, Segment};
use runs::Grid;
use ticket::Operation;
use tray::Layout;

fn is_steep(how: Recipe) -> bool
    requires { Allowed how.segment.line }
    ensures { result ≡ steep_of how }
{
    let line = how.segment.line;
    vectors::is_steep(line.dx, line.dy)
}

fn does_fall(how: Recipe) -> bool
    requires { Allowed how.segment.line }
    ensures { result ≡ falls_of how }
{
    geometry::normal::falls(how.segment.line)
}

// How a page of these sides is laid out in the scratch, by the way its lines run.
pub fn layout_of(how: Recipe, width: usize, height: usize) -> Layout
    requires { Allowed how.segment.line }
    ensures { result ≡ layout_of how width height }
{
    Layout {
        steep: is_steep(how),
        falls: does_fall(how),
        width,
        height,
    }
}

// The value for an absent pixel: no byte loses against it.
fn neutral_of(low: bool) -> u8
    ensures { result ≡ neutral low }
{
    if low { 255 } else { 0 }
}

// How far a window begins before its pixel.
fn back_of(s: Segment, low: bool) -> usize
    requires { s.origin < s.length }
    ensures { result ≡ back_of s low }
{
    if low {
        s.origin
    } else {
        s.length - 1 - s.origin
    }
}

fn grid_of(how: Recipe, lay: Layout, low: bool) -> Grid
    requires { Fair how.segment × (lay ≡ layout_of how lay.width lay.height) }
    ensures { result ≡ grid_of how lay.width lay.height low }
{
    let segment = how.segment;
    let line = segment.line;
    let back = back_of(segment, low);
    Grid {
        line,
        width: tray::sides::compact_width(lay),
        height: tray::sides::compact_height(lay),
        period: geometry::normal::period_of(line),
        back,
        on: segment.length - 1 - back,
        length: segment.length,
        low,
    }
}

// Every pixel that a box of the recipe hides takes the value: the boxes go on as one lent list.
pub fn hide_all(how: Recipe, lay: Layout, scratch: &mut [u8], value: u8)
    requires { (how.count ≤ 64) × Hideable (recipe_boxes how) lay (length scratch.old) }
    ensures { BoxesPainted (recipe_boxes how) lay value scratch.old scratch.new }
{
    hiding::hide(&how.boxes[..how.count], lay, scratch, value);
}

// One pass: hidden pixels are absent, every other becomes its window's extreme. It answers the comparisons.
fn one_pass(
    how: Recipe,
    lay: Layout,
    low: bool,
    profile: &[usize],
    reaches: &[usize],
    scratch: &mut [u8],
) -> usize
    requires { PassReady how lay profile.now reaches.now (length scratch.old) }
    ensures { PassDone how lay (passed how low) (pass_cost how lay low) 3
        scratch.old scratch.new result }
{
    let absent = neutral_of(low);
    hide_all(how, lay, scratch, absent);
    let g = grid_of(how, lay, low);
    sweep::rows::pass(g, profile, reaches, scratch)
}

// Two passes, the first of the lowest or of the highest. It answers the comparisons of both.
fn two_passes(
    how: Recipe,
    lay: Layout,
    opens: bool,
    profile: &[usize],
    reaches: &[usize],
    scratch: &mut [u8],
) -> usize
    requires { PassReady how lay profile.now reaches.now (length scratch.old) }
    ensures { PassDone how lay (passed_twice how opens) (twice_cost how lay opens) 6
        scratch.old scratch.new result }
{
    let first = one_pass(how, lay, opens, profile, reaches, scratch);
    let second = one_pass(how, lay, !opens, profile, reaches, scratch);
    first + second
}

// The recipe's operation over the page in the scratch. It answers the comparisons.
pub fn filter_held(
    how: Recipe,
    lay: Layout,
    profile: &[usize],
    reaches: &[usize],
    scratch: &mut [u8],
) -> usize
    requires pass_ready { PassReady how lay profile.now reaches.now (length scratch.old) }
    ensures { PassDone how lay (operated how.operation how.segment)
        (work_of how.operation how.segment lay.width lay.height) 6
        scratch.old scratch.new result }
{
    match how.operation {
        Operation::Erode => one_pass(how, lay, true, profile, reaches, scratch),
        Operation::Dilate => one_pass(how, lay, false, profile, reaches, scratch),
        Operation::Open => two_passes(how, lay, true, profile, reaches, scratch),
        Operation::Close => two_passes(how, lay, false, profile, reaches, scratch),
    }
}
