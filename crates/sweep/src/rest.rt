// The results whose windows end past their line: the rest of a row, from the far edge on. Lines that entered in the
// page's first row are all at the same step of their blocks, so they are made by runs. Of those that entered from
// the side, the ones that leave at the page's bottom are too (bottom); the ones that leave before each have their
// own next block and last row, and go one by one.
ghost use Rattle.std.specs.Prelude.{◌≡◌, ◌+◌, ◌*◌, ◌-◌, ◌%◌, ◌≤◌, ◌<◌, max, length};
ghost use Rattle.geometry.specs.Drift.{drift};
ghost use Rattle.runs.specs.Runs.{FarEdge, Copied, Chosen, place_at, StepEdge, PastLine};
ghost use Rattle.runs.specs.Scratch.{size};
ghost use Rattle.sweep.specs.Sweeps.{PartDone};

use super::pixel::{self, EdgePixel};
use super::{Sweep, bottom};
use planning::plans;
use runs::tables::{MarkedRow, RowAt};
use runs::{run, step};

// The first column from lo on whose line has left the page by a step.
fn step_edge(at: &RowAt, lo: usize, to: usize) -> usize
    requires { let g = at.now.tables.grid in (to ≤ 32768) × (lo ≤ g.width) × (drift g.line at.now.step ≤ lo) }
    ensures { StepEdge at.now.tables.grid at.now.row at.now.step lo to result }
{
    let g = at.tables.grid;
    let target = at.row - at.step * g.period + to * g.period;
    if g.height <= target {
        return lo;
    }
    let reached = step::entry_of(at.tables.profile, to);
    let lost = reached.saturating_sub(bottom::drift_of(at));
    g.width.saturating_sub(lost).max(lo)
}

// The columns from lo on become what page B has at a step of their lines.
fn copy_from(at: &RowAt, bytes: &mut [u8], lo: usize, to: usize)
    requires room { let g = at.now.tables.grid in size g + size g ≤ length bytes.old }
    requires lo_le_width { let g = at.now.tables.grid in (lo ≤ g.width) × (drift g.line at.now.step ≤ lo) ×
        (to ≤ at.now.step) }
    ensures { let g = at.now.tables.grid in Copied (at.now.row * g.width + lo)
        (size g + place_at g at.now.row at.now.step to lo) (g.width - lo) bytes.old bytes.new }
{
    let g = at.tables.grid;
    let from = g.height * g.width + step::place_at(at, to, lo);
    run::copy_run(bytes, at.row * g.width + lo, from, g.width - lo);
}

// The columns from lo up to hi become the choice of what page B has at two steps of their lines.
fn choose_from(at: &RowAt, bytes: &mut [u8], lo: usize, hi: usize, to: usize, next: usize) -> usize
    requires room { let g = at.now.tables.grid in size g + size g ≤ length bytes.old }
    requires step_bound { let g = at.now.tables.grid in (drift g.line at.now.step ≤ lo) × (to ≤ at.now.step) ×
        (next ≤ 32768) × StepEdge g at.now.row at.now.step lo next hi }
    ensures { let g = at.now.tables.grid in Chosen g.low (at.now.row * g.width + lo)
        (size g + place_at g at.now.row at.now.step to lo) (size g + place_at g at.now.row at.now.step next lo)
        (hi - lo) bytes.old bytes.new × (result ≡ hi - lo) }
{
    let g = at.tables.grid;
    if hi <= lo {
        return 0;
    }
    let size = g.height * g.width;
    let first = size + step::place_at(at, to, lo);
    let second = size + step::place_at(at, next, lo);
    run::choose_run(g.low, bytes, at.row * g.width + lo, first, second, hi - lo)
}

// The window begins inside a block: the rest of that block, and the next one where the line has it.
fn across_top(at: &RowAt, bytes: &mut [u8], mid: usize, inside: usize) -> usize
    requires room { let g = at.now.tables.grid in size g + size g ≤ length bytes.old }
    requires past_line { let g = at.now.tables.grid in PastLine g at.now.row at.now.step mid × (mid < g.width) ×
        (g.back ≤ at.now.step) × (inside ≡ (at.now.step - g.back) % g.length) × (0 < inside) }
    ensures { let g = at.now.tables.grid in PartDone Sweep.Result g at.now.row mid g.width bytes.old bytes.new result }
{
    let g = at.tables.grid;
    let next = at.step - g.back + (g.length - inside);
    let end = step_edge(at, mid, next);
    let count = choose_from(at, bytes, mid, end, at.step - g.back, next);
    copy_from(at, bytes, end, at.step - g.back);
    count
}

// The lines that entered in the first row: the window begins before the line, with a block, or inside one.
fn rest_top(at: &RowAt, bytes: &mut [u8], mid: usize) -> usize
    requires room { let g = at.now.tables.grid in size g + size g ≤ length bytes.old }
    requires past_line { PastLine at.now.tables.grid at.now.row at.now.step mid }
    ensures { let g = at.now.tables.grid in PartDone Sweep.Result g at.now.row mid g.width bytes.old bytes.new result }
{
    let g = at.tables.grid;
    if g.width <= mid {
        return 0;
    }
    if at.step < g.back {
        copy_from(at, bytes, mid, 0);
        return 0;
    }
    let inside = (at.step - g.back) % g.length;
    if inside == 0 {
        copy_from(at, bytes, mid, at.step - g.back);
        return 0;
    }
    across_top(at, bytes, mid, inside)
}

// The columns from lo up to hi, one by one. The row is copied: what is lent is read anew after each byte written.
fn each_part(at: &RowAt, bytes: &mut [u8], far: usize, lo: usize, hi: usize) -> usize
    requires room { let g = at.now.tables.grid in size g + size g ≤ length bytes.old }
    requires far_edge { let g = at.now.tables.grid in FarEdge g at.now.row at.now.step g.on far × (far ≤ lo) ×
        (lo ≤ hi) × (hi ≤ g.width) }
    ensures { PartDone Sweep.Result at.now.tables.grid at.now.row lo hi bytes.old bytes.new result }
{
    let own = *at;
    let base = own.row * own.tables.grid.width;
    let mut count: usize = 0;
    for x in lo..hi {
        let made = pixel::rest_at(&EdgePixel { at: &own, x }, bytes);
        bytes[base + x] = made.value;
        count += made.count;
    }
    count
}

// The lines that entered from the side. Where windows reach below the page, all of them end past their line, and
// the first columns are those whose lines leave at the bottom.
fn rest_side(row: &MarkedRow, bytes: &mut [u8], hi: usize, mid: usize) -> usize
    requires room { let g = row.now.at.tables.grid in size g + size g ≤ length bytes.old }
    requires far_edge { let g = row.now.at.tables.grid in FarEdge g row.now.at.row row.now.at.step g.on hi ×
        (hi ≤ mid) × (mid ≤ g.width) × (mid ≤ max hi (drift g.line row.now.at.step)) }
    ensures { PartDone Sweep.Result row.now.at.tables.grid row.now.at.row hi mid bytes.old bytes.new result }
{
    let g = row.at.tables.grid;
    let b = bottom::steps_left(g, row.at.row);
    if g.on <= b {
        return each_part(&row.at, bytes, hi, hi, mid);
    }
    let end = plans::far_edge(&row.at, b).min(mid);
    let runs = bottom::bottom_part(row, bytes, b, end);
    let others = each_part(&row.at, bytes, hi, end, mid);
    runs + others
}

// The columns whose windows end past their line.
pub fn rest_part(row: &MarkedRow, bytes: &mut [u8], hi: usize) -> usize
    requires room { let g = row.now.at.tables.grid in size g + size g ≤ length bytes.old }
    requires far_edge { let g = row.now.at.tables.grid in FarEdge g row.now.at.row row.now.at.step g.on hi }
    ensures { let g = row.now.at.tables.grid in PartDone Sweep.Result g row.now.at.row hi g.width bytes.old bytes.new
        result }
{
    let g = row.at.tables.grid;
    let mid = bottom::drift_of(&row.at).max(hi).min(g.width);
    let side = rest_side(row, bytes, hi, mid);
    let top = rest_top(&row.at, bytes, mid);
    side + top
}
