// The results of lines that entered from the side and leave at the page's bottom, where windows end past the line.
// The lines of a row have their last pixels in one row, next to each other, so they are made by runs: what page B
// has at the window's first pixel where that is in the block of the line's last, which the line's mark says, else
// the choice of it and what page A has at the last.
ghost use Rattle.std.specs.Prelude.{◌≡◌, suc, ◌+◌, ◌*◌, ◌-◌, ◌≤◌, ◌<◌, length};
ghost use Rattle.geometry.specs.Drift.{drift};
ghost use Rattle.runs.specs.Grid.{Sized};
ghost use Rattle.sweep.specs.Bottom.{AtBottom, Begun, WithinAt};
ghost use Rattle.runs.specs.Runs.{EdgeAt};
ghost use Rattle.runs.specs.Scratch.{size};
ghost use Rattle.sweep.specs.Sweeps.{PartDone};

use super::{Sweep, Within};
use runs::tables::{MarkedRow, RowAt};
use runs::{Grid, run, step, walk};

// How many more steps the page has from a row on.
pub fn steps_left(g: Grid, row: usize) -> usize
    requires { Sized g × (row < g.height) }
    ensures { (row + result * g.period < g.height) × (g.height ≤ row + suc result * g.period) }
{
    (g.height - 1 - row) / g.period
}

// How far the lines of a row have drifted.
pub fn drift_of(at: &RowAt) -> usize
    ensures { result ≡ drift at.now.tables.grid.line at.now.step }
{
    step::entry_of(at.tables.profile, at.step)
}

// The marks of lines whose windows lie in one block. The last step is last - mark steps into its line's block, or a
// whole length more where the mark is past it, and the window reaches so many steps up from there. Compared so, no
// mark is divided or subtracted.
fn within(g: Grid, step: usize, b: usize) -> Within
    requires { Sized g × (step ≤ 8192) × (b < g.on) }
    ensures { WithinAt g step b result }
{
    let last = (step + b) % g.length;
    let reach = g.back + b;
    let near = (last + 1).saturating_sub(reach);
    let far = (last + 1 + g.length).saturating_sub(reach);
    Within {
        last: last as u16,
        near: near as u16,
        far: far as u16,
    }
}

// The columns up to lo, whose windows begin before the line: the line is shorter than a block, so its last pixel
// has it whole.
fn early_bottom(at: &RowAt, bytes: &mut [u8], b: usize, lo: usize, hi: usize)
    requires room { let g = at.now.tables.grid in size g + size g ≤ length bytes.old }
    requires at_bottom { let g = at.now.tables.grid in AtBottom g at.now.row at.now.step b 0 hi ×
        EdgeAt g at.now.row at.now.step at.now.step g.back hi lo }
    ensures { PartDone Sweep.Result at.now.tables.grid at.now.row 0 lo bytes.old bytes.new 0 }
{
    let g = at.tables.grid;
    if lo == 0 {
        return;
    }
    let end = step::place_at(at, at.step + b, 0);
    run::copy_run(bytes, at.row * g.width, end, lo);
}

// At most 224 columns whose windows begin in the line.
fn block_part(row: &MarkedRow, bytes: &mut [u8], b: usize, w: Within, lo: usize, hi: usize) -> usize
    requires room { let g = row.now.at.tables.grid in size g + size g ≤ length bytes.old }
    requires at_bottom { let g = row.now.at.tables.grid in AtBottom g row.now.at.row row.now.at.step b lo hi ×
        Begun g row.now.at.row row.now.at.step lo hi × WithinAt g row.now.at.step b w × (lo < hi) × (hi ≤ lo + 224) }
    ensures { PartDone Sweep.Result row.now.at.tables.grid row.now.at.row lo hi bytes.old bytes.new result }
{
    let g = row.at.tables.grid;
    let start = step::place_at(&row.at, row.at.step - g.back, lo);
    let end = step::place_at(&row.at, row.at.step + b, lo);
    let place = lo + g.height - drift_of(&row.at);
    run::block_run(
        g.low,
        bytes,
        row.marks,
        place,
        w.last,
        w.near,
        w.far,
        row.at.row * g.width + lo,
        g.height * g.width + start,
        end,
        hi - lo,
    )
}

// The columns from lo on, whose windows begin in the line.
fn across_bottom(row: &MarkedRow, bytes: &mut [u8], b: usize, lo: usize, hi: usize) -> usize
    requires room { let g = row.now.at.tables.grid in size g + size g ≤ length bytes.old }
    requires at_bottom { let g = row.now.at.tables.grid in AtBottom g row.now.at.row row.now.at.step b 0 hi ×
        EdgeAt g row.now.at.row row.now.at.step row.now.at.step g.back hi lo }
    ensures { PartDone Sweep.Result row.now.at.tables.grid row.now.at.row lo hi bytes.old bytes.new result }
{
    let g = row.at.tables.grid;
    let w = within(g, row.at.step, b);
    let mut count: usize = 0;
    for x in (lo..hi).step_by(224) {
        let end = hi.min(x + 224);
        count += block_part(row, bytes, b, w, x, end);
    }
    count
}

// The columns up to hi. It answers its comparisons.
pub fn bottom_part(row: &MarkedRow, bytes: &mut [u8], b: usize, hi: usize) -> usize
    requires room { let g = row.now.at.tables.grid in size g + size g ≤ length bytes.old }
    requires at_bottom { AtBottom row.now.at.tables.grid row.now.at.row row.now.at.step b 0 hi }
    ensures { PartDone Sweep.Result row.now.at.tables.grid row.now.at.row 0 hi bytes.old bytes.new result }
{
    let g = row.at.tables.grid;
    let lo = walk::edge(&row.at, row.at.step, g.back, hi);
    early_bottom(&row.at, bytes, b, lo, hi);
    across_bottom(row, bytes, b, lo, hi)
}
