// One row of each sweep, in parts: what has nothing to be compared with, what is made by a plan, and what goes
// pixel by pixel.
ghost use Rattle.std.specs.Prelude.{◌≡◌, ◌+◌, ◌≤◌, ◌<◌, min, length};
ghost use Rattle.runs.specs.Runs.{EdgeAt, FarEdge};
ghost use Rattle.runs.specs.Scratch.{size};
ghost use Rattle.sweep.specs.Sweeps.{PartDone, RowSwept};

use super::{Sweep, rest};
use planning::plans;
use runs::tables::{MarkedRow, RowAt};
use runs::{run, walk};

// The forward sweep: a page's first rows have nothing before them.
pub fn forward_row(row: &MarkedRow, bytes: &mut [u8]) -> usize
    requires { let g = row.now.at.tables.grid in size g + size g ≤ length bytes.old }
    ensures { RowSwept Sweep.Forward row.now.at.tables.grid row.now.at.row bytes.old bytes.new result }
{
    if row.at.step == 0 {
        return 0;
    }
    let p = plans::forward_plan(&row.at);
    walk::walk(row, bytes, p)
}

// The columns that have a next pixel.
fn backward_part(row: &MarkedRow, bytes: &mut [u8], hi: usize) -> usize
    requires room { let g = row.now.at.tables.grid in size g + size g ≤ length bytes.old }
    requires far_edge { FarEdge row.now.at.tables.grid row.now.at.row row.now.at.step 1 hi }
    ensures { PartDone Sweep.Backward row.now.at.tables.grid row.now.at.row 0 hi bytes.old bytes.new result }
{
    if hi == 0 {
        return 0;
    }
    let p = plans::backward_plan(&row.at, hi);
    walk::walk(row, bytes, p)
}

// The columns that have none keep their values.
pub fn backward_row(row: &MarkedRow, bytes: &mut [u8]) -> usize
    requires { let g = row.now.at.tables.grid in size g + size g ≤ length bytes.old }
    ensures { RowSwept Sweep.Backward row.now.at.tables.grid row.now.at.row bytes.old bytes.new result }
{
    let hi = plans::far_edge(&row.at, 1);
    backward_part(row, bytes, hi)
}

// The windows that begin before the line and end in it: all in the line's first block.
fn early_part(at: &RowAt, bytes: &mut [u8], lo: usize, hi: usize)
    requires room { let g = at.now.tables.grid in size g + size g ≤ length bytes.old }
    requires edge_at { let g = at.now.tables.grid in EdgeAt g at.now.row at.now.step at.now.step g.back g.width lo ×
        FarEdge g at.now.row at.now.step g.on hi }
    ensures { PartDone Sweep.Result at.now.tables.grid at.now.row 0 (min lo hi) bytes.old bytes.new 0 }
{
    let g = at.tables.grid;
    if hi == 0 {
        return;
    }
    let end = plans::place_on(at, g.on);
    run::copy_run(bytes, at.row * g.width, end, lo.min(hi));
}

// The windows that begin and end in the line.
fn across_part(row: &MarkedRow, bytes: &mut [u8], lo: usize, hi: usize) -> usize
    requires room { let g = row.now.at.tables.grid in size g + size g ≤ length bytes.old }
    requires edge_at { let g = row.now.at.tables.grid in EdgeAt g row.now.at.row row.now.at.step row.now.at.step g.back
        g.width lo × FarEdge g row.now.at.row row.now.at.step g.on hi }
    ensures { PartDone Sweep.Result row.now.at.tables.grid row.now.at.row (min lo hi) hi bytes.old bytes.new result }
{
    if hi <= lo {
        return 0;
    }
    let p = plans::result_plan(&row.at, lo, hi);
    walk::walk(row, bytes, p)
}

pub fn result_row(row: &MarkedRow, bytes: &mut [u8]) -> usize
    requires { let g = row.now.at.tables.grid in size g + size g ≤ length bytes.old }
    ensures { RowSwept Sweep.Result row.now.at.tables.grid row.now.at.row bytes.old bytes.new result }
{
    let g = row.at.tables.grid;
    let lo = walk::edge(&row.at, row.at.step, g.back, g.width);
    let hi = plans::far_edge(&row.at, g.on);
    early_part(&row.at, bytes, lo, hi);
    let across = across_part(row, bytes, lo, hi);
    let rest = rest::rest_part(row, bytes, hi);
    across + rest
}
