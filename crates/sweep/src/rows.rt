// The sweeps, row by row. A sweep reads only what is not yet written or already final, so it writes in place.
ghost use Rattle.std.specs.Prelude.{◌≡◌, ◌+◌, ◌-◌, ◌≤◌, ◌<◌, length};
ghost use Rattle.runs.specs.Grid.{Sized, Tabled};
ghost use Rattle.runs.specs.Scratch.{size};
ghost use Rattle.sweep.specs.Sweeps.{Raised, Lowered, SweptIf, lag, Passed};

use super::{Sweep, row};
use runs::tables::{MarkedRow, MarkedTables, RowAt, Tables};
use runs::{Grid, marks, run};

// A row of a page, with its step.
fn row_of<'a>(page: &MarkedTables<'a>, row: usize) -> MarkedRow<'a>
    requires { row < page.now.tables.grid.height }
    ensures { (result.at.tables.grid ≡ page.now.tables.grid) × (result.at.row ≡ row) }
{
    let step = row / page.tables.grid.period;
    let at = RowAt {
        tables: page.tables,
        row,
        step,
    };
    MarkedRow {
        at,
        marks: page.marks,
    }
}

// How many rows are copied at once for the backward sweep: few enough to stay in the cache while it goes up over them.
const BAND: usize = 32;

// A band of rows of the backward sweep, from one up to another. They are copied from page A first: memory is read
// faster down the rows.
fn backward_band(page: &MarkedTables, bytes: &mut [u8], from: usize, to: usize) -> usize
    requires room { let g = page.now.tables.grid in size g + size g ≤ length bytes.old }
    requires from_le_to { (from ≤ to) × (to ≤ page.now.tables.grid.height) }
    ensures { Raised 0 page.now.tables.grid from from to bytes.old bytes.new result }
{
    let g = page.tables.grid;
    let start = from * g.width;
    run::copy_run(
        bytes,
        g.height * g.width + start,
        start,
        to * g.width - start,
    );
    let mut count: usize = 0;
    for row in (from..to).rev() {
        count += row::backward_row(&row_of(page, row), bytes);
    }
    count
}

// The backward sweep, up the rows: page B becomes the running extremes to the blocks' ends of page A.
fn backward(page: &MarkedTables, bytes: &mut [u8]) -> usize
    requires { let g = page.now.tables.grid in size g + size g ≤ length bytes.old }
    ensures { let g = page.now.tables.grid in Raised 0 g 0 0 g.height bytes.old bytes.new result }
{
    let height = page.tables.grid.height;
    let mut count: usize = 0;
    for band in (0..height.div_ceil(BAND)).rev() {
        let from = band * BAND;
        let to = height.min(from + BAND);
        count += backward_band(page, bytes, from, to);
    }
    count
}

// A row of the forward sweep, if the page has it.
fn forward_next(page: &MarkedTables, bytes: &mut [u8], row: usize) -> usize
    requires { let g = page.now.tables.grid in size g + size g ≤ length bytes.old }
    ensures { let g = page.now.tables.grid in SweptIf (row < g.height) Sweep.Forward g row bytes.old bytes.new result }
{
    if page.tables.grid.height <= row {
        return 0;
    }
    row::forward_row(&row_of(page, row), bytes)
}

// The results of the row that lies some rows behind, if the page has it.
fn result_behind(page: &MarkedTables, bytes: &mut [u8], row: usize, behind: usize) -> usize
    requires room { let g = page.now.tables.grid in size g + size g ≤ length bytes.old }
    requires row_bound { row < page.now.tables.grid.height + behind }
    ensures { let g = page.now.tables.grid in SweptIf (behind ≤ row) Sweep.Result g (row - behind) bytes.old bytes.new
        result }
{
    if row < behind {
        return 0;
    }
    row::result_row(&row_of(page, row - behind), bytes)
}

fn lag_of(g: Grid) -> usize
    requires { Sized g }
    ensures { result ≡ lag g }
{
    (g.on.max(1) * g.period).min(g.height)
}

// The forward sweep, and close behind it the results, while the rows they read are still in the cache: page A
// becomes the extremes over the windows.
fn forward(page: &MarkedTables, bytes: &mut [u8]) -> usize
    requires { let g = page.now.tables.grid in size g + size g ≤ length bytes.old }
    ensures { let g = page.now.tables.grid in Lowered g g.height g.height bytes.old bytes.new result }
{
    let behind = lag_of(page.tables.grid);
    let mut count: usize = 0;
    for row in 0..page.tables.grid.height + behind {
        let first = forward_next(page, bytes, row);
        let second = result_behind(page, bytes, row, behind);
        count += first + second;
    }
    count
}

// Both.
fn sweep_all(page: &MarkedTables, bytes: &mut [u8]) -> usize
    requires { let g = page.now.tables.grid in size g + size g ≤ length bytes.old }
    ensures { Passed page.now.tables.grid bytes.old bytes.new result }
{
    let first = backward(page, bytes);
    let second = forward(page, bytes);
    first + second
}

// One pass: page A becomes the extremes over the windows of its lines. It answers the comparisons.
pub fn pass(g: Grid, profile: &[usize], reaches: &[usize], bytes: &mut [u8]) -> usize
    requires { Sized g × Tabled g profile.now reaches.now × (size g + size g ≤ length bytes.old) }
    ensures { Passed g bytes.old bytes.new result }
{
    let tables = Tables {
        grid: g,
        profile,
        reaches,
    };
    let mut marks = marks::no_marks();
    marks::fill_marks(&tables, &mut marks);
    sweep_all(
        &MarkedTables {
            tables,
            marks: &marks,
        },
        bytes,
    )
}
