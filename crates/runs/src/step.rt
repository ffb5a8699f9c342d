// Where the steps of a pixel's line stand.
ghost use Rattle.std.specs.Prelude.{◌≡◌, ◌+◌, ◌-◌, ◌*◌, ◌<◌, ◌≤◌, length, get_or};
ghost use Rattle.geometry.specs.Drift.{drift};
ghost use Rattle.runs.specs.Grid.{start_row, line_name, entry, spot};
ghost use Rattle.runs.specs.Runs.{place_at};

use super::tables::RowAt;

// An entry of a table.
pub fn entry_of(table: &[usize], at: usize) -> usize
    requires { at < length table.now }
    ensures { result ≡ get_or table.now at 0 }
{
    table[at]
}

// The step at which the line through (row, x) enters the page.
pub fn entry_at(at: &RowAt, x: usize) -> usize
    requires { x < at.now.tables.grid.width }
    ensures { result ≡ entry at.now.tables.grid (line_name at.now.tables.grid at.now.row x) }
{
    let drift = entry_of(at.tables.profile, at.step);
    if drift <= x {
        0
    } else {
        entry_of(at.tables.reaches, drift - x)
    }
}

// The place in a page of step `to` of the line through (row, x), or the page's size where that step is off the page.
// Stays: a number for no place, no Option: the promise is `spot`, a number at every step, which theorems name.
pub fn spot_at(at: &RowAt, x: usize, to: usize) -> usize
    requires { (x < at.now.tables.grid.width) × (to ≤ 32768) }
    ensures { result ≡ spot at.now.tables.grid (start_row at.now.tables.grid at.now.row)
        (line_name at.now.tables.grid at.now.row x) to }
{
    let g = at.tables.grid;
    let none = g.height * g.width;
    let start = at.row - at.step * g.period;
    let target = start + to * g.period;
    if target >= g.height {
        return none;
    }
    let reached = x + entry_of(at.tables.profile, to);
    let from = entry_of(at.tables.profile, at.step);
    if reached < from {
        return none;
    }
    let column = reached - from;
    if column >= g.width {
        return none;
    }
    target * g.width + column
}

// The place in a page of a step of the line of column x.
pub fn place_at(at: &RowAt, to: usize, x: usize) -> usize
    requires row { at.now.row - at.now.step * at.now.tables.grid.period + to * at.now.tables.grid.period
        < at.now.tables.grid.height }
    requires to_bound { (to ≤ 32768) × (x ≤ at.now.tables.grid.width) ×
        (drift at.now.tables.grid.line at.now.step ≤ x + drift at.now.tables.grid.line to) }
    ensures { result ≡ place_at at.now.tables.grid at.now.row at.now.step to x }
{
    let g = at.tables.grid;
    let target = at.row - at.step * g.period + to * g.period;
    target * g.width + (x + entry_of(at.tables.profile, to) - entry_of(at.tables.profile, at.step))
}
