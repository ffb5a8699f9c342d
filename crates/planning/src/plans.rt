// How a row of a sweep is made: which columns have a pixel to be compared with, and where it stands.
ghost use Rattle.std.specs.Prelude.{◌≡◌, suc, ◌+◌, ◌*◌, ◌-◌, ◌<◌, ◌≤◌, length, get_or};
ghost use Rattle.runs.specs.Runs.{EdgeAt, FarEdge, place_on};
ghost use Rattle.planning.specs.Plans.{ForwardPlan, BackwardPlan, ResultPlan};

use runs::tables::RowAt;
use runs::{Plan, step, walk};

// How far the lines drift in the b steps on from the row, to another row of the page.
fn drift_on(at: &RowAt, b: usize) -> usize
    requires { (b ≤ 8192) × (at.now.row + b * at.now.tables.grid.period < at.now.tables.grid.height) }
    ensures { result ≡ get_or at.now.tables.profile.now (at.now.step + b) 0
        - get_or at.now.tables.profile.now at.now.step 0 }
{
    let profile = at.tables.profile;
    step::entry_of(profile, at.step + b) - step::entry_of(profile, at.step)
}

// The first column whose line leaves the page within b steps.
pub fn far_edge(at: &RowAt, b: usize) -> usize
    requires { b ≤ 8192 }
    ensures { FarEdge at.now.tables.grid at.now.row at.now.step b result }
{
    let g = at.tables.grid;
    if g.height <= at.row + b * g.period {
        return 0;
    }
    g.width.saturating_sub(drift_on(at, b))
}

// The place in a page of the pixel b steps on from column 0.
pub fn place_on(at: &RowAt, b: usize) -> usize
    requires { (b ≤ 8192) × (at.now.row + b * at.now.tables.grid.period < at.now.tables.grid.height) }
    ensures { result ≡ place_on at.now.tables.grid at.now.row at.now.step b }
{
    let g = at.tables.grid;
    (at.row + b * g.period) * g.width + drift_on(at, b)
}

pub fn forward_plan(at: &RowAt) -> Plan
    requires { 0 < at.now.step }
    ensures { ForwardPlan at.now.tables.grid at.now.row at.now.step result }
{
    let width = at.tables.grid.width;
    let lo = walk::edge(at, at.step, 1, width);
    let to = at.row * width + lo;
    Plan {
        lo,
        hi: width,
        to,
        first: to,
        second: (at.row - at.tables.grid.period) * width,
        top: at.step,
    }
}

pub fn backward_plan(at: &RowAt, hi: usize) -> Plan
    requires { at.now.row + 1 * at.now.tables.grid.period < at.now.tables.grid.height }
    ensures { BackwardPlan at.now.tables.grid at.now.row at.now.step hi result }
{
    let width = at.tables.grid.width;
    let size = at.tables.grid.height * width;
    let own = size + at.row * width;
    let next = place_on(at, 1);
    Plan {
        lo: 0,
        hi,
        to: own,
        first: own,
        second: size + next,
        top: at.step + 1,
    }
}

// Where windows reach no step on, their last pixel is the one that is written: it comes first, so that the row is
// made in place.
pub fn result_plan(at: &RowAt, lo: usize, hi: usize) -> Plan
    requires row { at.now.row + at.now.tables.grid.on * at.now.tables.grid.period < at.now.tables.grid.height }
    requires back_le_step { (at.now.tables.grid.back ≤ at.now.step) × (lo < at.now.tables.grid.width) }
    ensures { ResultPlan at.now.tables.grid at.now.row at.now.step lo hi result }
{
    let g = at.tables.grid;
    let width = g.width;
    let size = g.height * width;
    let start = size + (at.row - g.back * g.period) * width;
    let end = place_on(at, g.on);
    Plan {
        lo,
        hi,
        to: at.row * width + lo,
        first: end + lo,
        second: start,
        top: at.step - g.back,
    }
}
