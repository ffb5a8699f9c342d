// A part of a row made by its plan.
ghost use Rattle.std.specs.Prelude.{◌≡◌, ◌+◌, ◌-◌, ◌<◌, ◌≤◌, eqb, length, get_or};
ghost use Rattle.geometry.specs.Drift.{drift};
ghost use Rattle.runs.specs.Scratch.{size, total};
ghost use Rattle.runs.specs.Runs.{EdgeAt, Planned, Walked, TopMade, Copied, Chosen, ChosenUnless};
ghost use Rattle.runs.specs.Runs.{compared_of};

use super::tables::{MarkedRow, RowAt};
use super::{Plan, run, step};

// Of the columns below hi, the first whose line entered `less` steps before step e or earlier.
pub fn edge(at: &RowAt, e: usize, less: usize, hi: usize) -> usize
    requires { (hi ≤ at.now.tables.grid.width) × (e ≤ at.now.step + less) }
    ensures { EdgeAt at.now.tables.grid at.now.row at.now.step e less hi result }
{
    if e < less {
        return hi;
    }
    let profile = at.tables.profile;
    let column = step::entry_of(profile, at.step) - step::entry_of(profile, e - less);
    column.min(hi)
}

// The columns from one up to another, whose lines are all at a block's first step: the first run is copied.
// Stays: `Planned` in each contract of a part, no ghost field of a row with its plan: such a fact has at most one
// proof, and an empty run that is read where it is written is `Apart` from itself in two ways.
fn copy_part(at: &RowAt, bytes: &mut [u8], p: Plan, from: usize, to: usize)
    requires planned { Planned at.now.tables.grid at.now.row p ×
        (size at.now.tables.grid + size at.now.tables.grid ≤ length bytes.old) }
    requires lo_le_from { (p.lo ≤ from) × (from ≤ to) × (to ≤ p.hi) }
    ensures { Copied (p.to + (from - p.lo)) (p.first + (from - p.lo)) (to - from) bytes.old
        bytes.new }
{
    let past = from - p.lo;
    run::copy_run(bytes, p.to + past, p.first + past, to - from);
}

// The same where none of them is.
fn choose_part(at: &RowAt, bytes: &mut [u8], p: Plan, from: usize, to: usize) -> usize
    requires planned { Planned at.now.tables.grid at.now.row p ×
        (size at.now.tables.grid + size at.now.tables.grid ≤ length bytes.old) }
    requires lo_le_from { (p.lo ≤ from) × (from ≤ to) × (to ≤ p.hi) }
    ensures { Chosen at.now.tables.grid.low (p.to + (from - p.lo)) (p.first + (from - p.lo))
        (p.second + (from - p.lo)) (to - from) bytes.old bytes.new × (result ≡ to - from) }
{
    let low = at.tables.grid.low;
    let past = from - p.lo;
    let (own, first, second) = (p.to + past, p.first + past, p.second + past);
    if p.first == p.to {
        return run::choose_run(low, bytes, own, own, second, to - from);
    }
    run::choose_run(low, bytes, own, first, second, to - from)
}

// At most 224 columns, each as its mark says; theirs stand from `place` on.
fn mark_part(
    row: &MarkedRow,
    bytes: &mut [u8],
    p: Plan,
    from: usize,
    to: usize,
    place: usize,
    mark: u16,
) -> usize
    requires planned { Planned row.now.at.tables.grid row.now.at.row p ×
        (size row.now.at.tables.grid + size row.now.at.tables.grid ≤ length bytes.old) }
    requires lo_le_from { (p.lo ≤ from) × (from ≤ to) × (to ≤ p.hi) × (to ≤ from + 224) ×
        (place + (to - from) ≤ length row.now.marks.now) }
    ensures { ChosenUnless row.now.at.tables.grid.low
        (λ k. eqb (get_or row.now.marks.now (place + k) 0) mark)
        (p.to + (from - p.lo)) (p.first + (from - p.lo)) (p.second + (from - p.lo)) (to - from)
        bytes.old bytes.new ×
        (result ≡ total (compared_of (λ k. eqb (get_or row.now.marks.now (place + k) 0) mark)) 0 (to - from)) }
{
    let low = row.at.tables.grid.low;
    let marks = &row.marks[place..place + (to - from)];
    let past = from - p.lo;
    let (own, first, second) = (p.to + past, p.first + past, p.second + past);
    let keeps = move |m| m == mark;
    if p.first == p.to {
        return run::marked_run(low, bytes, marks, own, own, second, keeps);
    }
    run::marked_run(low, bytes, marks, own, first, second, keeps)
}

// The columns up to mid, by their marks: those whose lines entered from the side, and a few right of them.
fn side_part(row: &MarkedRow, bytes: &mut [u8], p: Plan, mid: usize) -> usize
    requires planned { Planned row.now.at.tables.grid row.now.at.row p ×
        (size row.now.at.tables.grid + size row.now.at.tables.grid ≤ length bytes.old) }
    requires near { (p.lo ≤ mid) × (mid ≤ p.hi) ×
        (p.lo < mid → mid ≤ drift row.now.at.tables.grid.line row.now.at.step + 31) }
    ensures { Walked row.now.at.tables.grid row.now.at.row p mid bytes.old bytes.new result }
{
    let g = row.at.tables.grid;
    let drift = step::entry_of(row.at.tables.profile, row.at.step);
    let mark = (p.top % g.length) as u16;
    let mut count: usize = 0;
    // Stays: a `while`: as `for x in (p.lo..mid).step_by(224)` (tried) the plans took 15 in 100 more instructions, and
    // slanted lines 4 in 100 more time, since the compiler then computes each part's places anew.
    let mut x = p.lo;
    while x < mid {
        let end = mid.min(x + 224);
        let place = x + g.height - drift;
        count += mark_part(row, bytes, p, x, end, place, mark);
        x = end;
    }
    count
}

// Columns from lo on, up to mid or a little further, that are taken thirty-two at a time: the compiler goes one by
// one over what is left.
fn rounded(lo: usize, mid: usize) -> usize
    requires { (lo ≤ mid) × (mid ≤ 16384) }
    ensures { (mid ≤ result) × (result ≤ mid + 31) × (mid ≤ lo → result ≤ lo) }
{
    lo + (mid - lo + 31) / 32 * 32
}

// The columns from mid on, whose lines entered in the page's first row: all are as far into their blocks.
fn top_part(at: &RowAt, bytes: &mut [u8], p: Plan, mid: usize) -> usize
    requires { Planned at.now.tables.grid at.now.row p ×
        (size at.now.tables.grid + size at.now.tables.grid ≤ length bytes.old) × (p.lo ≤ mid) × (mid ≤ p.hi) }
    ensures { TopMade at.now.tables.grid p mid bytes.old bytes.new result }
{
    if p.top % at.tables.grid.length == 0 {
        copy_part(at, bytes, p, mid, p.hi);
        return 0;
    }
    choose_part(at, bytes, p, mid, p.hi)
}

// The plan carried out. It answers its comparisons.
pub fn walk(row: &MarkedRow, bytes: &mut [u8], p: Plan) -> usize
    requires { Planned row.now.at.tables.grid row.now.at.row p ×
        (size row.now.at.tables.grid + size row.now.at.tables.grid ≤ length bytes.old) }
    ensures { Walked row.now.at.tables.grid row.now.at.row p p.hi bytes.old bytes.new result }
{
    let drifted = p.lo.max(step::entry_of(row.at.tables.profile, row.at.step));
    let mid = rounded(p.lo, drifted).min(p.hi);
    let side = side_part(row, bytes, p, mid);
    let top = top_part(&row.at, bytes, p, mid);
    side + top
}
