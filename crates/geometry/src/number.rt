// The number of a pixel on its line, from the line's two tables: how many of the line's pixels come before it and how
// many after it.
ghost use Rattle.std.specs.Prelude.{◌≡◌, length};
ghost use Rattle.geometry.specs.Number.{behind, ahead};
ghost use Rattle.geometry.specs.Tables.{Entries, LastStep, OnLine, Walks};

use crate::Line;
use crate::normal::{falls, mirrored, period_of, step_of};

// How many pixels of its line come before the pixel at `major` and `minor` of a page with the sides h and w.
pub fn behind_at(
    line: Line,
    profile: &[usize],
    reach: &[usize],
    h: usize,
    w: usize,
    major: usize,
    minor: usize,
) -> usize
    requires on_line { OnLine line h w major minor profile.now }
    requires entries { Entries line h (length profile.now) reach.now }
    ensures { result ≡ behind line h w major minor }
{
    let t = step_of(line, major);
    let x = mirrored(falls(line), w, minor);
    // As many places of drift the line had to make before it could come to place x at step t.
    let v = profile[t].saturating_sub(x);
    t - reach[v]
}

// The last step of a line in the page, from step t on: step s is at place u + s * p of the major side h, and must have
// drifted less than the limit.
fn last_step(profile: &[usize], limit: usize, u: usize, p: usize, t: usize, h: usize) -> usize
    requires { Walks profile.now limit u p t h }
    ensures { LastStep profile.now limit u p t h result }
{
    let last = (h - 1 - u) / p;
    for s in t..last {
        if limit <= profile[s + 1] {
            return s;
        }
    }
    last
}

// How many pixels of its line come after the pixel at `major` and `minor` of a page with the sides h and w. It walks
// the line: it serves the listing and the tests, not the filters.
pub fn ahead_at(
    line: Line,
    profile: &[usize],
    h: usize,
    w: usize,
    major: usize,
    minor: usize,
) -> usize
    requires { OnLine line h w major minor profile.now }
    ensures { result ≡ ahead line h w major minor }
{
    let t = step_of(line, major);
    let x = mirrored(falls(line), w, minor);
    let p = period_of(line);
    let limit = w + profile[t] - x;
    last_step(profile, limit, major % p, p, t, h) - t
}
