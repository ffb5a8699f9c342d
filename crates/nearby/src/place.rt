// Which pixel stands at a place of the row.
// Stays: a place off the page where there is none, no Option: the definitions `major_in`, `minor_in` and `pixel_in` give
// it, and laws of `why` name it.
ghost use Rattle.std.specs.Prelude.{◌≡◌, ◌<◌};
ghost use Rattle.nearby.specs.Stand.{major_in, minor_in, pixel_in};
ghost use Rattle.nearby.specs.Promises.{Stands, Tabled};

use super::stand::{across_of, down_of};
use super::{Pixel, Standing};
use geometry::normal::{falls, mirrored, period_of, step_of};

// The place on the axis along which the line runs, or the page's side where the line has no such step on the page.
fn major_in(s: Standing, i: usize) -> usize
    requires stands { Stands s }
    requires i_bound { i < 16383 }
    ensures { result ≡ major_in s i }
{
    let line = s.line;
    let t = step_of(line, s.major);
    if t + i < s.reach {
        s.high
    } else {
        let p = period_of(line);
        let place = s.major % p + (t + i - s.reach) * p;
        place.min(s.high)
    }
}

// The place on the other axis, or the page's other side where the line is off it: in normal form the line goes up by
// what it drifts.
fn minor_in(s: Standing, profile: &[usize], i: usize) -> usize
    requires stands { Stands s }
    requires tabled { Tabled s profile.now }
    requires i_bound { (i < 16383) × (major_in s i < s.high) }
    ensures { result ≡ minor_in s i }
{
    let line = s.line;
    let t = step_of(line, s.major);
    let falling = falls(line);
    let up = mirrored(falling, s.wide, s.minor) + profile[t + i - s.reach];
    match up.checked_sub(profile[t]) {
        None => s.wide,
        Some(place) if place < s.wide => mirrored(falling, s.wide, place),
        Some(_) => s.wide,
    }
}

// The pixel at place i of the row; where there is none, one that is off the page.
pub fn pixel_in(s: Standing, profile: &[usize], i: usize) -> Pixel
    requires stands { Stands s }
    requires tabled { Tabled s profile.now }
    requires i_bound { i < 16383 }
    ensures { result ≡ pixel_in s i }
{
    let major = major_in(s, i);
    let minor = if major < s.high {
        minor_in(s, profile, i)
    } else {
        s.wide
    };
    Pixel {
        column: down_of(s.steep, major, minor),
        row: across_of(s.steep, major, minor),
    }
}
