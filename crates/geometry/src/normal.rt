// The page in normal form: which way a line drifts, how far a step goes, and where a pixel stands.
ghost use Rattle.std.specs.Prelude.{◌≡◌, ◌<◌};
ghost use Rattle.geometry.specs.Line.{period, step_of};
ghost use Rattle.geometry.specs.Drift as drift;
ghost use Rattle.geometry.specs.Drift.{Allowed};

use crate::Line;
use vectors::{major_of, minor_of};

// Whether a line comes to smaller places as it goes on.
#[tactic(auto, unfolding(crate::specs::Drift::falls))]
pub fn falls(line: Line) -> bool
    requires { Allowed line }
    ensures { result ≡ drift.falls line }
{
    minor_of(line.dx, line.dy) < 0
}

// How far one step goes along the major axis.
#[tactic(auto, unfolding(crate::specs::Line::period))]
pub fn period_of(line: Line) -> usize
    requires { Allowed line }
    ensures { result ≡ period line }
{
    if line.periodic {
        major_of(line.dx, line.dy)
    } else {
        1
    }
}

// The step of its line at which a pixel stands.
#[tactic(auto, using(crate::proofs::Laws::period_forward), unfolding(crate::specs::Line::step_of))]
pub fn step_of(line: Line, major: usize) -> usize
    requires { Allowed line }
    ensures { result ≡ step_of line major }
{
    major / period_of(line)
}

// The place m of a side w in normal form.
#[tactic(auto, unfolding(crate::specs::Drift::mirrored))]
pub fn mirrored(falling: bool, w: usize, m: usize) -> usize
    requires { m < w }
    ensures { result ≡ drift.mirrored falling w m }
{
    if falling { w - 1 - m } else { m }
}
