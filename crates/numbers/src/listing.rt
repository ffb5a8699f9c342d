// The listing of a page.
ghost use Rattle.std.specs.Prelude.{◌<◌};
ghost use Rattle.geometry.specs.Drift.{Allowed};
ghost use Rattle.numbers.specs.Page.{Listed, Sides};

use geometry::Line;
use geometry::entry::fill_reach;
use geometry::number::{ahead_at, behind_at};
use geometry::profile::fill_profile;
use std::io;
use vectors::is_steep;

// A page, and a line with its tables for the page.
#[derive(Clone, Copy, Drop)]
struct Page<'a> {
    line: Line,
    profile: &'a [usize],
    reach: &'a [usize],
    w: usize,
    h: usize,
    ghost listed: { Listed line profile.now reach.now w h },
}

impl Page<'_> {
    // Prints the two numbers of the pixel at column c and row r.
    fn print_pixel(&self, rt: &impl Print, c: usize, r: usize) -> io::Result<()>
        requires c_lt_w { c < self.now.w }
        requires r_lt_h { r < self.now.h }
    {
        let Page {
            line,
            profile,
            reach,
            w,
            h,
        } = *self;
        let (behind, ahead) = if is_steep(line.dx, line.dy) {
            (
                behind_at(line, profile, reach, h, w, r, c),
                ahead_at(line, profile, h, w, r, c),
            )
        } else {
            (
                behind_at(line, profile, reach, w, h, c, r),
                ahead_at(line, profile, w, h, c, r),
            )
        };
        print!(rt; "{behind}/{ahead}")
    }

    // Prints the numbers of one row, and ends the line.
    fn print_row(&self, rt: &impl Print, r: usize) -> io::Result<()>
        requires { r < self.now.h }
    {
        self.print_pixel(rt, 0, r)?;
        for c in 1..self.w {
            print!(rt; " ")?;
            self.print_pixel(rt, c, r)?;
        }
        println!(rt)
    }

    fn print(&self, rt: &impl Print) -> io::Result<()> {
        for r in 0..self.h {
            self.print_row(rt, r)?;
        }
        Ok(())
    }
}

// Lists a page of at most 4096 pixels: no side is longer than the tables.
pub fn list(rt: &impl Print, line: Line, w: usize, h: usize) -> io::Result<()>
    requires allowed { Allowed line }
    requires sides { Sides w h }
{
    let mut profile = [0usize; 4096];
    let mut reach = [0usize; 4096];
    fill_profile(line, &mut profile);
    fill_reach(&profile, &mut reach);
    let page = Page {
        line,
        profile: &profile,
        reach: &reach,
        w,
        h,
    };
    page.print(rt)
}
