// Runs the small pages of document 01 through the job, cases 1 to 15, and case 12 flipped as document 02, wish 2, has
// it, and prints a line for each job: `case N: done W: PIXELS`, rows parted by ` / `, or `case N: refused R at P`.
// Where a case has several jobs, a word behind its number tells them apart. `stdout` holds what the documents say, and
// work that they do not state is counted by the rule; but the lines of cases 1, 8, 10 and 11 and of the short tray had
// been seen from this program before they were stored. The same cases stand apart from it in the proved table
// (worked/specs/Cases.antt) and in the tests of the second program (compare/tests/small_cases.rs, flips.rs).
#![tactic(auto)]

mod form;
mod text;

ghost use Rattle.std.specs.Prelude.{◌≤◌};

use form::{Operation, ticket};
use placement::{Placements, Spot};
use std::io;

// Runs the job of a ticket's first bytes on a page of rows of three pixels, which fills its output tray, and prints
// the answer.
fn run(
    rt: &impl Print,
    name: &str,
    bytes: [u8; 41],
    size: usize,
    source: &[u8],
    height: usize,
    output: &mut [u8],
) -> io::Result<()>
    requires { size ≤ 41 }
{
    let mut scratch = [0u8; 27];
    let whole = Spot {
        offset: 0,
        stride: 3,
    };
    let placements = Placements {
        width: 3,
        height,
        source: whole,
        output: whole,
    };
    let answer = job::job::run(&bytes[..size], placements, source, output, &mut scratch);
    text::print_name(rt, name)?;
    match answer {
        Ok(work) => text::print_done(rt, work, output),
        Err(refused) => println!(rt; ": {refused}"),
    }
}

// A case on the row 9 1 5.
fn row(rt: &impl Print, name: &str, bytes: [u8; 41], size: usize) -> io::Result<()>
    requires { size ≤ 41 }
{
    let mut output = [0u8; 3];
    run(rt, name, bytes, size, b"\x09\x01\x05", 1, &mut output)
}

// The same with no hidden box.
fn plain(rt: &impl Print, name: &str, bytes: [u8; 41]) -> io::Result<()> {
    row(rt, name, bytes, form::BARE)
}

// A case on the rows 1 2 3 / 4 5 6 / 7 8 9.
fn square(rt: &impl Print, name: &str, bytes: [u8; 41]) -> io::Result<()> {
    let mut output = [0u8; 9];
    let page = b"\x01\x02\x03\x04\x05\x06\x07\x08\x09";
    run(rt, name, bytes, form::BARE, page, 3, &mut output)
}

// A case on the same rows flipped top to bottom.
fn flipped_square(rt: &impl Print, name: &str, bytes: [u8; 41]) -> io::Result<()> {
    let mut output = [0u8; 9];
    let page = b"\x07\x08\x09\x04\x05\x06\x01\x02\x03";
    run(rt, name, bytes, form::BARE, page, 3, &mut output)
}

// A case whose source tray has a byte less than the row 9 1 5.
fn short_tray(rt: &impl Print, name: &str, bytes: [u8; 41]) -> io::Result<()> {
    let mut output = [0u8; 3];
    run(rt, name, bytes, form::BARE, b"\x09\x01", 1, &mut output)
}

fn cases_on_the_row(rt: &impl Print) -> io::Result<()> {
    let level = form::level();
    plain(rt, "1", ticket(Operation::Erode, level, 2, 0))?;
    plain(rt, "2", ticket(Operation::Dilate, level, 2, 0))?;
    plain(rt, "3", ticket(Operation::Open, level, 2, 0))?;
    plain(rt, "4", ticket(Operation::Close, level, 2, 0))?;
    plain(rt, "5", ticket(Operation::Open, level, 2, 1))?;
    plain(rt, "6 erode", ticket(Operation::Erode, level, 1, 0))?;
    plain(rt, "6 dilate", ticket(Operation::Dilate, level, 1, 0))?;
    plain(rt, "6 open", ticket(Operation::Open, level, 1, 0))?;
    plain(rt, "6 close", ticket(Operation::Close, level, 1, 0))?;
    plain(rt, "7", ticket(Operation::Erode, level, 8192, 0))?;
    row(rt, "8", ticket(Operation::Open, level, 2, 0), form::BOXED)?;
    row(rt, "9", ticket(Operation::Open, level, 3, 0), form::BOXED)?;
    row(rt, "10", ticket(Operation::Erode, level, 2, 0), form::EMPTY)
}

fn cases_on_the_square(rt: &impl Print) -> io::Result<()> {
    square(
        rt,
        "11",
        ticket(Operation::Erode, form::periodic(1, 1), 3, 1),
    )?;
    square(
        rt,
        "12",
        ticket(Operation::Dilate, form::connected(2, 1, 0), 2, 1),
    )?;
    square(
        rt,
        "13",
        ticket(Operation::Dilate, form::connected(2, 1, 1), 2, 1),
    )?;
    flipped_square(
        rt,
        "12 flipped",
        ticket(Operation::Dilate, form::falling_by_one(2), 2, 1),
    )
}

fn cases_at_the_limits(rt: &impl Print) -> io::Result<()> {
    let level = form::level();
    plain(
        rt,
        "14 connected (2, 2)",
        ticket(Operation::Erode, form::connected(2, 2, 0), 2, 0),
    )?;
    plain(
        rt,
        "14 periodic (2, 2)",
        ticket(Operation::Erode, form::periodic(2, 2), 2, 0),
    )?;
    plain(
        rt,
        "14 vector (0, 0)",
        ticket(Operation::Erode, form::connected(0, 0, 0), 2, 0),
    )?;
    plain(rt, "15 L 8192", ticket(Operation::Erode, level, 8192, 0))?;
    plain(rt, "15 L 8193", ticket(Operation::Erode, level, 8193, 0))?;
    plain(rt, "15 o = L", ticket(Operation::Erode, level, 2, 2))?;
    short_tray(
        rt,
        "15 tray a byte short",
        ticket(Operation::Erode, level, 2, 0),
    )
}

fn main(rt: HostRuntime) -> io::Result<()> {
    cases_on_the_row(&rt)?;
    cases_on_the_square(&rt)?;
    cases_at_the_limits(&rt)
}
