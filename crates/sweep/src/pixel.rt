// Results at the page's far edge, where the window ends past its line: pixel by pixel, as lines that entered from
// the side and leave before the page's bottom each have their own next block.
ghost use Rattle.std.specs.Prelude.{◌≡◌, ◌+◌, ◌*◌, ◌<◌, ◌≤◌, length, get_or, eqb};
ghost use Rattle.runs.specs.Span.{chosen};
ghost use Rattle.runs.specs.Grid.{Page, Pixel, Sized, start_row, line_name, number, windowed_at, resulting_at};
ghost use Rattle.runs.specs.GridLaws.{StepOnPage};
ghost use Rattle.runs.specs.Scratch.{size};
ghost use Rattle.sweep.specs.Sweeps.{Ready, Across};

use super::{Made, Sweep};
use runs::tables::RowAt;
use runs::{Grid, run, step};

// A pixel of a row whose window ends past its line.
#[derive(Clone, Copy)]
pub struct EdgePixel<'r, 'a> {
    pub at: &'r RowAt<'a>,
    pub x: usize,
    pub ghost pixel: { Pixel at.now.tables.grid at.now.tables.profile.now at.now.tables.reaches.now at.now.row
        at.now.step x },
    pub ghost past: { StepOnPage at.now.tables.grid (start_row at.now.tables.grid at.now.row)
        (line_name at.now.tables.grid at.now.row x) (at.now.step + at.now.tables.grid.on) → ⊥ },
}

// A value that cost nothing.
fn as_is(value: u8) -> Made
    ensures { (result.value ≡ value) × (result.count ≡ 0) }
{
    Made { value, count: 0 }
}

// The choice of two values, one comparison.
fn compared(low: bool, a: u8, b: u8) -> Made
    ensures { (result.value ≡ chosen low a b) × (result.count ≡ 1) }
{
    Made {
        value: run::chosen_of(low, a, b),
        count: 1,
    }
}

// A pixel's number on its line.
fn number_at(at: &RowAt, x: usize) -> usize
    requires { x < at.now.tables.grid.width }
    ensures { result ≡ number at.now.tables.grid at.now.row x }
{
    at.step - step::entry_at(at, x)
}

// Whether a place is none: the step is off the page.
// Stays: `spot_at` promises the place that the definition `spot` gives, which is the page's size off the page.
fn is_off(g: Grid, at: usize) -> bool
    requires { Sized g }
    ensures { result ≡ eqb at (size g) }
{
    at == g.height * g.width
}

// The value at a place of page B.
fn value_b(g: Grid, bytes: &[u8], at: usize) -> u8
    requires { Sized g × (at < size g) × (size g + size g ≤ length bytes.now) }
    ensures { result ≡ get_or bytes.now (size g + at) 0 }
{
    let size = g.height * g.width;
    bytes[size + at]
}

// The result where the window begins before the line: the whole line.
fn early_at(p: &EdgePixel, bytes: &[u8]) -> Made
    requires room { let g = p.now.at.now.tables.grid in size g + size g ≤ length bytes.now }
    requires early { let g = p.now.at.now.tables.grid in number g p.now.at.now.row p.now.x < g.back }
    ensures { let g = p.now.at.now.tables.grid in let R = p.now.at.now.row in
        ((f : Page) → Ready Sweep.Result g bytes.now f R p.now.x → result.value ≡ windowed_at g f R p.now.x) ×
        (result.count ≡ resulting_at g R p.now.x) }
{
    let entry = step::entry_at(p.at, p.x);
    let first = step::spot_at(p.at, p.x, entry);
    as_is(value_b(p.at.tables.grid, bytes, first))
}

// The result where the window begins in the line, at a step `inside` its block: the rest of that block, and the
// next one, if the line has it.
fn across_at(p: &EdgePixel, bytes: &[u8], inside: usize, rest: u8) -> Made
    requires room { let g = p.now.at.now.tables.grid in size g + size g ≤ length bytes.now }
    requires across { let at = p.now.at.now in Across at.tables.grid bytes.now at.row at.step p.now.x inside rest }
    ensures { let g = p.now.at.now.tables.grid in let R = p.now.at.now.row in
        ((f : Page) → Ready Sweep.Result g bytes.now f R p.now.x → result.value ≡ windowed_at g f R p.now.x) ×
        (result.count ≡ resulting_at g R p.now.x) }
{
    let g = p.at.tables.grid;
    let next = step::spot_at(p.at, p.x, p.at.step - g.back + (g.length - inside));
    if is_off(g, next) {
        return as_is(rest);
    }
    compared(g.low, rest, value_b(g, bytes, next))
}

// The result where the window begins in the line.
fn reached_at(p: &EdgePixel, bytes: &[u8], from: usize) -> Made
    requires room { let g = p.now.at.now.tables.grid in size g + size g ≤ length bytes.now }
    requires from_value { let g = p.now.at.now.tables.grid in (from ≡ number g p.now.at.now.row p.now.x) ×
        (g.back ≤ from) }
    ensures { let g = p.now.at.now.tables.grid in let R = p.now.at.now.row in
        ((f : Page) → Ready Sweep.Result g bytes.now f R p.now.x → result.value ≡ windowed_at g f R p.now.x) ×
        (result.count ≡ resulting_at g R p.now.x) }
{
    let g = p.at.tables.grid;
    let start = step::spot_at(p.at, p.x, p.at.step - g.back);
    let rest = value_b(g, bytes, start);
    let inside = (from - g.back) % g.length;
    if inside == 0 {
        return as_is(rest);
    }
    across_at(p, bytes, inside, rest)
}

// The pixel's result.
pub fn rest_at(p: &EdgePixel, bytes: &[u8]) -> Made
    requires { let g = p.now.at.now.tables.grid in size g + size g ≤ length bytes.now }
    ensures { let g = p.now.at.now.tables.grid in let R = p.now.at.now.row in
        ((f : Page) → Ready Sweep.Result g bytes.now f R p.now.x → result.value ≡ windowed_at g f R p.now.x) ×
        (result.count ≡ resulting_at g R p.now.x) }
{
    let number = number_at(p.at, p.x);
    if number < p.at.tables.grid.back {
        return early_at(p, bytes);
    }
    reached_at(p, bytes, number)
}
