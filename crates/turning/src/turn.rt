// A page taken in and laid out compactly for the filter, and given out again: row by row where its lines are steep,
// transposed where they are shallow, and mirrored where they fall. Every row is read as a part of its tray, and written
// through a part that is lent.
ghost use Rattle.std.specs.Prelude.{◌≡◌, ◌+◌, ◌*◌, ◌<◌, ◌≤◌, length};
ghost use Rattle.placement.specs.Placement.{Placed};
ghost use Rattle.tray.specs.Written.{written};
ghost use Rattle.turning.specs.Tiles.{Copied};
ghost use Rattle.turning.specs.Promises.{SameSides, PageIn, compact_pixel};
ghost use Rattle.turning.specs.Pieces.{Alike, Turnable, Stored, Taken, TurnedPart, TurnedRows, PutRows};
ghost use Rattle.turning.specs.Pieces.{copied_pixel, source_pixel, turned_pixel, row_step_of};

use crate::tile::{SIDE, copy_side, transpose};
use geometry::normal::mirrored;
use placement::Placement;
use placement::place::row_start;
use tray::Layout;
use tray::row::{fill_row, row, row_from};
use tray::sides::compact;

// Stays: beside a Turn the tray that is read and the one that is written are parameters, with `Turnable` of their
// lengths in the contracts: the second is lent on by `&mut`, part by part, which no struct that is copied can hold.
//
// A page and its transposed page. Where readup is true the source's rows are taken from the last one up, and where
// writeup is true the target's rows are filled from the last one up.
#[derive(Clone, Copy)]
pub struct Turn {
    pub source: Placement,
    pub target: Placement,
    pub readup: bool,
    pub writeup: bool,
}

// Each row of one page is filled with the same row of the other.
fn copy_rows(from: &[u8], p: Placement, falls: bool, to: &mut [u8], q: Placement)
    requires placed { Placed p (length from.now) }
    requires placed_2 { Placed q (length to.old) }
    requires alike { Alike p q }
    ensures { to.new ≡ written q (copied_pixel from.now p falls) to.old }
{
    for r in 0..q.height {
        let line = row(from, p, r);
        let at = row_start(q, r);
        let end = at + q.width;
        fill_row(line, falls, &mut to[at..end]);
    }
}

// A column of the source is gathered into the columns from b to just before e of a row of the target.
fn gather(from: &[u8], t: Turn, a: usize, part: &mut [u8], b: usize, e: usize)
    requires placed { Placed t.source (length from.now) }
    requires a_lt_width { (a < t.source.width) × (b ≤ e) × (e ≤ t.source.height) × (e ≤ length part.old) }
    ensures { Stored (source_pixel from.now t a) b e part.old part.new }
{
    let p = t.source;
    for k in b..e {
        let line = row(from, p, mirrored(t.readup, p.height, k));
        part[k] = line[a];
    }
}

// A column of the source fills a part of its row of the target, a byte at a time.
fn turn_row(from: &[u8], t: Turn, to: &mut [u8], a: usize, b: usize, e: usize)
    requires turnable { Turnable t (length from.now) (length to.old) }
    requires a_lt_height { (a < t.target.height) × (b ≤ e) × (e ≤ t.target.width) }
    ensures { TurnedPart from.now t a (a + 1) b e to.old to.new }
{
    let q = t.target;
    let at = row_start(q, mirrored(t.writeup, q.height, a));
    let end = at + q.width;
    gather(from, t, a, &mut to[at..end], b, e);
}

// The source's columns from a to just before e fill their rows of the target from column b on: what no tile covers.
fn turn_rows(from: &[u8], t: Turn, to: &mut [u8], a: usize, e: usize, b: usize)
    requires turnable { Turnable t (length from.now) (length to.old) }
    requires a_le_e { (a ≤ e) × (e ≤ t.target.height) × (b ≤ t.target.width) }
    ensures { TurnedPart from.now t a e b t.target.width to.old to.new }
{
    let width = t.target.width;
    for i in a..e {
        turn_row(from, t, to, i, b, width);
    }
}

// What is added to a row's start to give the next row's, or that of the row above it. The sum is one that wraps, so
// that a tile is moved in the same way up and down: with a branch for each row the compiler no longer keeps a tile in
// registers.
fn row_step(up: bool, stride: usize) -> usize
    requires { 1 ≤ stride }
    ensures { result ≡ row_step_of up stride }
{
    if up { stride.wrapping_neg() } else { stride }
}

// Sixteen rows of the source, sixteen columns of each, are read into a tile.
fn take_tile(from: &[u8], t: Turn, a: usize, b: usize, tile: &mut [u8])
    requires placed { Placed t.source (length from.now) }
    requires a_bound { (a + 16 ≤ t.source.width) × (b + 16 ≤ t.source.height) × (length tile.old ≡ 256) }
    ensures { Taken 16 from.now t a b tile.new }
{
    let p = t.source;
    let mut start = row_start(p, mirrored(t.readup, p.height, b));
    for k in 0..SIDE {
        let line = row_from(from, start, p.width);
        copy_side(line, a, tile, SIDE * k);
        start = start.wrapping_add(row_step(t.readup, p.stride));
    }
}

// Sixteen bytes of a tile fill a part of a row of the target, from its column b on.
fn put_row(tile: &[u8], at: usize, to: &mut [u8], start: usize, width: usize, b: usize)
    requires { (at + 16 ≤ length tile.now) × (start + width ≤ length to.old) × (b + 16 ≤ width) }
    ensures { Copied 16 tile.now at (start + b) to.old to.new }
{
    let end = start + width;
    copy_side(tile, at, &mut to[start..end], b);
}

// The sixteen rows of a tile fill parts of sixteen rows of the target.
fn put_tile(tile: &[u8], t: Turn, to: &mut [u8], a: usize, b: usize)
    requires placed { Placed t.target (length to.old) }
    requires tile_len { (length tile.now ≡ 256) × (a + 16 ≤ t.target.height) × (b + 16 ≤ t.target.width) }
    ensures { PutRows 16 tile.now t a b to.old to.new }
{
    let q = t.target;
    let mut start = row_start(q, mirrored(t.writeup, q.height, a));
    for i in 0..SIDE {
        put_row(tile, SIDE * i, to, start, q.width, b);
        start = start.wrapping_add(row_step(t.writeup, q.stride));
    }
}

// A tile of the source becomes a tile of the target.
fn turn_tile(from: &[u8], t: Turn, to: &mut [u8], a: usize, b: usize)
    requires turnable { Turnable t (length from.now) (length to.old) }
    requires a_bound { (a + 16 ≤ t.target.height) × (b + 16 ≤ t.target.width) }
    ensures { TurnedPart from.now t a (a + 16) b (b + 16) to.old to.new }
{
    let mut tile = [0u8; SIDE * SIDE];
    let mut spare = [0u8; SIDE * SIDE];
    take_tile(from, t, a, b, &mut tile);
    transpose(&mut tile, &mut spare);
    put_tile(&tile, t, to, a, b);
}

// So many tiles of the source, side by side, become as many of the target, below one another. A tile is turned at this
// one place only: the compiler then makes it a part of the loop, and works out once what all its tiles share.
fn turn_tiles(from: &[u8], t: Turn, to: &mut [u8], a: usize, n: usize, b: usize)
    requires turnable { Turnable t (length from.now) (length to.old) }
    requires n_bound { (a + 16 * n ≤ t.target.height) × (b + 16 ≤ t.target.width) }
    ensures { TurnedPart from.now t a (a + 16 * n) b (b + 16) to.old to.new }
{
    for i in 0..n {
        turn_tile(from, t, to, a + SIDE * i, b);
    }
}

// Down a band of n tiles the target's rows are filled from left to right, so that what is read and written stays in the
// cache.
fn turn_band(from: &[u8], t: Turn, to: &mut [u8], a: usize, n: usize)
    requires turnable { Turnable t (length from.now) (length to.old) }
    requires n_bound { a + 16 * n ≤ t.target.height }
    ensures { TurnedRows from.now t a (a + 16 * n) to.old to.new }
{
    let down = t.target.width / SIDE;
    for i in 0..down {
        turn_tiles(from, t, to, a, n, SIDE * i);
    }
    turn_rows(from, t, to, a, a + SIDE * n, SIDE * down);
}

// How many tiles side by side a band has at most, on a page of so many rows. With more of them more of a row is read at
// a time, but more rows are written to by turns, which on small pages fall on the same places of the cache.
fn most_across(rows: usize) -> usize
    ensures { (1 ≤ result) × (result ≤ 16) }
{
    if rows < 2048 { 4 } else { 16 }
}

// How many tiles side by side the next band has, where so many columns of the source are left.
fn tiles_across(rows: usize, left: usize) -> usize
    requires { 16 ≤ left }
    ensures { (1 ≤ result) × (16 * result ≤ left) }
{
    most_across(rows).min(left / SIDE)
}

// The target's rows in bands, as far as tiles go. It answers how many rows are filled.
// Stays: a range would count the bands by `div_ceil`, and work out from the count, by a product and a `min`, where each
// begins and how many tiles it has; `a` says both.
fn turn_bands(from: &[u8], t: Turn, to: &mut [u8]) -> usize
    requires { Turnable t (length from.now) (length to.old) }
    ensures most { result ≤ t.target.height }
    ensures filled { TurnedRows from.now t 0 result to.old to.new }
{
    let height = t.target.height;
    let mut a: usize = 0;
    while SIDE <= height - a {
        let n = tiles_across(t.source.height, height - a);
        turn_band(from, t, to, a, n);
        a += SIDE * n;
    }
    a
}

// The target becomes the source transposed.
fn turn_page(from: &[u8], t: Turn, to: &mut [u8])
    requires { Turnable t (length from.now) (length to.old) }
    ensures { to.new ≡ written t.target (turned_pixel from.now t) to.old }
{
    let a = turn_bands(from, t, to);
    turn_rows(from, t, to, a, t.target.height, 0);
}

// The page's pixels are laid out compactly in the first bytes of a tray; the bytes after them are as they were.
pub fn page_in(source: &[u8], p: Placement, lay: Layout, page: &mut [u8])
    requires placed { Placed p (length source.now) }
    requires same_sides { SameSides lay p }
    requires height_in_bounds { lay.width * lay.height ≤ length page.old }
    ensures { PageIn source.now p lay page.old page.new }
{
    let q = compact(lay);
    if lay.steep {
        copy_rows(source, p, lay.falls, page, q);
    } else {
        let t = Turn {
            source: p,
            target: q,
            readup: lay.falls,
            writeup: false,
        };
        turn_page(source, t, page);
    }
}

// The compact page is written to its place in a tray; every byte outside that place is as it was.
pub fn page_out(page: &[u8], lay: Layout, p: Placement, out: &mut [u8])
    requires placed { Placed p (length out.old) }
    requires same_sides { SameSides lay p }
    requires height_in_bounds { lay.width * lay.height ≤ length page.now }
    ensures { out.new ≡ written p (compact_pixel page.now lay) out.old }
{
    let q = compact(lay);
    if lay.steep {
        copy_rows(page, q, lay.falls, out, p);
    } else {
        let t = Turn {
            source: q,
            target: p,
            readup: false,
            writeup: lay.falls,
        };
        turn_page(page, t, out);
    }
}
