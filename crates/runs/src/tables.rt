// A page with the tables of its line, and one of its rows, each with what is known of it.
// Stays: `size g + size g ≤ length bytes` in the contracts, in no struct here: the scratch is lent on by `&mut` from
// row to row, and a struct that is copied cannot hold it.
ghost use Rattle.runs.specs.Grid.{Sized, Tabled};
ghost use Rattle.runs.specs.Runs.{Row, Marked};

use super::Grid;

// A page in normal form, with the two tables of its line.
#[derive(Clone, Copy)]
pub struct Tables<'a> {
    pub grid: Grid,
    pub profile: &'a [usize],
    pub reaches: &'a [usize],
    pub ghost sized: { Sized grid },
    pub ghost tabled: { Tabled grid profile.now reaches.now },
}

// One of its rows, and the step of its lines there.
#[derive(Clone, Copy)]
pub struct RowAt<'a> {
    pub tables: Tables<'a>,
    pub row: usize,
    pub step: usize,
    pub ghost in_page: { Row tables.grid tables.profile.now tables.reaches.now row step },
}

// The page with the marks of its side columns.
#[derive(Clone, Copy)]
pub struct MarkedTables<'a> {
    pub tables: Tables<'a>,
    pub marks: &'a [u16],
    pub ghost marked: { Marked tables.grid marks.now },
}

// The row with them.
#[derive(Clone, Copy)]
pub struct MarkedRow<'a> {
    pub at: RowAt<'a>,
    pub marks: &'a [u16],
    pub ghost marked: { Marked at.tables.grid marks.now },
}
