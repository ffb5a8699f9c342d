// Pages in trays: how the rows of a page that stands in a lent tray of bytes are read and written, and what the page
// looks like that is laid out for the filter (`turning` does it). No function reads or writes a byte of a tray outside
// the page that it is given.
//
// Where a page stands is said in `placement`. The definitions stand in specs/: Written (a tray with a page written into
// it), Turned (the compact page), Promises (what the functions here ask and promise beside equations with these), and
// Laws, what follows.
//
//     row     a row handed out, a row filled
//     paint   a rectangle painted, the scratch cleared
//     sides   the compact page's sides
//     boxes   a box of the page painted on the compact page
#![tactic(auto)]

pub mod boxes;
pub mod paint;
pub mod row;
pub mod sides;

// How a page of these sides is laid out compactly, so that lines run down the rows and drift to the right: as it is
// where they are steep, transposed where they are not, and mirrored where they fall.
#[derive(Clone, Copy)]
pub struct Layout {
    pub steep: bool,
    pub falls: bool,
    pub width: usize,
    pub height: usize,
}

// Some rows and columns of a page: from top to just above bottom, from left to just before right.
#[derive(Clone, Copy)]
pub struct Rectangle {
    pub top: usize,
    pub bottom: usize,
    pub left: usize,
    pub right: usize,
}
