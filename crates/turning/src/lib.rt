// A page of a tray laid out compactly for the filter, and given out again. No function reads or writes a byte of a tray
// outside the page that it is given.
//
// Rows, and the compact page, are said in `tray`. The definitions stand in specs/: Promises (what is asked and promised
// beside equations), Tiles and Pieces (what the functions here promise one another).
//
//     turn    a page taken in and laid out compactly, and back
//     tile    sixteen by sixteen pixels transposed at a time
#![tactic(auto)]

mod tile;
pub mod turn;
