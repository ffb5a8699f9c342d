// The header of a raw Netpbm grey file (P5), as it is written. The definitions stand in specs/: Writing (the file of a
// page), Decimal (laws of a number's digits, and how long a header is). No function here reads a file.
#![tactic(auto)]

pub mod write; // write.rt: how long a header is, and a header written
