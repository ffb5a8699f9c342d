// The fields of a job ticket: bytes, numbers and places, and the rules of the vector and of the phase. A byte past the
// ticket's end reads as 0; the judging, in `ticket`, refuses such a ticket.
//
// The definitions stand in specs/: Fields (bytes and fields), Vectors (which vectors and phases are allowed).
#![tactic(auto)]

pub mod value; // value.rt: bytes, numbers and places
pub mod vector; // vector.rt: the rules of the vector and of the phase
