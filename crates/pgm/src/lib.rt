// Raw Netpbm grey files (P5), read. The definitions stand in specs/: Bytes (white space, digits, comments), Header (the
// fields, refusals 15 and 16), Reading (refusal 17, what is told of a file), Laws (what callers rely on), ReadBack
// (what is written, as `heading` has it, reads back); Scanning, Fielding and Pixels have what the private functions
// promise one another.
//
//     scan     bytes outside comments, runs of white space and digits, numbers
//     fields   the header, refusals 15 and 16
//     pixels   refusal 17
#![tactic(auto)]

mod fields;
mod pixels;
mod scan;

ghost use Rattle.std.specs.Prelude.{◌≡◌};
ghost use Rattle.pgm.specs.Reading.{reading};

use refusal::Refused;

// What is told of an image: its sides, its maximum, and the place of its first pixel.
#[derive(Clone, Copy)]
pub struct Header {
    pub width: usize,
    pub height: usize,
    pub maximum: u8,
    pub start: usize,
}

// The reading of every string of bytes, of which only the first image counts. The pixels are looked at only behind a
// header in which nothing is refused.
pub fn read(file: &[u8]) -> Result<Header, Refused>
    ensures { result ≡ reading file.now }
{
    let header = fields::read_header(file)?;
    pixels::judge_pixels(file, header)?;
    Ok(header)
}
