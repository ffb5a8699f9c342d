// The pixels of a file: that they are all there, and that none is above the maximum. Refusal 17.
ghost use Rattle.std.specs.Prelude.{◌≡◌, ◌*◌, ◌≤◌, min, leb, nat_lt, length, position};
ghost use Rattle.pgm.specs.Reading.{sound_pixels, judge_pixels, header_in};
ghost use Rattle.pgm.specs.Pixels.{greatest};

use super::Header;
use refusal::chain::refuse_unless;
use refusal::{Later, Refusal, Refused};

// The greatest pixel. Every pixel is looked at, with nothing to decide on the way: many of them go at once.
fn most(pixels: &[u8]) -> u8
    ensures { result ≡ greatest pixels.now }
{
    let mut found: u8 = 0;
    for pixel in pixels {
        found = found.max(*pixel);
    }
    found
}

// How many pixels stand before the first above the maximum, if there is one.
fn first_above(pixels: &[u8], maximum: u8) -> Option<usize>
    ensures { result ≡ position (λ b. nat_lt maximum b) pixels.now }
{
    pixels.iter().position(|pixel| maximum < *pixel)
}

// How many pixels stand before the first above the maximum, or all of them. That one is searched for only where there
// is one.
fn sound_pixels(pixels: &[u8], maximum: u8) -> usize
    ensures { result ≡ sound_pixels maximum pixels.now }
{
    if maximum == u8::MAX {
        return pixels.len();
    }
    if most(pixels) <= maximum {
        return pixels.len();
    }
    first_above(pixels, maximum).unwrap_or(pixels.len())
}

// Whether so many pixels fit a number of bytes.
fn is_room(width: usize, height: usize, room: usize) -> bool
    ensures { result ≡ leb (width * height) room }
{
    width.checked_mul(height).is_some_and(|count| count <= room)
}

// As many of the pixels as there are bytes.
fn pixel_count(width: usize, height: usize, room: usize) -> usize
    ensures { result ≡ min (width * height) room }
{
    width.saturating_mul(height).min(room)
}

// The first pixel above the maximum, else the file's end if pixels are lacking.
pub fn judge_pixels(file: &[u8], header: Header) -> Result<u64, Refused>
    requires { (header ≡ header_in file.now) × (header.start ≤ length file.now) }
    ensures { result ≡ judge_pixels file.now }
{
    let start = header.start;
    let room = file.len() - start;
    let count = pixel_count(header.width, header.height, room);
    let end = start + count;
    let sound = sound_pixels(&file[start..end], header.maximum);
    let enough = is_room(header.width, header.height, room);
    refuse_unless(
        enough & (sound == count),
        Refusal::Later(Later::BadPixel),
        start + sound,
    )
}
