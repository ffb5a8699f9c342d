// Where the page of a file stands.
ghost use Rattle.std.specs.Prelude.{◌≡◌};
ghost use Rattle.file.specs.Places.{places_of};

use heading::write::header_length;
use pgm::Header;
use placement::{Placements, Spot};

// In the file at its first pixel, in what is given back behind the header; rows follow one another.
pub fn places_of(h: Header) -> Placements
    ensures { result ≡ places_of h }
{
    let source = Spot {
        offset: h.start,
        stride: h.width,
    };
    let output = Spot {
        offset: header_length(h.width, h.height, h.maximum),
        stride: h.width,
    };
    Placements {
        width: h.width,
        height: h.height,
        source,
        output,
    }
}
