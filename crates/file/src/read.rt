// A file alone.
ghost use Rattle.std.specs.Prelude.{◌≡◌};
ghost use Rattle.file.specs.Reading.{reading_alone};

use super::places::places_of;
use judging::judge::judge_sides;
use pgm::Header;
use refusal::Refused;

// The file's header: 15, 16 and 17, then 10 for sides beyond their limits.
pub fn read(file: &[u8]) -> Result<Header, Refused>
    ensures { result ≡ reading_alone file.now }
{
    let header = pgm::read(file)?;
    judge_sides(places_of(header))?;
    Ok(header)
}
