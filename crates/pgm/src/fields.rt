// The header of a file, field by field: refusals 15 and 16. The first refusal counts: what stands behind it is not
// looked at.
ghost use Rattle.std.specs.Prelude.{◌≡◌, get_or};
ghost use Rattle.refusal.specs.Chain.{◌then◌};
ghost use Rattle.pgm.specs.Bytes.{bytes_from};
ghost use Rattle.pgm.specs.Header.{from_maximum, judge_number, judge_magic, judge_from_maximum, judge_maximum};
ghost use Rattle.pgm.specs.Scanning.{Stands};
ghost use Rattle.pgm.specs.Fielding.{FieldRead, header_read};

use super::{Header, scan};
use refusal::chain::{first_refusal, refuse_unless};
use refusal::{Later, Refusal, Refused};

// A number behind white space: the number as it is told, its first digit, and the place behind.
#[derive(Clone, Copy)]
struct Field {
    number: usize,
    first: usize,
    end: usize,
}

// "A file begins with the bytes `P5`": a byte past the end is none of them.
fn judge_magic(file: &[u8]) -> Result<u64, Refused>
    ensures { result ≡ judge_magic file.now }
{
    let bad = Refusal::Later(Later::BadHeader);
    refuse_unless(byte_at(file, 0) == b'P', bad, 0)?;
    refuse_unless(byte_at(file, 1) == b'5', bad, 1)
}

fn byte_at(file: &[u8], at: usize) -> u8
    ensures { result ≡ get_or file.now at 0 }
{
    file.get(at).copied().unwrap_or(0)
}

// The field that starts here: white space, then digits.
fn field_at(file: &[u8], at: usize) -> Result<Field, Refused>
    requires { Stands file.now (bytes_from file.now at) at }
    ensures { FieldRead (judge_number file.now (bytes_from file.now at)) file.now (bytes_from file.now at) result }
{
    let bad = Refusal::Later(Later::BadHeader);
    let spaced = scan::starts_with(file, scan::is_space, at);
    refuse_unless(spaced, bad, at)?;
    let first = scan::behind(file, scan::is_space, at);
    let started = scan::starts_with(file, scan::is_digit, first);
    refuse_unless(started, bad, first)?;
    let number = scan::number_at(file, first);
    let end = scan::behind(file, scan::is_digit, first);
    Ok(Field { number, first, end })
}

// The maximum: it is not 0, and white space delimits the pixels; that it is a byte is judged last.
fn maximum_at(file: &[u8], at: usize) -> Result<Field, Refused>
    requires { Stands file.now (from_maximum file.now) at }
    ensures { FieldRead (judge_from_maximum file.now then judge_maximum file.now) file.now
        (from_maximum file.now) result }
{
    let maximum = field_at(file, at)?;
    let bad = Refusal::Later(Later::BadHeader);
    let above = Refusal::Later(Later::BadMaximum);
    refuse_unless(1 <= maximum.number, bad, maximum.first)?;
    let end = maximum.end;
    let delimited = refuse_unless(scan::starts_with(file, scan::is_space, end), bad, end);
    let small = refuse_unless(maximum.number <= 255, above, maximum.first);
    first_refusal(delimited, small)?;
    Ok(maximum)
}

// The header, the pixels being unread: the three fields behind `P5`, each where the one before it ends.
pub fn read_header(file: &[u8]) -> Result<Header, Refused>
    ensures { result ≡ header_read file.now }
{
    judge_magic(file)?;
    let width = field_at(file, scan::next(file, 2))?;
    let height = field_at(file, width.end)?;
    let maximum = maximum_at(file, height.end)?;
    Ok(Header {
        width: width.number,
        height: height.number,
        maximum: maximum.number as u8,
        start: maximum.end + 1,
    })
}
