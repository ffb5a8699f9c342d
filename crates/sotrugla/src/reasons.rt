// Why a pixel came out so.
ghost use Rattle.std.specs.Prelude.{◌≡◌};
ghost use Rattle.why.specs.Told.{told};
ghost use Rattle.sotrugla.specs.Pages.{placements_of};
ghost use Rattle.sotrugla.specs.Reasons.{why_of};

use super::placements;
use nearby::Pixel;
use refusal::Refused;
use refusal::report::refusal_number;
use why::{Reason, ask};

// What is told of a pixel: refusal is 0 where a reason is named, and every number that is not meant is zero. `number`
// is the number of a box.
#[repr(C)]
#[derive(Clone, Copy)]
pub struct Why {
    pub refusal: u64,
    pub place: u64,
    pub kind: u64,
    pub number: u64,
    pub phase: u64,
    pub through_column: u64,
    pub through_row: u64,
    pub from_column: u64,
    pub from_row: u64,
}

fn why_of(told: Result<Reason, Refused>) -> Why
    ensures { result ≡ why_of told }
{
    match told {
        Ok(reason) => named(reason),
        Err(refused) => Why {
            refusal: refusal_number(refused.refusal) as u64,
            place: refused.at as u64,
            kind: 0,
            number: 0,
            phase: 0,
            through_column: 0,
            through_row: 0,
            from_column: 0,
            from_row: 0,
        },
    }
}

fn named(reason: Reason) -> Why
    ensures { result ≡ why_of (Ok reason) }
{
    let through = reason.through;
    let from = reason.from;
    Why {
        refusal: 0,
        place: 0,
        kind: reason.kind as u64,
        number: reason.number as u64,
        phase: reason.phase as u64,
        through_column: through.column as u64,
        through_row: through.row as u64,
        from_column: from.column as u64,
        from_row: from.row as u64,
    }
}

// Why the pixel at column, row of a job comes out so. The output tray and the scratch are known by their lengths alone,
// and nothing is written.
#[unsafe(no_mangle)]
pub extern "C" fn sotrugla_why(
    ticket: &[u8],
    width: usize,
    height: usize,
    source_offset: usize,
    source_stride: usize,
    output_offset: usize,
    output_stride: usize,
    source: &[u8],
    output_length: usize,
    scratch_length: usize,
    column: usize,
    row: usize,
) -> Why
    ensures { result ≡ why_of (told ticket.now
        (placements_of width height source_offset source_stride output_offset output_stride)
        source.now output_length scratch_length (record { column = column; row = row })) }
{
    let places = placements(
        width,
        height,
        source_offset,
        source_stride,
        output_offset,
        output_stride,
    );
    let at = Pixel { column, row };
    why_of(ask::why(ticket, places, source, output_length, scratch_length, at))
}
