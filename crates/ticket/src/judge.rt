// The judging of a ticket, field by field in the order of document 01. Each judgement is an answer of its own, and the
// first refusal ends the judging. A byte past the end reads as 0, so each test is safe by itself.
ghost use Rattle.std.specs.Prelude.{◌≡◌, ◌<◌};
ghost use Rattle.fields.specs.Fields.{first_box};
ghost use Rattle.ticket.specs.Judging.{judge_head, judge_size, judge_field, operation_known, line_known, is_periodic};
ghost use Rattle.ticket.specs.Judging.{length_allowed, origin_allowed, judge_operation, judge_line, judge_vector};
ghost use Rattle.ticket.specs.Judging.{judge_length, judge_origin, judge_phase, judge_box, judge_boxes, judged};

use fields::value::{
    FIRST_BOX, HEAD_BYTES, LENGTH_HEAD, LINE_HEAD, MOST_BOXES, OPERATION_HEAD, ORIGIN_HEAD,
    PHASE_HEAD, VECTOR_HEAD,
};
use fields::vector;
use refusal::chain::{first_refusal, refuse_unless};
use refusal::{Refusal, Refused};

// The limits of document 01: the operations 1 erode to 4 close, the lines 1 connected and 2 periodic, L to 8192.
const LAST_OPERATION: u8 = 4;

const PERIODIC: u8 = 2;

const MOST_LENGTH: u16 = 8192;

// A head: it is complete, and its tag is the one due. No place asked for is large, so no sum of places wraps.
fn judge_head(s: &[u8], at: usize, tag: u8) -> Result<u64, Refused>
    requires { at < 8388608 }
    ensures { result ≡ judge_head s.now at tag }
{
    refuse_unless(at + HEAD_BYTES <= s.len(), Refusal::TicketEnds, at)?;
    refuse_unless(fields::value::byte_at(s, at) == tag, Refusal::WrongTag, at)
}

// A length: it is the one due, and the value is complete.
fn judge_size(s: &[u8], at: usize, size: u16) -> Result<u64, Refused>
    requires { at < 8388608 }
    ensures { result ≡ judge_size s.now at size }
{
    refuse_unless(
        fields::value::number_at(s, at + 1) == size,
        Refusal::WrongLength,
        at,
    )?;
    refuse_unless(
        at + HEAD_BYTES + size as usize <= s.len(),
        Refusal::TicketEnds,
        at,
    )
}

fn judge_field(s: &[u8], at: usize, tag: u8, size: u16) -> Result<u64, Refused>
    requires { at < 8388608 }
    ensures { result ≡ judge_field s.now at tag size }
{
    judge_head(s, at, tag)?;
    judge_size(s, at, size)
}

// The rules of the values, one function each.
fn operation_known(n: u8) -> bool
    ensures { result ≡ operation_known n }
{
    (1..=LAST_OPERATION).contains(&n)
}

fn line_known(n: u8) -> bool
    ensures { result ≡ line_known n }
{
    (1..=PERIODIC).contains(&n)
}

fn is_periodic(n: u8) -> bool
    ensures { result ≡ is_periodic n }
{
    n == PERIODIC
}

fn length_allowed(l: u16) -> bool
    ensures { result ≡ length_allowed l }
{
    (1..=MOST_LENGTH).contains(&l)
}

fn origin_allowed(l: u16, o: u16) -> bool
    ensures { result ≡ origin_allowed l o }
{
    o < l
}

// The six fields that stand once: the field, then its value's rule.
fn judge_operation(s: &[u8]) -> Result<u64, Refused>
    ensures { result ≡ judge_operation s.now }
{
    judge_field(s, OPERATION_HEAD, 1, 1)?;
    let known = operation_known(fields::value::operation_in(s));
    refuse_unless(known, Refusal::Unknown, OPERATION_HEAD)
}

fn judge_line(s: &[u8]) -> Result<u64, Refused>
    ensures { result ≡ judge_line s.now }
{
    judge_field(s, LINE_HEAD, 2, 1)?;
    let known = line_known(fields::value::line_in(s));
    refuse_unless(known, Refusal::Unknown, LINE_HEAD)
}

fn judge_vector(s: &[u8]) -> Result<u64, Refused>
    ensures { result ≡ judge_vector s.now }
{
    judge_field(s, VECTOR_HEAD, 3, 4)?;
    let periodic = is_periodic(fields::value::line_in(s));
    let allowed = vector::vector_allowed(
        periodic,
        fields::value::dx_bits(s),
        fields::value::dy_bits(s),
    );
    refuse_unless(allowed, Refusal::BadVector, VECTOR_HEAD)
}

fn judge_length(s: &[u8]) -> Result<u64, Refused>
    ensures { result ≡ judge_length s.now }
{
    judge_field(s, LENGTH_HEAD, 4, 2)?;
    let allowed = length_allowed(fields::value::length_in(s));
    refuse_unless(allowed, Refusal::BadLength, LENGTH_HEAD)
}

fn judge_origin(s: &[u8]) -> Result<u64, Refused>
    ensures { result ≡ judge_origin s.now }
{
    judge_field(s, ORIGIN_HEAD, 5, 2)?;
    let allowed = origin_allowed(fields::value::length_in(s), fields::value::origin_in(s));
    refuse_unless(allowed, Refusal::BadOrigin, ORIGIN_HEAD)
}

fn judge_phase(s: &[u8]) -> Result<u64, Refused>
    ensures { result ≡ judge_phase s.now }
{
    judge_field(s, PHASE_HEAD, 6, 2)?;
    let periodic = is_periodic(fields::value::line_in(s));
    let allowed = vector::phase_allowed(
        periodic,
        fields::value::dx_bits(s),
        fields::value::dy_bits(s),
        fields::value::phase_in(s),
    );
    refuse_unless(allowed, Refusal::BadPhase, PHASE_HEAD)
}

// The 65th box is judged behind its tag and before its length.
fn judge_box(s: &[u8], head: usize, k: usize) -> Result<u64, Refused>
    requires { head < 8388608 }
    ensures { result ≡ judge_box s.now head k }
{
    judge_head(s, head, 7)?;
    let many = refuse_unless(k < MOST_BOXES, Refusal::TooManyBoxes, head);
    let size = judge_size(s, head, 8);
    first_refusal(many, size)
}

// The boxes until the ticket ends before a head. The 65th is refused, so none behind it is asked for.
fn judge_boxes(s: &[u8]) -> Result<u64, Refused>
    ensures { result ≡ judge_boxes s.now first_box 0 65 }
{
    let mut head = FIRST_BOX;
    for k in 0..=MOST_BOXES {
        if s.len() == head {
            return Ok(0);
        }
        judge_box(s, head, k)?;
        head = fields::value::field_end(s, head);
    }
    Ok(0)
}

// The whole ticket: field after field, up to the first refusal.
pub fn judge(s: &[u8]) -> Result<u64, Refused>
    ensures { result ≡ judged s.now }
{
    judge_operation(s)?;
    judge_line(s)?;
    judge_vector(s)?;
    judge_length(s)?;
    judge_origin(s)?;
    judge_phase(s)?;
    judge_boxes(s)
}
