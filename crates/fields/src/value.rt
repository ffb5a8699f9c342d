// Bytes, numbers and places of a ticket. A byte past the end reads as 0, so that every field can be asked for at any
// time; where a ticket is too short, the judging has refused it at an earlier test.
ghost use Rattle.std.specs.Prelude.{◌≡◌, ◌+◌, ◌<◌, ◌≤◌};
ghost use Rattle.fields.specs.Fields.{head_bytes, vector_head, byte_at, number_at, signed16, operation_in, line_in};
ghost use Rattle.fields.specs.Fields.{dx_in, dy_in, length_in, origin_in, phase_in, field_end};

// A one-byte tag and a two-byte length.
pub const HEAD_BYTES: usize = 3;

// The heads of the six fields that stand once: the head before, three bytes, and its value.
pub const OPERATION_HEAD: usize = 0;

pub const LINE_HEAD: usize = 4;

pub const VECTOR_HEAD: usize = 8;

pub const LENGTH_HEAD: usize = 15;

pub const ORIGIN_HEAD: usize = 20;

pub const PHASE_HEAD: usize = 25;

// The boxes follow, each behind the one before it.
pub const FIRST_BOX: usize = 30;

// "0 to 64 fields of tag 7"
pub const MOST_BOXES: usize = 64;

#[tactic(auto, unfolding(crate::specs::Fields::byte_at))]
pub fn byte_at(s: &[u8], at: usize) -> u8
    ensures { result ≡ byte_at s.now at }
{
    s.get(at).copied().unwrap_or(0)
}

// Big-endian. A u16, so that whoever reads a number knows that it is below 65536. No place asked for is large
// (65 fields of 65,538 bytes end below 16,777,216), so none wraps.
#[tactic(auto, unfolding(crate::specs::Fields::number_at))]
pub fn number_at(s: &[u8], at: usize) -> u16
    requires { at < 16777216 }
    ensures { result ≡ number_at s.now at }
{
    u16::from_be_bytes([byte_at(s, at), byte_at(s, at + 1)])
}

// Two's complement.
#[tactic(auto, unfolding(crate::specs::Fields::signed16))]
pub(crate) fn signed(n: u16) -> i32
    ensures { result ≡ signed16 n }
{
    i32::from(n.cast_signed())
}

#[tactic(auto, unfolding(crate::specs::Fields::operation_in))]
pub fn operation_in(s: &[u8]) -> u8
    ensures { result ≡ operation_in s.now }
{
    byte_at(s, OPERATION_HEAD + HEAD_BYTES)
}

#[tactic(auto, unfolding(crate::specs::Fields::line_in))]
pub fn line_in(s: &[u8]) -> u8
    ensures { result ≡ line_in s.now }
{
    byte_at(s, LINE_HEAD + HEAD_BYTES)
}

// The vector's components as they stand in the ticket, two's complement: their signs and sizes are judged on these.
pub fn dx_bits(s: &[u8]) -> u16
    ensures { result ≡ number_at s.now (vector_head + head_bytes) }
{
    number_at(s, VECTOR_HEAD + HEAD_BYTES)
}

pub fn dy_bits(s: &[u8]) -> u16
    ensures { result ≡ number_at s.now (vector_head + head_bytes + 2) }
{
    number_at(s, VECTOR_HEAD + HEAD_BYTES + 2)
}

#[tactic(auto, unfolding(crate::specs::Fields::dx_in, crate::specs::Fields::signed_at))]
pub fn dx_in(s: &[u8]) -> i32
    ensures { result ≡ dx_in s.now }
{
    signed(dx_bits(s))
}

#[tactic(auto, unfolding(crate::specs::Fields::dy_in, crate::specs::Fields::signed_at))]
pub fn dy_in(s: &[u8]) -> i32
    ensures { result ≡ dy_in s.now }
{
    signed(dy_bits(s))
}

#[tactic(auto, unfolding(crate::specs::Fields::length_in))]
pub fn length_in(s: &[u8]) -> u16
    ensures { result ≡ length_in s.now }
{
    number_at(s, LENGTH_HEAD + HEAD_BYTES)
}

#[tactic(auto, unfolding(crate::specs::Fields::origin_in))]
pub fn origin_in(s: &[u8]) -> u16
    ensures { result ≡ origin_in s.now }
{
    number_at(s, ORIGIN_HEAD + HEAD_BYTES)
}

#[tactic(auto, unfolding(crate::specs::Fields::phase_in))]
pub fn phase_in(s: &[u8]) -> u16
    ensures { result ≡ phase_in s.now }
{
    number_at(s, PHASE_HEAD + HEAD_BYTES)
}

// Behind a field: where the next head is due. The bound tells how far a walk of so many heads comes.
#[tactic(auto, unfolding(crate::specs::Fields::field_end))]
pub fn field_end(s: &[u8], head: usize) -> usize
    requires { head < 8388608 }
    ensures ends { result ≡ field_end s.now head }
    ensures near { result ≤ head + 65538 }
{
    let value = number_at(s, head + 1) as usize;
    head + HEAD_BYTES + value
}
