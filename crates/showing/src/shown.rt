// A ticket as shown, written as a row of numbers: eight for its fields and how many boxes it has, four for each of
// 64 box places.
ghost use Rattle.std.specs.Prelude.{◌≡◌, [], ◌∷◌, ◌++◌, ◌+◌, ◌≤◌, length, drop, replicate};
ghost use Rattle.std.proofs.lemmas.List.Edits.{sets};
ghost use Rattle.ticket.specs.Reading.{operation_number, line_number};
ghost use Rattle.showing.specs.Shown.{word_of, fields_before, box_numbers, numbers_in, numbers_of, numbers_needed};
ghost use Rattle.showing.specs.Shown.{Showable};

use ticket::{HiddenBox, LineKind, Operation, Ticket};

// 8 + 4 * 64
pub const NUMBERS: usize = 264;

// The fields and the number of boxes stand before the box places.
const FIRST_BOX: usize = 8;

const BOX_NUMBERS: usize = 4;

// What stands before the box places, number by number: any may be shown, also those that no ticket has.
#[derive(Clone, Copy)]
pub struct Fields {
    pub operation: usize,
    pub line: usize,
    pub dx: i32,
    pub dy: i32,
    pub length: usize,
    pub origin: usize,
    pub phase: usize,
    pub count: usize,
}

// Two's complement in 64 bits.
#[tactic(auto, using(crate::proofs::Words::words))]
fn word_of(z: i32) -> u64
    ensures { result ≡ word_of z }
{
    i64::from(z).cast_unsigned()
}

// The numbers of document 01, as the enums of a ticket have them.
fn operation_number(o: Operation) -> usize
    ensures { result ≡ operation_number o }
{
    o as usize
}

fn line_number(k: LineKind) -> usize
    ensures { result ≡ line_number k }
{
    k as usize
}

fn put_fields(fields: Fields, numbers: &mut [u64])
    requires { 8 ≤ length numbers.old }
    ensures { numbers.new ≡ sets numbers.old 0 (fields_before fields []) }
{
    numbers[..FIRST_BOX].copy_from_slice(&[
        fields.operation as u64,
        fields.line as u64,
        word_of(fields.dx),
        word_of(fields.dy),
        fields.length as u64,
        fields.origin as u64,
        fields.phase as u64,
        fields.count as u64,
    ]);
}

fn put_box(b: HiddenBox, at: usize, numbers: &mut [u64])
    requires { at + 4 ≤ length numbers.old }
    ensures { numbers.new ≡ sets numbers.old at (box_numbers (b ∷ [])) }
{
    numbers[at..at + BOX_NUMBERS].copy_from_slice(&[
        b.left as u64,
        b.top as u64,
        b.width as u64,
        b.height as u64,
    ]);
}

fn put_boxes(boxes: &[HiddenBox], numbers: &mut [u64])
    requires { (length boxes.now ≡ 64) × (numbers_needed ≤ length numbers.old) }
    ensures { numbers.new ≡ sets numbers.old 8 (box_numbers boxes.now) }
{
    for (k, b) in boxes.iter().enumerate() {
        put_box(*b, FIRST_BOX + BOX_NUMBERS * k, numbers);
    }
}

// Shows fields and 64 box places as they are. Numbers past the 264th keep their values.
pub fn put_shown(fields: Fields, places: &[HiddenBox], numbers: &mut [u64])
    requires { (length places.now ≡ 64) × (numbers_needed ≤ length numbers.old) }
    ensures { numbers.new ≡ numbers_in fields places.now ++ drop numbers_needed numbers.old }
{
    put_fields(fields, numbers);
    put_boxes(places, numbers);
}

// Shows a ticket, its operation and its line by their numbers. Numbers past the 264th keep their values.
pub fn put_ticket(t: Ticket, numbers: &mut [u64])
    requires { Showable t × (numbers_needed ≤ length numbers.old) }
    ensures { numbers.new ≡ numbers_of t ++ drop numbers_needed numbers.old }
{
    let fields = Fields {
        operation: operation_number(t.operation),
        line: line_number(t.line),
        dx: t.dx,
        dy: t.dy,
        length: t.length,
        origin: t.origin,
        phase: t.phase,
        count: t.count,
    };
    put_shown(fields, &t.boxes, numbers);
}

// "at a refusal all fields and boxes are zero"
pub fn put_zeros(numbers: &mut [u64])
    requires { numbers_needed ≤ length numbers.old }
    ensures { numbers.new ≡ replicate numbers_needed 0 ++ drop numbers_needed numbers.old }
{
    numbers[..NUMBERS].fill(0);
}
