// The hidden boxes as one lent list. Document 01: "The hidden boxes are handed on as one lent list of boxes."
// No function here writes, and none wraps: each answers for every 64-bit number. A box may lie off the page, and its
// right and lower edges may lie past every 64-bit number. `first` walks the lent list for whoever asks or judges, above
// tests on a box's four numbers.
#![tactic(auto)]

ghost use Rattle.std.specs.Prelude.{◌≡◌, ◌+◌, ◌≤◌, ◌&&◌, leb, ltb, take, length, position};
ghost use Rattle.boxes.specs.Boxes.{covers, hidden, box_allowed, answers};
ghost use Rattle.ticket.specs.declared.HiddenBox.{HiddenBox};

use ticket::HiddenBox;

// What is asked of a box: whether it holds a pixel, or whether it is not allowed on a page.
#[derive(Clone, Copy)]
pub enum Question {
    Holds { column: usize, row: usize },
    NotAllowed { width: usize, height: usize },
}

// Whether c lies among the size numbers from start on; by a difference, since start + size may not fit.
pub fn lies_in(start: usize, size: usize, c: usize) -> bool
    ensures { result ≡ leb start c && ltb c (start + size) }
{
    start <= c && c - start < size
}

// Whether the box of these four numbers covers the pixel at column c, row r.
// Stays: four numbers, not a HiddenBox: the law wants "a covered test on four numbers" below the one lent list.
pub fn covers_numbers(
    left: usize,
    top: usize,
    width: usize,
    height: usize,
    c: usize,
    r: usize,
) -> bool
    ensures { result ≡ covers (record { left = left; top = top; width = width; height = height }) c r }
{
    lies_in(left, width, c) && lies_in(top, height, r)
}

// Whether a box's side lies within the page's: over whole numbers, as 65535 + 2 must not look small.
pub fn side_fits(from: usize, length: usize, side: usize) -> bool
    ensures { result ≡ leb (from + length) side }
{
    length <= side && from <= side - length
}

// Whether a box has no zero side and lies on the page.
pub fn box_allowed(width: usize, height: usize, b: HiddenBox) -> bool
    ensures { result ≡ box_allowed width height b }
{
    let some = 1 <= b.width && 1 <= b.height;
    let across = side_fits(b.left, b.width, width);
    let down = side_fits(b.top, b.height, height);
    some && across && down
}

// Whether a box answers a question with yes.
pub fn answers(q: Question, b: HiddenBox) -> bool
    ensures { result ≡ answers q b }
{
    match q {
        Question::Holds { column, row } => covers_numbers(
            b.left, b.top, b.width, b.height, column, row,
        ),
        Question::NotAllowed { width, height } => !box_allowed(width, height, b),
    }
}

// The number of the first of the lent boxes that answers, if one does.
#[tactic(auto, using(crate::proofs::Searching::asked_here))]
pub fn first(boxes: &[HiddenBox], q: Question) -> Option<usize>
    ensures { result ≡ position (answers q) boxes.now }
{
    for (k, b) in boxes.iter().enumerate() {
        if answers(q, *b) {
            return Some(k);
        }
    }
    None
}

// The same of the first count boxes of an array: the array's front is lent.
// Stays: an array and its count, not a slice: `boxes_of` cuts a ticket's 64 places so, and `empty_places_asked` turns it.
pub fn first_of(boxes: [HiddenBox; 64], count: usize, q: Question) -> Option<usize>
    requires { count ≤ 64 }
    ensures { (result ≡ position (answers q) (take count boxes)) × (length (take count boxes) ≡ count) }
{
    first(&boxes[..count], q)
}

// Whether one of the lent boxes hides the pixel.
#[tactic(auto, using(crate::proofs::Searching::hidden_position))]
pub fn hides(boxes: &[HiddenBox], c: usize, r: usize) -> bool
    ensures { result ≡ hidden boxes.now c r }
{
    let found = first(boxes, Question::Holds { column: c, row: r });
    found.is_some()
}

// The number of the first of the lent boxes that is not allowed on the page, if there is one.
pub fn first_refused(boxes: &[HiddenBox], width: usize, height: usize) -> Option<usize>
    ensures { result ≡ position (answers (Question.NotAllowed width height)) boxes.now }
{
    first(boxes, Question::NotAllowed { width, height })
}
