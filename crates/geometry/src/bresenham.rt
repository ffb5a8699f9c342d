// A connected line, drawn as Bresenham's plotter draws it: J. E. Bresenham, 'Algorithm for computer control of a
// digital plotter', IBM Systems Journal 4 (1965), which document 000 cites in section 2.1. The two side by side:
//
//     there                                        here
//     Δa, Δb, by how much the line goes on         major, minor: the vector's two components, by size
//     where the pen is                             pen.column, pen.row
//     the i-th movement                            step, from column i - 1 to column i
//     m1, along a                                  the row stays
//     m2, along a and b                            the row is one more
//     ∇, which decides the next movement           error = ∇ + 2Δa - 2Δb, which is never below zero
//     at first ∇ = 2Δb - Δa                        at first error = major
//     ∇ < 0: m1, and then ∇ + 2Δb                  error + 2·minor is below 2·major: it is kept
//     ∇ ≥ 0: m2, and then ∇ + 2Δb - 2Δa            2·major is at most error + 2·minor: 2·major is taken back
//     the octants of the plane                     the line in normal form (normal.rt): it rises, but no faster than
//                                                  it goes on
//
// Halfway between two rows ∇ is 0, and the pen goes to the one farther from the start, there as here (document 02, wish
// 2). The line (5, 3):
//
//     column    0  1  2  3  4  5
//     row       0  1  1  2  2  3
//     error     5  1  7  3  9  5
ghost use Rattle.std.specs.Prelude.{◌≡◌, ◌+◌, ◌≤◌, ◌<◌, length};
ghost use Rattle.geometry.specs.Bresenham.{Drawable, Shifts, pen_at};

// The plotter's pen: the column and the row that it has come to, and the error that it has gathered there.
#[derive(Clone, Copy)]
struct Pen {
    column: usize,
    row: usize,
    error: usize,
}

// One step: the pen goes to the next column, and to the next row too where the error comes to 2·major, a whole row.
fn step(pen: Pen, major: usize, minor: usize) -> Pen
    requires drawable { Drawable major minor }
    requires pen_value { pen ≡ pen_at major minor pen.column }
    requires column_bound { pen.column < 16384 }
    ensures { result ≡ pen_at major minor (pen.column + 1) }
{
    let column = pen.column + 1;
    let two_major = major + major;
    let two_minor = minor + minor;
    let error = pen.error + two_minor;
    if two_major <= error {
        Pen {
            column,
            row: pen.row + 1,
            error: error - two_major,
        }
    } else {
        Pen {
            column,
            row: pen.row,
            error,
        }
    }
}

// The pen at a column, reached from column 0 step by step.
#[tactic(auto, using(crate::proofs::Pens::pen_start), unfolding(crate::specs::Bresenham::pen_at))]
fn drawn_to(column: usize, major: usize, minor: usize) -> Pen
    requires drawable { Drawable major minor }
    requires column_bound { column < 16384 }
    ensures { result ≡ pen_at major minor column }
{
    let mut pen = Pen {
        column: 0,
        row: 0,
        error: major,
    };
    for _ in 0..column {
        pen = step(pen, major, minor);
    }
    pen
}

// Fills a table with the size of the shift at each column from 0 on: "With phase i the shift is D(c+i) - D(i)".
#[tactic(auto, using(crate::proofs::Laws::Nearest::nearest_rises), unfolding(crate::specs::Bresenham::pen_at))]
pub fn draw(major: usize, minor: usize, phase: usize, table: &mut [usize])
    requires drawable { Drawable major minor }
    requires phase_bound { phase < 255 }
    requires table_len_bound { length table.old ≤ 8193 }
    ensures same_length { length table.new ≡ length table.old }
    ensures shifts { Shifts major minor phase table.new }
{
    let start = drawn_to(phase, major, minor);
    let mut pen = start;
    for place in table.iter_mut() {
        *place = pen.row - start.row;
        pen = step(pen, major, minor);
    }
}
