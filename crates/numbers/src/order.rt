// The order: a line and the sides of a page.
ghost use Rattle.std.specs.Prelude.{◌≡◌, true, ◌||◌, ◌<◌, ◌↔◌, IfSome, IsSome, length};
ghost use Rattle.vectors.specs.Vector.{major_of, shallow, steep};
ghost use Rattle.geometry.specs.Drift.{Allowed};
ghost use Rattle.numbers.specs.Page.{Good, Sides, order_of};

use geometry::Line;
use vectors::{component_size, is_shallow, is_steep, major_of};

// "each component within -255 to 255"
const MOST_COMPONENT: usize = 255;

const MOST_PIXELS: usize = 4096;

// What 11 bytes ask for, be it an order or not: the kind is a byte still.
#[derive(Clone, Copy)]
pub struct Asked {
    pub kind: u8,
    pub dx: i32,
    pub dy: i32,
    pub phase: usize,
    pub w: usize,
    pub h: usize,
}

#[derive(Clone, Copy)]
pub struct Order {
    pub line: Line,
    pub w: usize,
    pub h: usize,
}

// Whether the phase is below the larger component, or 0 of a periodic line.
fn is_phase(line: Line) -> bool
    requires { 0 < major_of line.dx line.dy }
    ensures { result ≡ true → line.phase < major_of line.dx line.dy }
{
    if line.periodic {
        line.phase == 0
    } else {
        line.phase < major_of(line.dx, line.dy)
    }
}

// Whether a vector is shallow or steep.
fn is_vector(dx: i32, dy: i32) -> bool
    ensures { result ≡ shallow dx dy || steep dx dy }
{
    is_shallow(dx, dy) || is_steep(dx, dy)
}

// Whether a line may be ordered.
#[tactic(auto, using(geometry::proofs::Laws::sound, geometry::proofs::Laws::allowed))]
fn is_allowed(line: Line) -> bool
    ensures { result ≡ true → Allowed line }
{
    if MOST_COMPONENT < component_size(line.dx) || MOST_COMPONENT < component_size(line.dy) {
        return false;
    }
    is_vector(line.dx, line.dy) && is_phase(line)
}

// Whether a page has pixels, and not too many to list.
fn is_page(w: usize, h: usize) -> bool
    ensures { result ≡ true → Sides w h }
{
    1 <= w && w <= MOST_PIXELS && 1 <= h && h <= MOST_PIXELS && w * h <= MOST_PIXELS
}

// What 11 bytes ask for. Fewer or more ask for nothing.
pub fn read(bytes: &[u8]) -> Option<Asked>
    ensures { IsSome result ↔ (length bytes.now ≡ 11) }
{
    let &[
        kind,
        dx_high,
        dx_low,
        dy_high,
        dy_low,
        phase_high,
        phase_low,
        w_high,
        w_low,
        h_high,
        h_low,
    ] = bytes
    else {
        return None;
    };
    Some(Asked {
        kind,
        dx: i32::from(i16::from_be_bytes([dx_high, dx_low])),
        dy: i32::from(i16::from_be_bytes([dy_high, dy_low])),
        phase: usize::from(u16::from_be_bytes([phase_high, phase_low])),
        w: usize::from(u16::from_be_bytes([w_high, w_low])),
        h: usize::from(u16::from_be_bytes([h_high, h_low])),
    })
}

// The order that is asked for, if it can be listed.
pub fn listed(asked: Asked) -> Option<Order>
    ensures { IfSome result (λ o. Good o × (o ≡ order_of asked)) }
{
    let Asked {
        kind,
        dx,
        dy,
        phase,
        w,
        h,
    } = asked;
    let periodic = match kind {
        1 => false,
        2 => true,
        _ => return None,
    };
    let line = Line {
        periodic,
        dx,
        dy,
        phase,
    };
    if is_allowed(line) && is_page(w, h) {
        Some(Order { line, w, h })
    } else {
        None
    }
}
