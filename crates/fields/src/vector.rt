// Which vectors and phases a ticket may order. The components come as they stand in the ticket, 16 bits of two's
// complement.
ghost use Rattle.std.specs.Prelude.{◌≡◌, ◌≤◌, nat_abs};
ghost use Rattle.fields.specs.Fields.{signed16};
ghost use Rattle.fields.specs.Vectors.{divided, coprime, vector_allowed, phase_allowed};

use crate::value::signed;
use vectors::{component_size, is_shallow, is_steep};

// "each component within -255 to 255"
const MOST_COMPONENT: usize = 255;

// Whether one of 2 to 255 divides both. Euclid's way: x and y have the same common divisors as y and the rest of x by
// y.
#[tactic(auto, using(crate::proofs::Divisors::euclid, crate::proofs::Divisors::at_end))]
fn share_divisor(a: usize, b: usize) -> bool
    requires { (a ≤ 255) × (b ≤ 255) }
    ensures { result ≡ divided a b 2 254 }
{
    let mut x = a;
    let mut y = b;
    while 0 < y {
        let rest = x % y;
        x = y;
        y = rest;
    }
    x != 1
}

#[tactic(auto, unfolding(crate::specs::Vectors::coprime))]
fn is_coprime(dx: i32, dy: i32) -> bool
    requires { (nat_abs dx ≤ 255) × (nat_abs dy ≤ 255) }
    ensures { result ≡ coprime dx dy }
{
    !share_divisor(component_size(dx), component_size(dy))
}

// A component beyond its limit is refused before divisors are looked for, as none above 255 is tried.
#[tactic(auto, unfolding(crate::specs::Vectors::vector_allowed))]
pub fn vector_allowed(periodic: bool, dx: u16, dy: u16) -> bool
    ensures { result ≡ vector_allowed periodic (signed16 dx) (signed16 dy) }
{
    let x = signed(dx);
    let y = signed(dy);
    if MOST_COMPONENT < component_size(x) || MOST_COMPONENT < component_size(y) {
        return false;
    }
    (is_shallow(x, y) || is_steep(x, y)) && (periodic || is_coprime(x, y))
}

#[tactic(auto, unfolding(crate::specs::Vectors::phase_allowed))]
pub fn phase_allowed(periodic: bool, dx: u16, dy: u16, phase: u16) -> bool
    ensures { result ≡ phase_allowed periodic (signed16 dx) (signed16 dy) phase }
{
    if periodic {
        phase == 0
    } else {
        usize::from(phase) < component_size(signed(dx)).max(component_size(signed(dy)))
    }
}
