// Which way a vector (dx, dy) runs, and its two components along the major and the minor axis. The definitions stand in
// specs/Vector.
#![tactic(auto)]

ghost use Rattle.std.specs.Prelude.{◌≡◌, nat_abs};
ghost use Rattle.vectors.specs.Vector.{shallow, steep, major_of, minor_of};

// The size of a number, whichever its sign.
pub fn size(z: i64) -> usize
    ensures { result ≡ nat_abs z }
{
    z.unsigned_abs() as usize
}

// A component, at the width that the lines are computed with.
pub fn wide(z: i32) -> i64
    ensures { result ≡ z }
{
    i64::from(z)
}

// The size of a component.
pub fn component_size(z: i32) -> usize
    ensures { result ≡ nat_abs z }
{
    size(wide(z))
}

// Whether a vector is shallow: its columns go forward, and its rows by no more.
#[tactic(auto, unfolding(crate::specs::Vector::shallow))]
pub fn is_shallow(dx: i32, dy: i32) -> bool
    ensures { result ≡ shallow dx dy }
{
    1 <= dx && component_size(dy) <= component_size(dx)
}

// Whether a vector is steep: its rows go forward, and its columns by less.
#[tactic(auto, unfolding(crate::specs::Vector::steep))]
pub fn is_steep(dx: i32, dy: i32) -> bool
    ensures { result ≡ steep dx dy }
{
    1 <= dy && component_size(dx) < component_size(dy)
}

// How far a vector goes along its major axis.
#[tactic(auto, unfolding(crate::specs::Vector::major_of))]
pub fn major_of(dx: i32, dy: i32) -> usize
    ensures { result ≡ major_of dx dy }
{
    if is_steep(dx, dy) {
        component_size(dy)
    } else {
        component_size(dx)
    }
}

// How far a vector goes along its minor axis, below zero where its lines fall.
#[tactic(auto, unfolding(crate::specs::Vector::minor_of))]
pub fn minor_of(dx: i32, dy: i32) -> i64
    ensures { result ≡ minor_of dx dy }
{
    if is_steep(dx, dy) { wide(dx) } else { wide(dy) }
}
