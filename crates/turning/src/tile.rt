// Sixteen by sixteen bytes transposed at once. A byte a turn would visit a new row with each byte; here whole rows of
// sixteen are moved, and the compiler makes each round of the shuffle a few instructions on sixteen bytes.
ghost use Rattle.std.specs.Prelude.{◌≡◌, ◌+◌, ◌≤◌, length};
ghost use Rattle.turning.specs.Tiles.{Copied, Shuffled, Transposed};

// The sides of a tile, and half of its bytes.
pub const SIDE: usize = 16;

const HALF: usize = SIDE * SIDE / 2;

// Sixteen bytes of one slice, from a on, are stored in another, from b on.
// Stays: on x86-64 a shallow page takes 32 % longer where `copy_from_slice` does this.
pub fn copy_side(from: &[u8], a: usize, to: &mut [u8], b: usize)
    requires { (a + 16 ≤ length from.now) × (b + 16 ≤ length to.old) }
    ensures { Copied 16 from.now a b to.old to.new }
{
    for i in 0..SIDE {
        to[b + i] = from[a + i];
    }
}

// A perfect shuffle of a tile: its two halves, byte by byte in turn. In the place of a byte, a number of eight bits,
// the first bit becomes the last.
fn shuffle(x: &[u8], y: &mut [u8])
    requires { (length x.now ≡ 256) × (length y.old ≡ 256) }
    ensures { Shuffled 128 x.now y.new }
{
    for i in 0..HALF {
        y[2 * i] = x[i];
        y[2 * i + 1] = x[HALF + i];
    }
}

// Four shuffles exchange the four bits of the row with those of the column. The second slice is used on the way.
pub fn transpose(x: &mut [u8], y: &mut [u8])
    requires { (length x.old ≡ 256) × (length y.old ≡ 256) }
    ensures { Transposed x.old x.new }
{
    shuffle(x, y);
    shuffle(y, x);
    shuffle(x, y);
    shuffle(y, x);
}
