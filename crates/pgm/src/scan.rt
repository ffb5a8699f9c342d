// Bytes outside comments: where the next one stands, what is behind a run of one kind, and the number that a run of
// digits makes. A place is asked for only where no comment starts, or at the file's end.
ghost use Rattle.std.specs.Prelude.{◌≡◌, true, ℕ, ◌+◌, ◌-◌, ◌*◌, ◌≤◌, Bool, length};
ghost use Rattle.pgm.specs.Bytes.{is_space, is_digit, is_hash, is_line_end, bytes_from, starts_with, numeral};
ghost use Rattle.pgm.specs.Bytes.{behind as behindRun};
ghost use Rattle.pgm.specs.Reading.{told};
ghost use Rattle.pgm.specs.Scanning.{Computes, is_outside, inside_behind, Stands, Onward};

// Stays: the library's `is_ascii_whitespace` leaves out VT, which is white space here.
pub fn is_space(b: u8) -> bool
    ensures { result ≡ is_space b }
{
    (b == b' ') | ((9 <= b) & (b <= 13))
}

pub fn is_digit(b: u8) -> bool
    ensures { result ≡ is_digit b }
{
    b.is_ascii_digit()
}

fn is_hash(b: u8) -> bool
    ensures { result ≡ is_hash b }
{
    b == b'#'
}

fn is_line_end(b: u8) -> bool
    ensures { result ≡ is_line_end b }
{
    (b == b'\n') | (b == b'\r')
}

fn is_outside(inside: bool, b: u8) -> bool
    ensures { result ≡ is_outside inside b }
{
    !inside & !is_hash(b)
}

fn inside_behind(inside: bool, b: u8) -> bool
    ensures { result ≡ inside_behind inside b }
{
    if inside { !is_line_end(b) } else { is_hash(b) }
}

// The first place from `at` on that is in no comment, or the file's length.
pub fn next(file: &[u8], at: usize) -> usize
    requires { at ≤ length file.now }
    ensures { Onward file.now (bytes_from file.now at) at result }
{
    let mut inside = false;
    for k in at..file.len() {
        if is_outside(inside, file[k]) {
            return k;
        }
        inside = inside_behind(inside, file[k]);
    }
    file.len()
}

// Whether a byte of this kind stands here.
pub fn starts_with<F: Fn(u8) -> bool>(file: &[u8], kind: F, at: usize) -> bool
    requires callable { F.IsAlwaysCallable kind }
    requires stands { Stands file.now (bytes_from file.now at) at }
    ensures { (test : ℕ → Bool) → Computes (F.post kind) test
        → result ≡ starts_with test (bytes_from file.now at) }
{
    at < file.len() && kind(file[at])
}

// The place behind all bytes of this kind.
pub fn behind<F: Fn(u8) -> bool>(file: &[u8], kind: F, at: usize) -> usize
    requires callable { F.IsAlwaysCallable kind }
    requires stands { Stands file.now (bytes_from file.now at) at }
    ensures { (test : ℕ → Bool) → Computes (F.post kind) test
        → Stands file.now (behindRun test (bytes_from file.now at)) result }
{
    let mut k = at;
    while k < file.len() && kind(file[k]) {
        k = next(file, k + 1);
    }
    k
}

// A number with one digit more, told as the largest number where it is beyond 64 bits.
fn grown(n: usize, b: u8) -> usize
    requires { is_digit b ≡ true }
    ensures { result ≡ told (n * 10 + (b - 48)) }
{
    n.saturating_mul(10).saturating_add((b - b'0') as usize)
}

// The number that the digits from here on make, any number of them, as it is told.
pub fn number_at(file: &[u8], at: usize) -> usize
    requires { Stands file.now (bytes_from file.now at) at }
    ensures { result ≡ told (numeral 0 (bytes_from file.now at)) }
{
    let mut n: usize = 0;
    let mut k = at;
    while k < file.len() && is_digit(file[k]) {
        n = grown(n, file[k]);
        k = next(file, k + 1);
    }
    n
}
