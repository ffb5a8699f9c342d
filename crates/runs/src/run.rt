// Runs of neighbouring bytes: copied, or chosen of two runs. Every comparison of a pass is done here but for those
// of `pixel`, and is counted where it is done.
ghost use Rattle.std.specs.Prelude.{◌≡◌, ◌+◌, ◌≤◌, ℕ, Bool, cond, length, get_or};
ghost use Rattle.runs.specs.Span.{chosen};
ghost use Rattle.runs.specs.Scratch.{total};
ghost use Rattle.runs.specs.Runs.{Apart, Copied, Chosen, ChosenUnless, kept_or, compared_of, in_one_block};

// Of two values the lower, or the higher.
pub fn chosen_of(low: bool, a: u8, b: u8) -> u8
    ensures { result ≡ chosen low a b }
{
    if low { a.min(b) } else { a.max(b) }
}

// A run that stands where it is to be needs no copy.
// No `copy_within`: it goes from the last byte down where a run is copied to a higher place, as the backward sweep's
// bands are, and memory is read faster from the first byte on.
pub fn copy_run(bytes: &mut [u8], to: usize, from: usize, n: usize)
    requires { (to + n ≤ length bytes.old) × (from + n ≤ length bytes.old) × Apart to from n }
    ensures { Copied to from n bytes.old bytes.new }
{
    if to != from {
        for k in 0..n {
            bytes[to + k] = bytes[from + k];
        }
    }
}

// It answers its comparisons. A compiler that finds `to` and `first` at one place must take them byte by byte, unless
// it knows: so a caller who knows says `to` for both, and the body stands at each call.
#[inline(always)]
pub fn choose_run(
    low: bool,
    bytes: &mut [u8],
    to: usize,
    first: usize,
    second: usize,
    n: usize,
) -> usize
    requires n_in_bounds { (to + n ≤ length bytes.old) × (first + n ≤ length bytes.old) ×
        (second + n ≤ length bytes.old) }
    requires apart { Apart to first n × Apart to second n }
    ensures { Chosen low to first second n bytes.old bytes.new × (result ≡ n) }
{
    let mut count: usize = 0;
    for k in 0..n {
        bytes[to + k] = chosen_of(low, bytes[first + k], bytes[second + k]);
        count += 1;
    }
    count
}

// The first of two values where it is kept, else the choice of them, which is the one that compares.
// Stays: which way to choose is asked first, and not by `chosen_of` where a value is not kept: the compiler takes
// sixteen bytes at once so, and on Arm (tried) one by one where whether to keep is asked first.
fn kept_or_chosen(low: bool, keeps: bool, a: u8, b: u8) -> u8
    ensures { result ≡ kept_or low keeps a b }
{
    if low {
        if keeps { a } else { a.min(b) }
    } else if keeps {
        a
    } else {
        a.max(b)
    }
}

// The comparisons of that.
fn compared_of(keeps: bool) -> u8
    ensures { result ≡ cond keeps 0 1 }
{
    if keeps { 0 } else { 1 }
}

// A run of which those bytes are kept for whose marks `keeps` answers so: as `kept` says. A byte counts its
// comparisons, which is as wide as what is compared, so that the compiler takes thirty-two at once; hence at most 224,
// seven times that. `to` and `first` are as above.
#[inline(always)]
pub fn marked_run<F: Fn(u16) -> bool>(
    low: bool,
    bytes: &mut [u8],
    marks: &[u16],
    to: usize,
    first: usize,
    second: usize,
    keeps: F,
) -> usize
    ghost kept: { ℕ → Bool }
    requires n_in_bounds { (to + length marks.now ≤ length bytes.old) ×
        (first + length marks.now ≤ length bytes.old) × (second + length marks.now ≤ length bytes.old) }
    requires apart { Apart to first (length marks.now) × Apart to second (length marks.now) ×
        (length marks.now ≤ 224) }
    requires keeps { F.IsAlwaysCallable keeps × ((m : ℕ) (b : Bool) → F.post keeps m b → b ≡ kept m) }
    ensures { ChosenUnless low (λ k. kept (get_or marks.now k 0)) to first second (length marks.now) bytes.old
        bytes.new × (result ≡ total (compared_of (λ k. kept (get_or marks.now k 0))) 0 (length marks.now)) }
{
    let mut count: u8 = 0;
    for (k, mark) in marks.iter().enumerate() {
        let keep = keeps(*mark);
        bytes[to + k] = kept_or_chosen(low, keep, bytes[first + k], bytes[second + k]);
        count += compared_of(keep);
    }
    count as usize
}

// Whether a line's window lies in one block, by the line's mark.
fn in_one_block(last: u16, near: u16, far: u16, mark: u16) -> bool
    ensures { result ≡ in_one_block last near far mark }
{
    if mark <= last {
        mark < near
    } else {
        mark < far
    }
}

// A run of which those bytes are kept whose mark says that their window lies in one block; at most 224, as above.
pub fn block_run(
    low: bool,
    bytes: &mut [u8],
    marks: &[u16],
    at: usize,
    last: u16,
    near: u16,
    far: u16,
    to: usize,
    first: usize,
    second: usize,
    n: usize,
) -> usize
    requires n_in_bounds { (to + n ≤ length bytes.old) × (first + n ≤ length bytes.old) ×
        (second + n ≤ length bytes.old) }
    requires apart { Apart to first n × Apart to second n × (at + n ≤ length marks.now) × (n ≤ 224) }
    ensures { ChosenUnless low (λ k. in_one_block last near far (get_or marks.now (at + k) 0)) to first
        second n bytes.old bytes.new ×
        (result ≡ total (compared_of (λ k. in_one_block last near far (get_or marks.now (at + k) 0))) 0 n) }
{
    let own = &marks[at..at + n];
    marked_run(
        low,
        bytes,
        own,
        to,
        first,
        second,
        move |mark| in_one_block(last, near, far, mark),
    )
}
