// The header of a P5 file, as it is written: `P5`, the width, the height and the maximum, each followed by a newline.
ghost use Rattle.std.specs.Prelude.{◌≡◌, ◌++◌, ◌+◌, ◌≤◌, length, drop};
ghost use Rattle.std.proofs.lemmas.List.Edits.{sets};
ghost use Rattle.heading.specs.Writing.{decimal, line, header_of};

const NEWLINE: u8 = 10;

// How many decimal digits a number has.
#[tactic(auto, using(crate::proofs::Stores::digits_are))]
fn digits_of(number: usize) -> usize
    ensures { result ≡ length (decimal number) }
{
    // 0 has a digit, as 1 has.
    number.max(1).ilog10() as usize + 1
}

// The character of a digit.
fn digit(value: usize) -> u8
    requires { value ≤ 9 }
    ensures { result ≡ 48 + value }
{
    (48 + value) as u8
}

// The digits of a number from `at` on, put from the last to the first, as dividing by ten gives them.
fn put_digits(number: usize, at: usize, output: &mut [u8])
    requires { at + length (decimal number) ≤ length output.old }
    ensures { output.new ≡ sets output.old at (decimal number) }
{
    let mut left = number;
    for i in (1..digits_of(number)).rev() {
        output[at + i] = digit(left % 10);
        left /= 10;
    }
    output[at] = digit(left);
}

// A number and its newline from `at` on. The answer is the place behind them.
#[tactic(auto, using(crate::specs::Decimal::length_line, crate::proofs::Stores::line_put))]
fn put_line(number: usize, at: usize, output: &mut [u8]) -> usize
    requires { at + length (line (decimal number)) ≤ length output.old }
    ensures place { result ≡ at + length (line (decimal number)) }
    ensures content { output.new ≡ sets output.old at (line (decimal number)) }
{
    let end = at + digits_of(number);
    put_digits(number, at, output);
    output[end] = NEWLINE;
    end + 1
}

// How many bytes the header has.
#[tactic(auto, using(crate::specs::Decimal::most_digits, crate::specs::Decimal::length_header))]
pub fn header_length(width: usize, height: usize, maximum: u8) -> usize
    ensures { result ≡ length (header_of width height maximum) }
{
    // `P5` and four newlines are 6 bytes.
    6 + digits_of(width) + digits_of(height) + digits_of(maximum as usize)
}

// Bytes behind the header keep their values.
pub fn put_header(width: usize, height: usize, maximum: u8, output: &mut [u8])
    requires { length (header_of width height maximum) ≤ length output.old }
    ensures { output.new
        ≡ header_of width height maximum ++ drop (length (header_of width height maximum)) output.old }
{
    output[0] = b'P';
    output[1] = b'5';
    output[2] = NEWLINE;
    let second = put_line(width, 3, output);
    let third = put_line(height, second, output);
    put_line(maximum as usize, third, output);
}
