// What the page program prints.
ghost use Rattle.std.specs.Prelude.{◌≡◌, ◌+◌, ◌*◌, ◌<◌, ◌≤◌, length, take};

use std::io;

pub fn print_bad_input(rt: &impl Print) -> io::Result<()> {
    println!(rt; "bad input")
}

pub fn print_too_big(rt: &impl Print) -> io::Result<()> {
    println!(rt; "too big")
}

// Puts a character at `at` where it is wanted, and answers where the next one goes.
fn put(text: &mut [u8], at: usize, wanted: bool, character: u8) -> usize
    requires { at < length text.old }
    ensures { result ≤ at + 1 }
{
    if wanted {
        text[at] = character;
        at + 1
    } else {
        at
    }
}

// Puts a pixel in decimal and a mark behind it: four characters at most.
fn put_pixel(text: &mut [u8], at: usize, pixel: u8, mark: u8) -> usize
    requires { at + 4 ≤ length text.old }
    ensures { result ≤ at + 4 }
{
    let tens = put(text, at, 100 <= pixel, b'0' + pixel / 100);
    let units = put(text, tens, 10 <= pixel, b'0' + pixel / 10 % 10);
    let end = put(text, units, true, b'0' + pixel % 10);
    put(text, end, true, mark)
}

// How many pixels are left of the row behind one more of them, or the next row's w where it was the last.
fn left_after(left: usize, w: usize) -> usize {
    if 1 < left { left - 1 } else { w }
}

// What stands before the pixels that are left: a blank inside a row, a newline before a whole one.
fn mark_before(left: usize, w: usize) -> u8 {
    if left < w { b' ' } else { b'\n' }
}

// Puts a page of rows of w pixels: single blanks in a row, a newline behind it. It answers the text's length.
fn put_page(text: &mut [u8], page: &[u8], w: usize) -> usize
    requires { 4 * length page.now ≤ length text.old }
    ensures within { result ≤ length text.new }
    ensures counted { result ≡ length (take result text.new) }
{
    let mut at: usize = 0;
    let mut left = w;
    for pixel in page {
        left = left_after(left, w);
        at = put_pixel(text, at, *pixel, mark_before(left, w));
    }
    at
}

// The rows are collected and written by one call, not by two for each of up to 8192 pixels.
pub fn print_done(rt: &impl Print, work: u64, page: &[u8], w: usize) -> io::Result<()>
    requires { length page.now ≤ 8192 }
{
    println!(rt; "done {work}")?;
    let mut text = [0u8; 4 * 8192];
    let n = put_page(&mut text, page, w);
    rt.write_all(&text[..n])
}
