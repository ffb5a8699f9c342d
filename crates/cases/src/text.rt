// The lines that are printed.
use std::io;

pub fn print_name(rt: &impl Print, name: &str) -> io::Result<()> {
    print!(rt; "case {name}")
}

// The pixel at an index of the page, and what parts it from the one before: rows have three pixels.
fn print_pixel(rt: &impl Print, index: usize, pixel: u8) -> io::Result<()> {
    if index == 3 || index == 6 {
        print!(rt; " /")?;
    }
    print!(rt; " {pixel}")
}

fn print_page(rt: &impl Print, page: &[u8]) -> io::Result<()> {
    for (k, pixel) in page.iter().enumerate() {
        print_pixel(rt, k, *pixel)?;
    }
    Ok(())
}

pub fn print_done(rt: &impl Print, work: u64, page: &[u8]) -> io::Result<()> {
    print!(rt; ": done {work}:")?;
    print_page(rt, page)?;
    println!(rt)
}
