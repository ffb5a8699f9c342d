// The lines on standard output.
use std::io;
use ticket::{HiddenBox, Ticket};

// A blank, then the box.
fn print_box(rt: &impl Print, b: &HiddenBox) -> io::Result<()> {
    print!(rt; " {},{},{},{}", b.left, b.top, b.width, b.height)
}

fn print_boxes(rt: &impl Print, t: &Ticket) -> io::Result<()> {
    for b in t.boxes.iter().take(t.count) {
        print_box(rt, b)?;
    }
    Ok(())
}

pub fn print_good(rt: &impl Print, t: &Ticket) -> io::Result<()> {
    let (operation, line) = (t.operation as u8, t.line as u8);
    print!(rt; "ticket {operation} {line} {} {}", t.dx, t.dy)?;
    print!(rt; " {} {} {} {}", t.length, t.origin, t.phase, t.count)?;
    print_boxes(rt, t)?;
    println!(rt)
}

pub fn print_cut(rt: &impl Print) -> io::Result<()> {
    println!(rt; "cut")
}
