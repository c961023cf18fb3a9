// A case of the whole call, run and printed on one line: its name, what the call says ("either done with the count of numbers filled, or
// refused with a number and a place"), and the answer row as it stands then.
#![tactic(auto)]

use meaning::Outcome;
use std::io;

// Document 01's lists A: 3 with 4, 5 with 2, 9 with 4; B: 5 with 9, 12 with 9. T = 2, N = 20. A stands at bit 192 (w = 2, gaps 3, 1, 3), B at bit
// 192 + 44 + 3 * 10 = 266 (w = 3, gaps 5, 6) and ends at 266 + 44 + 2 * 11 = 332; 4 zero bits fill 42 bytes.
pub const A_AND_B: [u8; 42] = *b"\x10\x02\x00\x00\x14\x00\x00\x2a\
    \x00\x00\x00\xc0\x00\x00\x03\x04\
    \x00\x00\x01\x0a\x00\x00\x02\x09\
    \x04\x20\x40\x00\x00\x9c\x11\x02\xc1\x00\x8c\x24\x00\x00\x32\x84\xe0\x90";

// A case whose row is lent by the program; its name, any bytes, is written first.
pub fn call(
    rt: &impl Print,
    name: &[u8],
    image: &[u8],
    sheet: &[u32],
    row: &mut [u32],
) -> io::Result<()> {
    rt.write_all(name)?;
    match finder::answer(image, sheet, row) {
        Outcome::Done(count) => print!(rt; ": done {count}:")?,
        Outcome::Refused(number, place) => print!(rt; ": refused {number} {place}:")?,
    }
    for n in row.iter() {
        print!(rt; " {n}")?;
    }
    println!(rt; "")
}

// A case with a row of eight numbers, each 99 before the call: more than one query of k = 1 or k = 2 fills.
pub fn case(rt: &impl Print, name: &[u8], image: &[u8], sheet: &[u32]) -> io::Result<()> {
    let mut row = [99u32; 8];
    call(rt, name, image, sheet, &mut row)
}
