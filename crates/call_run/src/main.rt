// The whole call: document 01's P1 to P8, its "run only" examples, and room in the answer row, each worked by hand above its case. `stdout` has what
// the call says and the whole row, every number of which is 99 before the call.
#![tactic(auto)]

use cases::{call, case};
use std::io;

// Document 01's image I: 2 with 5, 7 with 9; T = 1, N = 10.
const I: [u8; 25] = *b"\x10\x01\x00\x00\x0a\x00\x00\x19\
    \x00\x00\x00\x80\x00\x00\x02\x09\
    \x02\x30\x90\x00\x00\x74\x0b\x02\x40";

// Image I's list as term 1, between two empty lists: T = 3, N = 10, the list at bit 256.
const AMID: [u8; 41] = *b"\x10\x03\x00\x00\x0a\x00\x00\x29\
    \x00\x00\x00\x00\x00\x00\x00\x00\
    \x00\x00\x01\x00\x00\x00\x02\x09\
    \x00\x00\x00\x00\x00\x00\x00\x00\
    \x02\x30\x90\x00\x00\x74\x0b\x02\x40";

// Documents 0 to 128 with 1: blocks of 128 and 1, w = 0; T = 1, N = 129.
const FULL: [u8; 156] = *b"\x10\x01\x00\x00\x81\x00\x00\x9c\
    \x00\x00\x00\x80\x00\x00\x81\x01\
    \xfe\x00\x10\x00\x07\xf0\
    \x10\x10\x10\x10\x10\x10\x10\x10\x10\x10\x10\x10\x10\x10\x10\x10\x10\x10\x10\x10\x10\x10\x10\x10\x10\x10\x10\x10\x10\x10\x10\x10\
    \x10\x10\x10\x10\x10\x10\x10\x10\x10\x10\x10\x10\x10\x10\x10\x10\x10\x10\x10\x10\x10\x10\x10\x10\x10\x10\x10\x10\x10\x10\x10\x10\
    \x10\x10\x10\x10\x10\x10\x10\x10\x10\x10\x10\x10\x10\x10\x10\x10\x10\x10\x10\x10\x10\x10\x10\x10\x10\x10\x10\x10\x10\x10\x10\x10\
    \x10\x10\x10\x10\x10\x10\x10\x10\x10\x10\x10\x10\x10\x10\x10\x10\x10\x10\x10\x10\x10\x10\x10\x10\x10\x10\x10\x10\x10\x10\x10\x10\
    \x00\x01\x00\x00\x80\x01";

// P1 to P3: image I in mode 1 with k = 1 and weight 3.
fn stops(rt: &impl Print) -> io::Result<()> {
    // 2: bar 0; 15. 7: bar 15, the ceiling is 27; 27
    case(rt, b"P1", &I, &[1, 1, 1, 100, 1, 0, 3])?;
    // before 7: 1 + 1 is above 1
    case(rt, b"P2", &I, &[1, 1, 1, 1, 1, 0, 3])?;
    // before 2: 0 + 1 is above 0
    case(rt, b"P3", &I, &[1, 1, 1, 0, 1, 0, 3])
}

// P4 to P6: the sheet is refused, and the row stays.
fn sheets(rt: &impl Print) -> io::Result<()> {
    case(rt, b"P4, k = 65", &I, &[1, 1, 65, 100, 1, 0, 3])?;
    case(rt, b"P4, k = 0", &I, &[1, 1, 0, 100, 1, 0, 3])?;
    case(rt, b"P5", &I, &[1, 1, 1, 100, 1, 0, 256])?;
    case(rt, b"P6", &I, &[1, 1, 1, 100, 1, 1, 3])?;
    // the first query is sound, the second has k = 65: nothing of the first is written
    case(
        rt,
        b"k = 65 in the second query",
        &I,
        &[2, 1, 1, 100, 1, 0, 3, 1, 65, 100, 1, 0, 3],
    )
}

// P7 and P8, and the image before the sheet.
fn images(rt: &impl Print) -> io::Result<()> {
    let mut image = I;
    image[24] = 0x41;
    case(rt, b"P7", &image, &[1, 1, 1, 100, 1, 0, 3])?;
    image[24] = 0x40;
    image[15] = 0x0a;
    case(rt, b"P8", &image, &[1, 1, 1, 100, 1, 0, 3])?;
    // 0 queries would be refused 9
    image[0] = 0x20;
    case(rt, b"version 2, 0 queries", &image, &[0])
}

// "queries (1 to 64)". A sheet of ones after its first number: each query is mode 1, k = 1, budget 1, and one pair of term 1 and weight 1.
fn counts(rt: &impl Print) -> io::Result<()> {
    case(rt, b"0 queries", &AMID, &[0])?;
    let mut sheet = [1u32; 391];
    sheet[0] = 65;
    case(rt, b"65 queries", &AMID, &sheet)?;
    sheet[0] = 64;
    // query 0 has budget 100: to the end; query 63, from number 379 on, budget 0: stopped before 2; the others before 7, as in P2
    sheet[3] = 100;
    sheet[381] = 0;
    let mut row = [99u32; 321];
    call(rt, b"64 queries", &AMID, &sheet[..385], &mut row)
}

// "q (1 to 16)", each pair term 1 and weight 1 in mode 1: 16 times 5 at document 2, and 16 times 9 at document 7.
fn mentions(rt: &impl Print) -> io::Result<()> {
    let mut sheet = [1u32; 39];
    sheet[4] = 17;
    case(rt, b"17 terms", &AMID, &sheet)?;
    sheet[4] = 16;
    // 7: bar 80, ceilings of 9, 8 of which are 72 and 9 of which are 81: j = 8. 8 * 9 + 72 > 80, and so on: all 16 are scored. Before 7: 16 + 16 = 32 is
    // not above 32, but above 31
    sheet[3] = 32;
    case(rt, b"16 terms, budget 32", &AMID, &sheet[..37])?;
    sheet[3] = 31;
    case(rt, b"16 terms, budget 31", &AMID, &sheet[..37])
}

// "k (1 to 64)": 3 + 2 * 64 numbers.
fn most_rows(rt: &impl Print) -> io::Result<()> {
    let mut row = [99u32; 132];
    // the bar is 0 up to document 63 and 3 after it, which is the ceiling: 64 scored, the lowest documents with 3 each
    call(rt, b"k = 64", &FULL, &[1, 1, 64, 100, 1, 0, 3], &mut row)?;
    let mut rest = [99u32; 132];
    // two rows, then zeros
    call(
        rt,
        b"k = 64, two rows",
        &I,
        &[1, 1, 64, 100, 1, 0, 3],
        &mut rest,
    )
}

// N = 0 with one empty list: nothing is visited, the place is N.
fn no_documents(rt: &impl Print) -> io::Result<()> {
    let image = *b"\x10\x01\x00\x00\x00\x00\x00\x10\x00\x00\x00\x00\x00\x00\x00\x00";
    case(rt, b"N = 0, mode 0", &image, &[1, 0, 1, 100, 1, 0, 3])?;
    case(rt, b"N = 0, mode 1", &image, &[1, 1, 1, 0, 1, 0, 3])?;
    case(rt, b"N = 0, mode 2", &image, &[1, 2, 1, 100, 1, 0, 3])
}

// T = 0: no term is below it.
fn no_terms(rt: &impl Print) -> io::Result<()> {
    case(
        rt,
        b"T = 0, term 0",
        b"\x10\x00\x00\x00\x0a\x00\x00\x08",
        &[1, 1, 1, 100, 1, 0, 3],
    )?;
    case(
        rt,
        b"T = 0, the last term",
        b"\x10\x00\x00\x00\x0a\x00\x00\x08",
        &[1, 1, 1, 100, 1, 4294967295, 3],
    )
}

// Terms 0 and 2 of AMID have no postings.
fn empty_lists(rt: &impl Print) -> io::Result<()> {
    case(
        rt,
        b"an empty list, mode 0",
        &AMID,
        &[1, 0, 1, 100, 1, 0, 3],
    )?;
    case(rt, b"an empty list, mode 1", &AMID, &[1, 1, 1, 0, 1, 2, 3])?;
    case(
        rt,
        b"an empty list, mode 2",
        &AMID,
        &[1, 2, 1, 100, 1, 0, 3],
    )?;
    // 9 at document 7; q is 2: before 7: 1 + 2 = 3 is not above 3, but above 2
    case(
        rt,
        b"an empty list beside, budget 3",
        &AMID,
        &[1, 1, 1, 3, 2, 0, 1, 1, 1],
    )?;
    case(
        rt,
        b"an empty list beside, budget 2",
        &AMID,
        &[1, 1, 1, 2, 2, 0, 1, 1, 1],
    )
}

// Term 0 with weights 3 and 4: 35 at document 2, 63 at document 7, two postings each.
fn repeated(rt: &impl Print) -> io::Result<()> {
    case(
        rt,
        b"a repeated term, mode 0",
        &I,
        &[1, 0, 1, 100, 2, 0, 3, 0, 4],
    )?;
    // 7: bar 35, ceilings 27 and 36: the first mention is aside; 36 + 27 > 35, it is looked up
    case(
        rt,
        b"a repeated term, mode 1",
        &I,
        &[1, 1, 1, 100, 2, 0, 3, 0, 4],
    )?;
    case(
        rt,
        b"a repeated term, mode 2",
        &I,
        &[1, 2, 1, 100, 2, 0, 3, 0, 4],
    )?;
    // before 7: 2 + 2 = 4 is above 3
    case(
        rt,
        b"a repeated term, budget 3",
        &I,
        &[1, 1, 1, 3, 2, 0, 3, 0, 4],
    )
}

// "gap width w (5 bits, 0 to 24)", mode 0 with k = 2.
fn widths(rt: &impl Print) -> io::Result<()> {
    // w = 0: 0 with 1, 1 with 4, 2 with 2; N = 3, weight 3
    let narrow =
        b"\x10\x01\x00\x00\x03\x00\x00\x19\x00\x00\x00\x80\x00\x00\x03\x04\x04\x00\x40\x00\x00\x20\x10\x40\x20";
    case(rt, b"w = 0", narrow, &[1, 0, 2, 100, 1, 0, 3])?;
    // w = 24: 0 with 2, 2^24 - 2 with 1; N = 2^24 - 1, weight 255
    let wide =
        b"\x10\x01\xff\xff\xff\x00\x00\x1e\x00\x00\x00\x80\x00\x00\x02\x02\x03\x80\x2f\xff\xff\xe0\x00\x00\x00\x2f\xff\xff\xd0\x10";
    case(rt, b"w = 24", wide, &[1, 0, 2, 100, 1, 0, 255])?;
    // before the last: 1 + 1 is above 1
    case(rt, b"w = 24, budget 1", wide, &[1, 0, 2, 1, 1, 0, 255])?;
    // w = 25: 0 with 1; N = 1
    let wider =
        b"\x10\x01\x00\x00\x01\x00\x00\x1a\x00\x00\x00\x80\x00\x00\x01\x01\x01\x90\x10\x00\x00\x00\x00\x00\x00\x08";
    case(rt, b"w = 25", wider, &[1, 0, 2, 100, 1, 0, 255])
}

// P1 needs 5 numbers; 15 at the numbers needed, after all else.
fn rooms(rt: &impl Print) -> io::Result<()> {
    let mut short = [99u32; 4];
    call(rt, b"a row of 4", &I, &[1, 1, 1, 100, 1, 0, 3], &mut short)?;
    call(
        rt,
        b"a row of 4, weight 256",
        &I,
        &[1, 1, 1, 100, 1, 0, 256],
        &mut short,
    )?;
    let mut right = [99u32; 5];
    call(rt, b"a row of 5", &I, &[1, 1, 1, 100, 1, 0, 3], &mut right)
}

// P1, then mode 0 with k = 2: 5 numbers and 7.
fn two_queries(rt: &impl Print, name: &[u8], row: &mut [u32]) -> io::Result<()> {
    call(
        rt,
        name,
        &I,
        &[2, 1, 1, 100, 1, 0, 3, 0, 2, 100, 1, 0, 3],
        row,
    )
}

// "Each query writes only into its own stretch"; numbers past the last stretch stay.
fn stretches(rt: &impl Print) -> io::Result<()> {
    let mut short = [99u32; 11];
    two_queries(rt, b"two queries, a row of 11", &mut short)?;
    let mut right = [99u32; 12];
    two_queries(rt, b"two queries, a row of 12", &mut right)?;
    let mut long = [99u32; 14];
    two_queries(rt, b"two queries, a row of 14", &mut long)
}

fn main(rt: HostRuntime) -> io::Result<()> {
    stops(&rt)?;
    sheets(&rt)?;
    images(&rt)?;
    counts(&rt)?;
    mentions(&rt)?;
    most_rows(&rt)?;
    no_documents(&rt)?;
    no_terms(&rt)?;
    empty_lists(&rt)?;
    repeated(&rt)?;
    widths(&rt)?;
    rooms(&rt)?;
    stretches(&rt)
}
