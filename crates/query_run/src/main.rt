// Queries in modes 0 and 1, worked by hand from document 01, "Scores, costs and the place": the working stands above each case, and what it
// comes to stands in `stdout` as place, rows found, postings scored, then document and score; 99 where nothing is written.
#![tactic(auto)]

use cases::case;
use std::io;

// P12's list: 4 with 7, 6 with 7. T = 1, N = 20; a block at bit 128 (w = 3, gaps 4, 1), 6 zero bits.
const SAME: [u8; 25] = *b"\x10\x01\x00\x00\x14\x00\x00\x19\
    \x00\x00\x00\x80\x00\x00\x02\x07\
    \x02\x30\x70\x00\x00\x68\x0e\x41\xc0";

// The same with 8 at document 6.
const RISING: [u8; 25] = *b"\x10\x01\x00\x00\x14\x00\x00\x19\
    \x00\x00\x00\x80\x00\x00\x02\x08\
    \x02\x30\x80\x00\x00\x68\x0e\x42\x00";

// The same with 8 at document 4.
const FALLING: [u8; 25] = *b"\x10\x01\x00\x00\x14\x00\x00\x19\
    \x00\x00\x00\x80\x00\x00\x02\x08\
    \x02\x30\x80\x00\x00\x68\x10\x41\xc0";

// Two lists whose largest impact is 3. Term 0: 0, 2, 3 with 3 (bit 192, w = 1, gaps 0, 1, 0); term 1: 1 with 3 (bit 263, w = 1, gap 1); N = 5.
const LEVEL: [u8; 40] = *b"\x10\x02\x00\x00\x05\x00\x00\x28\
    \x00\x00\x00\xc0\x00\x00\x03\x03\
    \x00\x00\x01\x07\x00\x00\x01\x03\
    \x04\x10\x30\x00\x00\x30\x1c\x0c\x06\x00\x20\x60\x00\x00\x30\x30";

// Three lists of several blocks, `|` between them. T = 3, N = 12, 4 zero bits.
// Term 0, bit 256: 1 with 3, 3 with 2 (w = 1) | bit 318: 4 with 1, 5 with 2, 6 with 1 (w = 0) | bit 386: 9 with 5 (w = 2).
// Term 1, bit 440: 2 with 1, 3 with 2 (w = 2) | bit 504: 4 with 2, 9 with 2, 10 with 1 (w = 3).
// Term 2, bit 581: 4 with 1 (w = 3) | bit 636: 5 with 3, 9 with 3 (w = 2).
const THREE: [u8; 88] = *b"\x10\x03\x00\x00\x0c\x00\x00\x58\
    \x00\x00\x01\x00\x00\x00\x06\x05\
    \x00\x00\x01\xb8\x00\x00\x05\x02\
    \x00\x00\x02\x45\x00\x00\x03\x03\
    \x02\x10\x30\x00\x00\x38\x1c\x08\x10\x00\x80\x00\x01\x80\x40\x80\x40\x08\x14\x00\x00\x26\x05\x02\x20\x20\x00\x00\
    \x38\x04\x02\x04\x30\x20\x00\x00\xa0\x05\x00\x80\x08\x01\x80\x80\x00\x02\x40\x10\x22\x03\x00\x00\x09\x00\xf0\x30";

// Document 01's own.
fn paper(rt: &impl Print) -> io::Result<()> {
    // ceilings 4 and 9. At 3: bar 0, A's 4 scored. At 5: bar 4 and P(1) = 4, A is aside; B's 9, 9 + 4 > 4, so A is looked up: 11, 2 scored.
    // At 9: bar 11, B alone is above, so not visited. At 12: 9 + 4 = 13 > 11, A is looked up and lacks it. 1 + 2 + 0 + 1
    case(rt, b"P9", &cases::A_AND_B, &[1, 1, 1, 100, 2, 0, 1, 1, 1])?;
    // 1 at 3, 2 at 5, 1 at 9, 1 at 12
    case(rt, b"P10", &cases::A_AND_B, &[1, 0, 1, 100, 2, 0, 1, 1, 1])?;
    // the bar is 7 after document 4, the one ceiling is 7: nothing more is visited, so nothing stops the query
    case(rt, b"P12, mode 1", &SAME, &[1, 1, 1, 1, 1, 0, 1])?;
    // before 6: 1 + 1 > 1
    case(rt, b"P12, mode 0", &SAME, &[1, 0, 1, 1, 1, 0, 1])
}

// Term 0 with weight 2, terms 1 and 2 with weight 1: ceilings 10, 2, 3, so that term 1 has rank 1, term 2 rank 2, term 0 rank 3, and P is 0, 2, 5, 15.
// The scores: 1 with 6, 2 with 1, 3 with 4 + 2, 4 with 2 + 2 + 1, 5 with 4 + 3, 6 with 2, 9 with 10 + 2 + 3, 10 with 1.
fn three(rt: &impl Print, name: &[u8], mode: u32, k: u32, budget: u32) -> io::Result<()> {
    case(rt, name, &THREE, &[1, mode, k, budget, 3, 0, 2, 1, 1, 2, 1])
}

// Mode 1, k = 1. Document by document:
// 1: bar 0, j = 0; 6, 1 scored.
// 2: bar 6, j = 2 by P(2) = 5: two mentions are aside, and rank 3 lacks it: not visited.
// 3: 4; 4 + 5 > 6, rank 2 is looked up and lacks it; 4 + 2 = 6 is at most the bar: dropped before the last look-up. 1 scored, 2 in all.
// 4: 2; 2 + 5 > 6, rank 2 is looked up: 3; 3 + 2 is at most 6: dropped before the last look-up. 2 scored, 4 in all.
// 5: 4; 4 + 5 > 6: 7; 7 + 2 > 6, rank 1 is looked up and lacks it: 7 enters. 2 scored, 6 in all.
// 6: bar 7, j = 2; 2; 2 + 5 = 7 is at most the bar: dropped at once. 1 scored, 7 in all.
// 9: 10; 15 > 7: 13; 15 > 7: 15 enters. 3 scored, 10 in all.
// 10: bar 15 = P(3), j = 3: not visited.
fn pruned(rt: &impl Print) -> io::Result<()> {
    three(rt, b"pruned", 1, 1, 100)?;
    // before 9: 7 + 3 = 10 is not above 10, but above 9
    three(rt, b"pruned, budget 10", 1, 1, 10)?;
    three(rt, b"pruned, budget 9", 1, 1, 9)?;
    // before 6: 6 + 3 = 9 is above 8
    three(rt, b"pruned, budget 8", 1, 1, 8)?;
    // before 5: 4 + 3 = 7 is not above 7
    three(rt, b"pruned, budget 7", 1, 1, 7)
}

// The same on both sides of the documents that are dropped.
fn pruned_low(rt: &impl Print) -> io::Result<()> {
    // before 5: 4 + 3 = 7 is above 6
    three(rt, b"pruned, budget 6", 1, 1, 6)?;
    // before 4: 2 + 3 = 5 is not above 5, but above 4
    three(rt, b"pruned, budget 5", 1, 1, 5)?;
    three(rt, b"pruned, budget 4", 1, 1, 4)?;
    // before 3: 1 + 3 = 4 is above 3
    three(rt, b"pruned, budget 3", 1, 1, 3)?;
    // before 1: 0 + 3 is above 2
    three(rt, b"pruned, budget 2", 1, 1, 2)
}

// Two rows, and mode 0.
fn two_rows(rt: &impl Print) -> io::Result<()> {
    // the bar is 0 until two rows stand. 1: 6, 1 scored. 2: bar 0, j = 0; 1, 1 scored. 3: bar 1, j = 0; 4 + 2, 2 scored. 4: bar 6, j = 2; 2, 7 > 6: 3; 5 is
    // at most 6: dropped, 2 scored. 5: 4; 9 > 6: 7; 9 > 6: enters, 2 scored. 6: bar 6; 2; 7 > 6, rank 2 lacks it; 4: dropped, 1 scored. 9: 15, 3 scored.
    // 10: bar 7, j = 2: not visited. 1 + 1 + 2 + 2 + 2 + 1 + 3
    three(rt, b"pruned, k = 2", 1, 2, 100)?;
    // every posting: 6 + 5 + 3
    three(rt, b"plain", 0, 1, 100)?;
    // before 10: 13 + 3 = 16 is not above 16, but above 15, though document 10 has one posting only
    three(rt, b"plain, budget 16", 0, 1, 16)?;
    three(rt, b"plain, budget 15", 0, 1, 15)
}

// k = 1, weight 1: a later document enters if its score is above, and not if it is the same.
fn ties(rt: &impl Print) -> io::Result<()> {
    case(rt, b"7 then 7, mode 0", &SAME, &[1, 0, 1, 100, 1, 0, 1])?;
    // the bar is 7, the ceiling 8: visited
    case(rt, b"7 then 8, mode 1", &RISING, &[1, 1, 1, 100, 1, 0, 1])?;
    case(rt, b"7 then 8, mode 0", &RISING, &[1, 0, 1, 100, 1, 0, 1])?;
    // the bar is 8, the ceiling 8: not visited
    case(rt, b"8 then 7, mode 1", &FALLING, &[1, 1, 1, 100, 1, 0, 1])?;
    // the bar is 0 before two rows stand: document 6 is visited, and stands below the earlier
    case(rt, b"7 then 7, k = 2", &SAME, &[1, 1, 2, 100, 1, 0, 1])
}

// Both ceilings are 3, the bar is 3 after document 0, and P is 0, 3, 6: the mention that comes first in the query is aside.
fn ceilings(rt: &impl Print) -> io::Result<()> {
    // term 0 is aside. 1: 3; 3 + 3 > 3, term 0 is looked up and lacks it, 1 scored; 3 does not enter. 2 and 3: not visited
    case(rt, b"terms 0, 1", &LEVEL, &[1, 1, 1, 100, 2, 0, 1, 1, 1])?;
    // term 1 is aside. 1: not visited. 2 and 3: 3; 3 + 3 > 3, term 1 is looked up and lacks it, 1 scored each
    case(rt, b"terms 1, 0", &LEVEL, &[1, 1, 1, 100, 2, 1, 1, 0, 1])
}

fn main(rt: HostRuntime) -> io::Result<()> {
    paper(&rt)?;
    pruned(&rt)?;
    pruned_low(&rt)?;
    two_rows(&rt)?;
    ties(&rt)?;
    ceilings(&rt)
}
