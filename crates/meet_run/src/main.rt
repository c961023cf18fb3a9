// Queries in mode 2, "if every mention's list does", each visited document "at cost q": worked by hand, with the working above each case. What it
// comes to stands in `stdout` as place, rows found, postings scored, then document and score; 99 where nothing is written.
#![tactic(auto)]

use cases::case;
use std::io;

// Term 0: 1, 3, 5 with 9 (bit 192, w = 1); term 1: 2, 4, 6 with 9 (bit 263, w = 2). N = 8, 7 zero bits.
const APART: [u8; 43] = *b"\x10\x02\x00\x00\x08\x00\x00\x2b\
    \x00\x00\x00\xc0\x00\x00\x03\x09\
    \x00\x00\x01\x07\x00\x00\x03\x09\
    \x04\x10\x90\x00\x00\x58\x4c\x26\x12\x08\x41\x20\x00\x00\xd0\x4a\x12\x84\x80";

// Two lists of three blocks, `|` between them. N = 40, 7 zero bits.
// Term 0, bit 192: 0 with 1, 2 with 1 (w = 1) | bit 254: 10 with 2, 12 with 1 (w = 3) | bit 320: 20 with 1, 33 with 5 (w = 4).
// Term 1, bit 388: 1 with 9, 3 with 1 (w = 1) | bit 450: 11 with 1 (w = 3) | bit 505: 21 with 1, 30 with 2, 33 with 7 (w = 4).
const LAST: [u8; 74] = *b"\x10\x02\x00\x00\x28\x00\x00\x4a\
    \x00\x00\x00\xc0\x00\x00\x06\x05\
    \x00\x00\x01\x84\x00\x00\x06\x09\
    \x02\x10\x10\x00\x00\x20\x0c\x04\x08\xc0\x80\x00\x03\x38\x11\x01\x02\x40\x50\x00\x02\x17\x01\xc0\x50\
    \x21\x09\x00\x00\x03\x84\xc0\x40\x0c\x04\x00\x00\x2f\x80\x82\x20\x38\x00\x01\x0c\x80\xc0\x11\x03\x80";

// Two lists of two blocks that meet at 9 and 21, and an empty one. T = 3, N = 50, 1 zero bit.
// Term 0, bit 256: 3 with 5, 9 with 4 (w = 3) | bit 322: 10 with 2, 20 with 1, 21 with 2 (w = 4).
// Term 1, bit 402: 9 with 3, 21 with 6 (w = 4) | bit 470: 40 with 1 (w = 5). Term 2 has no postings.
const TWICE: [u8; 66] = *b"\x10\x03\x00\x00\x32\x00\x00\x42\
    \x00\x00\x01\x00\x00\x00\x05\x05\
    \x00\x00\x01\x92\x00\x00\x03\x06\
    \x00\x00\x00\x00\x00\x00\x00\x00\
    \x02\x30\x50\x00\x00\x96\x0b\x41\x01\x10\x08\x00\x00\x54\x00\xa4\x04\
    \x00\x80\x90\x18\x00\x00\x56\x40\xec\x18\x01\x40\x40\x00\x0a\x24\x02";

// Term 0: 2 with 1, 4 with 1, 8 with 2 (bit 256, w = 2); term 1: 2, 4, 6 with 1, 8 with 3 (bit 330, w = 2); term 2: 3 with 1, 8 with 4 (bit 414,
// w = 3). N = 10, no bit left.
const THREE: [u8; 60] = *b"\x10\x03\x00\x00\x0a\x00\x00\x3c\
    \x00\x00\x01\x00\x00\x00\x03\x02\
    \x00\x00\x01\x4a\x00\x00\x04\x03\
    \x00\x00\x01\x9e\x00\x00\x02\x04\
    \x04\x20\x20\x00\x00\x88\x05\x01\xc0\x81\x88\x0c\x00\x00\x22\x01\x40\x50\x14\x0c\x08\xc1\x00\x00\x02\x18\x0c\x04";

// One document, and none.
fn meetings(rt: &impl Print) -> io::Result<()> {
    // 5 alone: 2 + 9, at cost 2
    case(rt, b"P11", &cases::A_AND_B, &[1, 2, 1, 100, 2, 0, 1, 1, 1])?;
    // no document matches
    case(rt, b"never", &APART, &[1, 2, 1, 100, 2, 0, 1, 1, 1])?;
    // none is visited, so nothing stops the query
    case(rt, b"never, budget 0", &APART, &[1, 2, 1, 0, 2, 0, 1, 1, 1])?;
    // terms 0 and 1 meet at 2, 4 and 8, term 2 holds 8 only: 1 * 2 + 2 * 3 + 3 * 4, at cost 3
    case(
        rt,
        b"three lists",
        &THREE,
        &[1, 2, 1, 3, 3, 0, 1, 1, 2, 2, 3],
    )?;
    // before 8: 0 + 3 is above 2
    case(
        rt,
        b"three lists, budget 2",
        &THREE,
        &[1, 2, 1, 2, 3, 0, 1, 1, 2, 2, 3],
    )
}

// The lists meet at 33, in the last block of each: 2 * 5 + 3 * 7.
fn last_blocks(rt: &impl Print) -> io::Result<()> {
    case(rt, b"last blocks", &LAST, &[1, 2, 1, 100, 2, 0, 2, 1, 3])?;
    case(
        rt,
        b"last blocks, the other first",
        &LAST,
        &[1, 2, 1, 100, 2, 1, 3, 0, 2],
    )?;
    // before 33: 0 + 2 is not above 2, but above 1
    case(
        rt,
        b"last blocks, budget 2",
        &LAST,
        &[1, 2, 1, 2, 2, 0, 2, 1, 3],
    )?;
    case(
        rt,
        b"last blocks, budget 1",
        &LAST,
        &[1, 2, 1, 1, 2, 0, 2, 1, 3],
    )
}

// Terms 0 and 1 with these weights: 9 has 4 and 3, 21 has 2 and 6.
fn twice(
    rt: &impl Print,
    name: &[u8],
    k: u32,
    budget: u32,
    first: u32,
    second: u32,
) -> io::Result<()> {
    case(rt, name, &TWICE, &[1, 2, k, budget, 2, 0, first, 1, second])
}

// Weights 1, 1: 9 with 7, 21 with 8.
fn budgets(rt: &impl Print) -> io::Result<()> {
    // before 21: 2 + 2 = 4 is not above 4, but above 3
    twice(rt, b"twice, budget 4", 1, 4, 1, 1)?;
    twice(rt, b"twice, budget 3", 1, 3, 1, 1)?;
    // before 9: 0 + 2 is not above 2, but above 1
    twice(rt, b"twice, budget 2", 1, 2, 1, 1)?;
    twice(rt, b"twice, budget 1", 1, 1, 1, 1)
}

// "higher score, then lower document number".
fn ties(rt: &impl Print) -> io::Result<()> {
    // 12 + 6 and 6 + 12
    twice(rt, b"18 and 18", 1, 100, 3, 2)?;
    twice(rt, b"18 and 18, k = 2", 2, 100, 3, 2)?;
    // 8 + 3 and 4 + 6
    twice(rt, b"11 and 10", 1, 100, 2, 1)?;
    // 4 + 3 and 2 + 6
    twice(rt, b"7 and 8, k = 2", 2, 100, 1, 1)
}

// "A term may be repeated; each mention counts with its own weight and its own postings".
fn repeated(rt: &impl Print) -> io::Result<()> {
    // every document of term 0, at cost 2 each, with 2 + 3 times its impact: 3 with 25, 9 with 20, 10 with 10, 20 with 5, 21 with 10
    case(rt, b"a term twice", &TWICE, &[1, 2, 2, 100, 2, 0, 2, 0, 3])?;
    // 9: 4 * 2 + 3 * 1 + 4 * 3 = 23; 21: 2 * 2 + 6 * 1 + 2 * 3 = 16; at cost 3 each
    case(
        rt,
        b"a term twice, and another",
        &TWICE,
        &[1, 2, 2, 6, 3, 0, 2, 1, 1, 0, 3],
    )?;
    // before 21: 3 + 3 = 6 is above 5
    case(
        rt,
        b"the same, budget 5",
        &TWICE,
        &[1, 2, 2, 5, 3, 0, 2, 1, 1, 0, 3],
    )?;
    // one mention: every document of term 1 at cost 1
    case(rt, b"one term", &TWICE, &[1, 2, 1, 100, 1, 1, 1])
}

// No document is in an empty list, so none is visited.
fn empty(rt: &impl Print) -> io::Result<()> {
    case(rt, b"an empty list", &TWICE, &[1, 2, 1, 100, 2, 0, 1, 2, 1])?;
    case(
        rt,
        b"an empty list first",
        &TWICE,
        &[1, 2, 1, 100, 3, 2, 5, 0, 1, 1, 1],
    )?;
    case(
        rt,
        b"an empty list, budget 0",
        &TWICE,
        &[1, 2, 1, 0, 2, 0, 1, 2, 1],
    )?;
    case(rt, b"an empty list alone", &TWICE, &[1, 2, 1, 100, 1, 2, 1])
}

fn main(rt: HostRuntime) -> io::Result<()> {
    meetings(&rt)?;
    last_blocks(&rt)?;
    budgets(&rt)?;
    ties(&rt)?;
    repeated(&rt)?;
    empty(&rt)
}
