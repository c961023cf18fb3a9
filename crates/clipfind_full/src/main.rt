// The printing program on the largest files that it reads, 65,536 and 9,220 bytes.
//
// The image has one term and N = 16,231: every document 0 to 16,230 with impact 1, in 126 blocks of 128 postings with w = 24, of 44 + 128 * 32 =
// 4,140 bits each, and one of 103 with w = 16, of 44 + 103 * 24 = 2,516. With 128 bits before them that is 524,284, and 4 zero bits fill the last byte.
//
// The sheet has 64 queries of modes 0, 1, 2, 0, .., each of k = 1, the largest budget, and sixteen mentions of term 0 with weight 1: 1 + 64 * 36 =
// 2,305 numbers. Every document scores 16, and the lowest stands first: the row is 0 with 16. No budget is exceeded: the place is 16,231.
// Modes 0 and 2 score all 16 * 16,231 = 259,696 postings. In mode 1 the sixteen ceilings are 1 each, so that P(i) = i: at document 0 the bar is 0, j is 0
// and 16 postings are scored; from then on the bar is 16, j is 16, and no mention above it is left.
// A program of its own, since a program is run once, on the files in its folder.
#![tactic(auto)]

use std::io;

fn main(rt: HostRuntime) -> io::Result<()> {
    program::run(&rt)
}
