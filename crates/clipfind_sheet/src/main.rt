// The printing program on lists A and B of document 01 (A: 3 with 4, 5 with 2, 9 with 4; B: 5 with 9, 12 with 9; N = 20) and a sheet of eight queries.
// The scores with weights 1 are 3: 4, 5: 11, 9: 4, 12: 9. What is printed, worked out by hand:
//
// 0. P9, mode 1, k = 1: `20 1 4`, `5 11`. 1. P10, mode 0: `20 1 5`, `5 11`. 2. P11, mode 2: `20 1 2`, `5 11`.
// 3. Mode 0, k = 64, the largest budget: all four documents, the rest of the 64 rows is not printed. 3 comes before 9, both with 4.
// 4. Mode 0, k = 2, budget 3, q = 2: at 3 it has 0 + 2, at 5 it has 1 + 2, at 9 it has 3 + 2 > 3, and stops there: `9 2 3`, then 5 with 11 and 3 with 4.
// 5. Mode 2, k = 3, budget 1, q = 2: 0 + 2 > 1 at 5, the only document of both lists: `5 0 0`, and no row.
// 6. Mode 1, k = 2, term A with weight 3 and again with weight 2: ceilings 12 and 8, so that P(1) = 8 and P(2) = 20; scores 3: 20, 5: 10, 9: 20.
//    At 3 and at 5 the bar is 0 and both mentions are scored. At 9 the bar is 10 and j is 1: 3 * 4 = 12 is scored, 12 + 8 is above 10, and the
//    other is looked up: 20. Two postings at each: `20 2 6`, then 3 with 20 before 9 with 20.
// 7. Mode 0, k = 1, term B with weight 255: 5 and 12 with 2,295 each, the lower stands: `20 1 2`, `5 2295`.
// A program of its own, since a program is run once, on the files in its folder.
#![tactic(auto)]

use std::io;

fn main(rt: HostRuntime) -> io::Result<()> {
    program::run(&rt)
}
