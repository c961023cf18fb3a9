// The printing program on an index.bin of 65,537 bytes, that of clipfind_full and one byte more, and P1's sheet. It prints `too large`.
// A program of its own, since a program is run once, on the files in its folder.
#![tactic(auto)]

use std::io;

fn main(rt: HostRuntime) -> io::Result<()> {
    program::run(&rt)
}
