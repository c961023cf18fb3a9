// The printing program on P7 of document 01: image I with its last byte 41, and P1's sheet. It prints `refused 8 1`.
// A program of its own, since a program is run once, on the files in its folder.
#![tactic(auto)]

use std::io;

fn main(rt: HostRuntime) -> io::Result<()> {
    program::run(&rt)
}
