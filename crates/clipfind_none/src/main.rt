// The printing program where index.bin is missing; sheet.bin has 9,221 bytes, which is too large and odd. `no file` is checked first.
// A program of its own, since a program is run once, on the files in its folder.
#![tactic(auto)]

use std::io;

fn main(rt: HostRuntime) -> io::Result<()> {
    program::run(&rt)
}
