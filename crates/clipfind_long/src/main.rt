// The printing program on image I and a sheet.bin of 9,221 bytes, which is no multiple of 4 either. `too large` is checked before `odd sheet`.
// A program of its own, since a program is run once, on the files in its folder.
#![tactic(auto)]

use std::io;

fn main(rt: HostRuntime) -> io::Result<()> {
    program::run(&rt)
}
