// The printing program on P1's sheet with one byte more, 29 in all, and image I with version 2. `odd sheet` is checked before the call, which
// would refuse the image.
// A program of its own, since a program is run once, on the files in its folder.
#![tactic(auto)]

use std::io;

fn main(rt: HostRuntime) -> io::Result<()> {
    program::run(&rt)
}
