// The printing program, of which each run on other files is a program of its own, run on P1 of document 01: image I and the sheet 1, 1, 1, 100, 1, 0, 3. "The program prints `10 1 2` and then `7 27`."
#![tactic(auto)]

use std::io;

fn main(rt: HostRuntime) -> io::Result<()> {
    program::run(&rt)
}
