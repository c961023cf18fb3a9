// The printing program but for its `main`: what index.bin and sheet.bin in the folder where it is run come to, printed. Document 01, "The
// printing program". All that is decided and printed is `printed`'s, under its contract; `run` reads the two files and writes the text.
#![tactic(auto)]

ghost use Rattle.std.specs.Prelude.{◌≤◌, length, IfSome};
ghost use Rattle.std.specs.Option.{option_copied};
ghost use Rattle.printing.specs.Laid.{Wrote};
ghost use Rattle.program.specs.Program.{call_lines, program_lines};

use meaning::Outcome;
use std::io::Read;
use std::rt::Files;
use std::{fs, io};

// Reads until the buffer is full or the input ends: how many bytes came, or none at all where a read fails. A directory opens, and its first
// read fails.
fn fill(input: &mut impl Read, buf: &mut [u8]) -> Option<usize>
    ensures { IfSome result (λ n. n ≤ length buf.old) }
{
    let mut done = 0;
    while done < buf.len() {
        let n = input.read(&mut buf[done..]).ok()?;
        if n == 0 {
            break;
        }
        done += n;
    }
    Some(done)
}

// The bytes of a file, as far as there is room, where it can be read.
fn load<'a>(rt: &impl Files, path: &str, buf: &'a mut [u8]) -> Option<&'a [u8]>
    ensures { IfSome result (λ file. length file.now ≤ length buf.old) }
{
    let mut file = fs::open(rt, path).ok()?;
    let n = fill(&mut file, buf)?;
    Some(&buf[..n])
}

// The lines of each query, or the refusal's.
fn called(out: &mut [u8], image: &[u8], sheet: &[u32], row: &mut [u32]) -> usize
    ensures { Wrote 0 (call_lines image.now sheet.now row.old) out.old out.new result }
{
    match finder::answer(image, sheet, row) {
        Outcome::Done(_) => printing::answers(out, sheet, row),
        Outcome::Refused(number, place) => printing::refusal(out, number, place),
    }
}

// What is printed for two files: the bytes of each, where it is there. A buffer of 176,064 bytes has room for any of it.
pub fn printed(out: &mut [u8], index: Option<&[u8]>, sheet: Option<&[u8]>) -> usize
    ensures { Wrote 0 (program_lines (option_copied index.entry) (option_copied sheet.entry))
        out.old out.new result }
{
    let index_bytes = index.map(|file| file.len());
    let sheet_bytes = sheet.map(|file| file.len());
    if let Err(unfit) = printing::decide(index_bytes, sheet_bytes) {
        return printing::decision_line(out, Err(unfit));
    }
    let mut numbers = [0; 2305];
    let n = printing::numbers(sheet.unwrap(), &mut numbers);
    let mut row = [0; 8384];
    called(out, index.unwrap(), &numbers[..n], &mut row)
}

// The whole program. Each buffer has a byte more than its file may have, so that one too large is known. An error is one of writing the text.
pub fn run(rt: &(impl Files + Print)) -> io::Result<()> {
    let mut index = [0; 65537];
    let mut sheet = [0; 9221];
    let mut out = [0; 176064];
    let index = load(rt, "index.bin", &mut index);
    let sheet = load(rt, "sheet.bin", &mut sheet);
    let end = printed(&mut out, index, sheet);
    rt.write_all(&out[..end])
}
