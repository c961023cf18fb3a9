// The static library: the whole call under its one exported name, for C and Rust.
#![tactic(auto)]

ghost use Rattle.finder.specs.Code.{Exported};

// Each slice is a pointer and its number of elements, and the outcome is one number.
#[unsafe(no_mangle)]
pub extern "C" fn finder_answer(image: &[u8], sheet: &[u32], row: &mut [u32]) -> u64
    ensures { Exported image.now sheet.now row.old result row.new }
{
    finder::finder_answer(image, sheet, row)
}
