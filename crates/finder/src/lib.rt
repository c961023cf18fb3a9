// The whole call: the image judged once, then the sheet, then the room, then each query into its own stretch of the answer row. Document 01,
// "What a call says".
#![tactic(auto)]

ghost use Rattle.std.specs.Prelude.{◌≡◌};
ghost use Rattle.meaning.specs.Call.{says};
ghost use Rattle.meaning.specs.Promise.{Promise};
ghost use Rattle.finder.specs.Answered.{Answered};
ghost use Rattle.finder.specs.Code.{code_of, Exported};
ghost use Rattle.finder.specs.CodeLaws.{Small};
ghost use Rattle.finder.specs.Fill.{Fills, Filled};

use meaning::{Outcome, Refusal};

// Each query of an accepted sheet is lent its own stretch of the answer row, which starts where the previous one ended.
fn fill(image: &[u8], sheet: &[u32], docs: u32, row: &mut [u32])
    requires { Fills image.now sheet.now docs row.old }
    ensures { Filled image.now sheet.now row.old row.new }
{
    let mut at: usize = 1;
    let mut start: usize = 0;
    for _ in 0..sheet[0] {
        let record = sheet::read(sheet, at);
        let end = start + 3 + 2 * record.k;
        search::answer_query(image, record.question(sheet), docs, &mut row[start..end]);
        start = end;
        at = record.pairs + 2 * record.q;
    }
}

// The image's refusals come first, then the sheet's, and "15 is last".
fn answered(image: &[u8], sheet: &[u32], row: &mut [u32]) -> Result<usize, Refusal>
    ensures { Answered image.now sheet.now row.old result row.new }
{
    let sizes = image::judge(image)?;
    let count = sheet::room(sheet::judge(sheet, sizes.terms), row.len())?;
    fill(image, sheet, sizes.docs, row);
    Ok(count)
}

// Answers every query of a sheet on an image, both any at all: "either done with the count of numbers filled, or refused with a number and a
// place".
pub fn answer(image: &[u8], sheet: &[u32], row: &mut [u32]) -> Outcome
    ensures { Promise image.now sheet.now row.old result row.new }
{
    Outcome::from(answered(image, sheet, row))
}

// An outcome as one number, as the C interface has it: 0 for done or the refusal's number, times 2^56, and the count or the place. It is no `From`, which
// could not ask that both are small.
#[tactic(auto, unfolding(meaning::specs::Call::says, crate::specs::Code::code_of))]
fn code(said: Outcome) -> u64
    requires { Small (says said) }
    ensures { result ≡ code_of (says said) }
{
    match said {
        Outcome::Done(count) => count as u64,
        Outcome::Refused(number, place) => u64::from(number) * 72057594037927936 + place as u64,
    }
}

// The same call with the outcome as one number, as the C interface has it: what `finder_c` exports for C and Rust.
pub fn finder_answer(image: &[u8], sheet: &[u32], row: &mut [u32]) -> u64
    ensures { Exported image.now sheet.now row.old result row.new }
{
    code(answer(image, sheet, row))
}
