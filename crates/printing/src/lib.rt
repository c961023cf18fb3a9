// What the printing program prints, laid into a lent buffer, and what it decides and reads before. Document 01, "The printing program".
#![tactic(auto)]

ghost use Rattle.std.specs.Prelude.{◌≡◌, ◌+◌, ◌*◌, ◌≤◌, [], ◌∷◌, length, get_or};
ghost use Rattle.printing.specs.Text.{decimal as text_decimal};
ghost use Rattle.printing.specs.Text.{numbers_line, answer_lines, refused_line};
ghost use Rattle.printing.specs.Laid.{Wrote, Within, Starts, Lays};
ghost use Rattle.printing.specs.Printable.{Printable, Printed};
ghost use Rattle.printing.specs.Decide.{decided, decision_line};
ghost use Rattle.printing.specs.Numbers.{Taken};

// Why no answer is asked for.
#[derive(Clone, Copy, Debug, PartialEq, Eq)]
pub enum Unfit {
    NoFile,
    TooLarge,
    OddSheet,
}

// A lent buffer, and the place in it where the next text goes. What is past the buffer's end is left out.
#[derive(Drop)]
struct Page<'a> {
    out: &'a mut [u8],
    at: usize,
}

impl<'a> Page<'a> {
    fn new(out: &'a mut [u8]) -> Page<'a>
        ensures { Starts out.entry result }
    {
        Page { out, at: 0 }
    }

    // One byte.
    fn put(&mut self, byte: u8)
        requires { Within self.old.at 1 }
        ensures { Lays (byte ∷ []) self.old self.new }
    {
        if self.at < self.out.len() {
            self.out[self.at] = byte;
        }
        self.at += 1;
    }

    // Words that are printed as they stand.
    fn words(&mut self, bytes: &[u8])
        requires { Within self.old.at (length bytes.now) }
        ensures { Lays bytes.now self.old self.new }
    {
        for &byte in bytes {
            self.put(byte);
        }
    }

    // A number in decimal, by hand: `write!` may fail, and these writers never do.
    fn decimal(&mut self, x: u64)
        requires { Within self.old.at 20 }
        ensures { Lays (text_decimal x) self.old self.new }
    {
        if 10 <= x {
            self.decimal(x / 10);
        }
        self.put(b'0' + (x % 10) as u8);
    }

    // Numbers on a line.
    fn line(&mut self, numbers: &[u64])
        requires { Within self.old.at (21 * length numbers.now + 1) }
        ensures { Lays (numbers_line numbers.now) self.old self.new }
    {
        for (i, &number) in numbers.iter().enumerate() {
            if 0 < i {
                self.put(b' ');
            }
            self.decimal(number);
        }
        self.put(b'\n');
    }

    // The answer in a stretch: its first line, and as many rows as it found.
    fn answer(&mut self, stretch: &[u32])
        requires rows { 3 + 2 * get_or stretch.now 1 0 ≤ length stretch.now }
        requires within { Within self.old.at (64 + 42 * get_or stretch.now 1 0) }
        ensures { Lays (answer_lines stretch.now 0) self.old self.new }
    {
        let found = stretch[1];
        self.line(&[
            u64::from(stretch[0]),
            u64::from(found),
            u64::from(stretch[2]),
        ]);
        let (rows, _) = stretch[3..].as_chunks::<2>();
        for &[doc, score] in &rows[..found as usize] {
            self.line(&[u64::from(doc), u64::from(score)]);
        }
    }
}

// "`refused` with number and place".
pub fn refusal(out: &mut [u8], number: u32, place: usize) -> usize
    ensures { Wrote 0 (refused_line number place) out.old out.new result }
{
    let mut page = Page::new(out);
    page.words(b"refused ");
    page.line(&[u64::from(number), place as u64]);
    page.at
}

// The answers of an accepted sheet's queries, each from its own stretch of the answer row.
pub fn answers(out: &mut [u8], sheet: &[u32], row: &[u32]) -> usize
    requires { Printable sheet.now row.now }
    ensures { Printed sheet.now row.now out.old out.new result }
{
    let mut page = Page::new(out);
    let mut query = 1;
    let mut rest = row;
    for _ in 0..sheet[0] {
        let asked = sheet::read(sheet, query);
        page.answer(rest);
        rest = &rest[3 + 2 * asked.k..];
        query = asked.pairs + 2 * asked.q;
    }
    page.at
}

// What the program's two files come to: how many bytes each has, where it is there.
#[tactic(auto, unfolding(crate::specs::Decide::decided))]
pub fn decide(index: Option<usize>, sheet: Option<usize>) -> Result<(), Unfit>
    ensures { result ≡ decided index sheet }
{
    let (Some(index), Some(sheet)) = (index, sheet) else {
        return Err(Unfit::NoFile);
    };
    if 65536 < index || 9220 < sheet {
        return Err(Unfit::TooLarge);
    }
    if !sheet.is_multiple_of(4) {
        return Err(Unfit::OddSheet);
    }
    Ok(())
}

// The line of a decision; none where an answer is to be asked for.
pub fn decision_line(out: &mut [u8], decision: Result<(), Unfit>) -> usize
    ensures { Wrote 0 (decision_line decision) out.old out.new result }
{
    let mut page = Page::new(out);
    match decision {
        Ok(()) => {}
        Err(Unfit::NoFile) => page.words(b"no file\n"),
        Err(Unfit::TooLarge) => page.words(b"too large\n"),
        Err(Unfit::OddSheet) => page.words(b"odd sheet\n"),
    }
    page.at
}

// The numbers that the bytes hold, as many as there is room for; and how many.
#[tactic(auto, using(crate::proofs::Chunks::next_number))]
pub fn numbers(bytes: &[u8], out: &mut [u32]) -> usize
    ensures { Taken bytes.now out.old out.new result }
{
    let (groups, _) = bytes.as_chunks::<4>();
    let n = groups.len().min(out.len());
    // By the index: of numbers that `iter_mut` lends a proof keeps only how many there are.
    for (i, group) in groups[..n].iter().enumerate() {
        out[i] = u32::from_be_bytes(*group);
    }
    n
}
