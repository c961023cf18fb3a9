// Reading back the postings of an accepted image, "A list is a row of blocks": a cursor goes over one list, and nothing that judging has shown
// is checked again. A contract settles which postings the cursor that is returned stands for; which record stands for them is left open.
#![tactic(auto)]

ghost use Rattle.std.specs.Prelude.{◌≡◌, ◌+◌, ◌*◌, ◌-◌, ◌/◌, ◌≤◌, ◌<◌, length, drop};
ghost use Rattle.meaning.specs.Bits.{bits_at};
ghost use Rattle.meaning.specs.Image.{index_of, Accepted};
ghost use Rattle.cursor.specs.Left.{term_of, left_of, not_below};
ghost use Rattle.cursor.specs.Sound.{Ready, Sound, StandsFor};
ghost use Rattle.cursor.specs.Steps.{taken_at, opened_at, ended_at};

// A place in a list, by value: what is left of the list is the current posting and all that follow it. The image stays outside, and each step
// is lent it anew: mentions are kept by value, and hold no reference.
#[derive(Clone, Copy, Default)]
pub struct Cursor {
    // the current document plus one; 4294967295 after the last posting, so that the lowest of several is found with no test for an end
    pub past: u32,
    // the current posting's impact
    pub impact: u32,
    // the bit of the next posting, or of the next block's head where `rest` is 0
    pub at: u32,
    // postings left in the block after the current one
    pub rest: u32,
    // postings left in the list after this block
    pub left: u32,
    // the bits of a posting, w + 8
    pub step: u32,
    // the block's last document plus one
    pub last: u32,
}

// A list at its first posting, with its directory entry's number of postings and largest impact.
#[derive(Clone, Copy)]
pub struct Opened {
    pub cursor: Cursor,
    pub count: u32,
    pub largest: u32,
}

// The n bits from bit `at` of the image on.
#[tactic(auto, using(bits::specs::Parts::from_field))]
fn bits_at(image: &[u8], at: u32, n: u32) -> u64
    requires { (n ≤ 57) × (at + n ≤ 8 * length image.now) }
    ensures { result ≡ bits_at image.now at n }
{
    let byte = (at / 8) as usize;
    bits::field(&image[byte..], (at % 8) as usize, n as usize)
}

// The n bits from bit `at` on, where eight bytes are there from its byte on.
#[tactic(auto, using(bits::specs::Parts::from_field))]
pub fn bits_within(image: &[u8], at: usize, n: usize) -> u64
    requires { (0 < n) × (n ≤ 57) × (at / 8 + 8 ≤ length image.now) }
    ensures { result ≡ bits_at image.now at n }
{
    bits::within(&image[at / 8..], at % 8, n)
}

// The next posting, in a block that has one: its gap and its impact are read as one number.
#[tactic(auto, using(crate::specs::StepLaws::taken_fields, crate::specs::StepLaws::taking))]
pub fn take_next(image: &[u8], c: Cursor) -> Cursor
    requires { Ready image.now (index_of image.now).docs c × (0 < c.rest) }
    ensures { result ≡ taken_at image.now c }
{
    let x = bits_at(image, c.at, c.step);
    let gap = (x >> 8) as u32;
    let impact = (x % 256) as u32;
    Cursor {
        past: c.past + gap + 1,
        impact,
        at: c.at + c.step,
        rest: c.rest - 1,
        ..c
    }
}

// Before the first posting of the next block, past what is left of this one.
#[tactic(auto, using(crate::specs::StepLaws::opening, layout::specs::FieldsLaws::head_from, layout::specs::FieldsLaws::head_bounds))]
fn open_block(image: &[u8], c: Cursor) -> Cursor
    requires { Ready image.now (index_of image.now).docs c × (0 < c.left) }
    ensures { result ≡ opened_at image.now c }
{
    let at = c.at + c.rest * c.step;
    let byte = (at / 8) as usize;
    let head = layout::read_head(&image[byte..], (at % 8) as usize);
    let n = head.count as u32;
    Cursor {
        past: c.last,
        at: at + 44,
        rest: n,
        left: c.left - n,
        step: head.width as u32 + 8,
        last: head.last as u32 + 1,
        ..c
    }
}

// After the last posting.
fn end_list(c: Cursor) -> Cursor
    ensures { result ≡ ended_at c }
{
    Cursor {
        past: 4294967295,
        impact: 0,
        rest: 0,
        left: 0,
        last: 4294967295,
        ..c
    }
}

// The next posting, in a block that has none: the next block's first, or the end.
pub fn turn_block(image: &[u8], c: Cursor) -> Cursor
    requires { Ready image.now (index_of image.now).docs c × (c.rest ≡ 0) }
    ensures { StandsFor image.now result (drop 1 (left_of image.now c)) }
{
    if c.left == 0 {
        return end_list(c);
    }
    take_next(image, open_block(image, c))
}

// The list of a term at its first posting.
#[tactic(auto, using(layout::specs::FieldsLaws::entry_bounds))]
pub fn open_list(image: &[u8], term: u32) -> Opened
    requires { Accepted image.now × (term < length (index_of image.now).terms) }
    ensures { Sound image.now (index_of image.now).docs result.cursor
        × (left_of image.now result.cursor ≡ (term_of image.now term).postings)
        × (result.count ≡ length (term_of image.now term).postings)
        × (result.largest ≡ (term_of image.now term).largest) }
{
    let entry = layout::read_entry(image, term as usize);
    let count = entry.count as u32;
    let start = Cursor {
        at: entry.first as u32,
        left: count,
        step: 8,
        ..Cursor::default()
    };
    Opened {
        cursor: turn_block(image, start),
        count,
        largest: entry.largest as u32,
    }
}

// Past the blocks that end before document past - 1, on their heads alone.
fn pass_blocks(image: &[u8], from: Cursor, past: u32) -> Cursor
    requires { Sound image.now (index_of image.now).docs from × (0 < past) × (past ≤ 16777216) }
    ensures { Sound image.now (index_of image.now).docs result
        × (past ≤ result.last)
        × (not_below (past - 1) (left_of image.now result) ≡ not_below (past - 1) (left_of image.now from)) }
{
    let mut c = from;
    while c.last < past {
        if c.left == 0 {
            return end_list(c);
        }
        c = open_block(image, c);
    }
    c
}

// To the first posting at or after document past - 1, which is in this block.
fn pass_postings(image: &[u8], from: Cursor, past: u32) -> Cursor
    requires { Sound image.now (index_of image.now).docs from × (0 < past) × (past ≤ 16777216) × (past ≤ from.last) }
    ensures { StandsFor image.now result (not_below (past - 1) (left_of image.now from)) }
{
    let mut c = from;
    while c.past < past {
        c = take_next(image, c);
    }
    c
}

// To the first posting at or after document past - 1; the cursor as it is where that is the current one.
pub fn seek(image: &[u8], c: Cursor, past: u32) -> Cursor
    requires { Sound image.now (index_of image.now).docs c × (0 < past) × (past ≤ 16777216) }
    ensures { StandsFor image.now result (not_below (past - 1) (left_of image.now c)) }
{
    let b = pass_blocks(image, c, past);
    pass_postings(image, b, past)
}
