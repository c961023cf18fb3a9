// The postings of a block, "per posting a gap of w bits and an impact of 8 bits": refusal 6.
ghost use Rattle.std.specs.Prelude.{◌≡◌, ℕ, ◌+◌, ◌*◌, ◌≤◌, ◌<◌, length};

use super::part::Part;
use layout::Head;
use meaning::Fault;
use words::Lanes;

// Fewer postings are sooner judged one by one.
const FEW: usize = 16;

// What is kept of postings: one more than their last document, and their largest impact.
#[derive(Clone, Copy)]
pub struct Kept {
    pub next: u64,
    pub largest: u64,
}

// Those that a head tells of, from bit `start` of a part on; `next` is one more than the document before them.
#[derive(Clone, Copy)]
pub struct Postings<'a> {
    pub part: Part<'a>,
    pub head: Head,
    pub start: usize,
    pub next: u64,
    ghost width: { head.width ≤ 24 },
    ghost below: { next ≤ part.docs },
    ghost after: { 44 ≤ start },
    ghost few: { head.count ≤ 128 },
    ghost inside: { start + head.count * (head.width + 8) ≤ 8 * length part.bytes.now },
    ghost largest: { head.largest ≤ 255 },
}

impl Postings<'_> {
    ghost use Rattle.image.specs.Answers.{reading, Sure};
    ghost use Rattle.meaning.specs.Refusals.{told_at};

    // The first that is at fault, "document number N or above, or impact 0", or what is kept of all.
    #[tactic(auto, using(crate::specs::PostingLaws::posting_steps))]
    fn one_by_one(self) -> Result<Kept, Fault>
        ensures { (t : ℕ) → told_at t result ≡ reading t self.entry }
    {
        let bits = self.head.width + 8;
        let mut at = self.start;
        let mut next = self.next;
        let mut largest: u64 = 0;
        for _ in 0..self.head.count {
            // a gap and an impact as one field
            let x = self.part.field(at, bits);
            let doc = next + x / 256;
            if self.part.docs <= doc {
                return Err(Fault::Posting);
            }
            let impact = x % 256;
            if impact == 0 {
                return Err(Fault::Posting);
            }
            at += bits;
            next = doc + 1;
            largest = largest.max(impact);
        }
        Ok(Kept { next, largest })
    }

    // All at once, several to a word. Documents rise, so that the last one alone tells whether all are below N. `None` says no more than that they were
    // not shown good.
    fn by_words(self, room: &mut [u64; 128]) -> Option<Kept>
        ensures { (t : ℕ) → Sure result (reading t self.entry) }
    {
        let Head {
            count,
            width,
            largest,
            ..
        } = self.head;
        if count < FEW {
            return None;
        }
        let lanes = Lanes::new(width);
        let words = lanes.read(self.part.bytes, self.start, count, room);
        let weight = lanes.weigh(room, words, largest);
        let next = self.next + weight.gaps + count as u64;
        if weight.fair && weight.hit && next <= self.part.docs {
            Some(Kept { next, largest })
        } else {
            None
        }
    }

    // By words; where they are not shown good, one by one, since "the first fault found is the one given".
    pub fn judge(self, room: &mut [u64; 128]) -> Result<Kept, Fault>
        ensures { (t : ℕ) → told_at t result ≡ reading t self.entry }
    {
        match self.by_words(room) {
            Some(kept) => Ok(kept),
            None => self.one_by_one(),
        }
    }
}
