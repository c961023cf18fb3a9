// "Each block is judged on its own part of the image, cut from the byte that holds its first bit": refusals 5, 6 and 7 of a block.
ghost use Rattle.std.specs.Prelude.{◌≡◌, ℕ, ◌≤◌, ◌<◌};
ghost use Rattle.meaning.specs.Image.{block_at};
ghost use Rattle.meaning.specs.Refusals.{told_at};
ghost use Rattle.image.specs.Answers.{keep, taken_of};

use super::part::Part;
use super::postings::Postings;
use layout::read_head;
use meaning::Fault;

// What is kept of a block: the bits and the postings that it takes, and as of its postings.
#[derive(Clone, Copy)]
pub struct Taken {
    pub bits: usize,
    pub postings: usize,
    pub next: u64,
    pub largest: u64,
}

// The block at bit `shift` of a part, in a list that has `left` postings left; `next` is one more than the document before it.
#[tactic(auto, using(crate::specs::BlockLaws::block_steps))]
pub fn judge_block(
    part: Part,
    shift: usize,
    next: u64,
    left: usize,
    room: &mut [u64; 128],
) -> Result<Taken, Fault>
    requires { (shift < 8) × (next ≤ part.docs) }
    ensures { (t : ℕ) → told_at t result ≡ keep (taken_of shift next) (block_at part.entry.bytes.now part.entry.docs t shift next left) }
{
    let end = 8 * part.bytes.len();
    if end < shift + 44 {
        return Err(Fault::Block);
    }
    let head = read_head(part.bytes, shift);
    if 24 < head.width || left < head.count {
        return Err(Fault::Block);
    }
    let size = 44 + head.count * (head.width + 8);
    if end < shift + size {
        return Err(Fault::Block);
    }
    let postings = Postings {
        part,
        head,
        start: shift + 44,
        next,
    };
    let kept = postings.judge(room)?;
    if head.last + 1 != kept.next || head.largest != kept.largest {
        return Err(Fault::Untrue);
    }
    Ok(Taken {
        bits: size,
        postings: head.count,
        next: kept.next,
        largest: kept.largest,
    })
}
