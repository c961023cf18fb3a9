// "A list is a row of blocks", the next at the bit after the one before, "in the middle of a byte or not".
ghost use Rattle.std.specs.Prelude.{◌≡◌, ℕ, ◌*◌, ◌≤◌, length};
ghost use Rattle.meaning.specs.Image.{blocks_at};
ghost use Rattle.meaning.specs.Refusals.{told_at};
ghost use Rattle.image.specs.Answers.{keep, ended_of};

use super::block::judge_block;
use super::part::Part;
use meaning::Fault;

// What is kept of a list: the bit after it, and its largest impact.
#[derive(Clone, Copy)]
pub struct Ended {
    pub stop: usize,
    pub largest: u64,
}

// The blocks of `count` postings from bit `start` on.
#[tactic(auto, using(crate::specs::ListLaws::list_ends))]
pub fn judge_blocks(
    image: Part,
    start: usize,
    count: usize,
    room: &mut [u64; 128],
) -> Result<Ended, Fault>
    requires { start ≤ 8 * length image.bytes.now }
    ensures { (t : ℕ) → told_at t result ≡ keep ended_of (blocks_at image.entry.bytes.now image.entry.docs t count start 0 count) }
{
    let mut bit = start;
    let mut next: u64 = 0;
    let mut left = count;
    let mut largest: u64 = 0;
    // A `while`, since each block takes postings of its own number.
    while 0 < left {
        let block = judge_block(image.cut(bit), bit % 8, next, left, room)?;
        bit += block.bits;
        next = block.next;
        left -= block.postings;
        largest = largest.max(block.largest);
    }
    Ok(Ended { stop: bit, largest })
}
