// The directory: each term in order, "first 4, then its blocks in order .., then the list's 7".
ghost use Rattle.std.specs.Prelude.{◌≡◌, ◌+◌, ◌*◌, ◌≤◌, length};
ghost use Rattle.meaning.specs.Image.{entry_fits, terms_at};
ghost use Rattle.meaning.specs.Refusals.{told, told_at};
ghost use Rattle.layout.specs.Fields.{entry_fields};
ghost use Rattle.image.specs.Answers.{keep, stop_of};

use super::list::judge_blocks;
use super::part::Part;
use layout::{Entry, read_entry};
use meaning::{Fault, Refusal};

// No refusal 4: "postings 0 with another field not 0; postings above N; list not at its due bit".
fn entry_fits(docs: u64, due: usize, entry: Entry) -> bool
    ensures { result ≡ entry_fits docs due (entry_fields entry) }
{
    if entry.count == 0 {
        entry.first == 0 && entry.largest == 0
    } else {
        entry.count as u64 <= docs && entry.first == due
    }
}

// The entry and the list of a term; a list with postings is due at bit `due`. What is given is the bit after the list.
#[tactic(auto, using(crate::specs::DirectoryLaws::list_odd))]
fn judge_list(image: Part, term: usize, due: usize, room: &mut [u64; 128]) -> Result<usize, Fault>
    requires { (16 + 8 * term ≤ length image.bytes.now) × (due ≤ 8 * length image.bytes.now) }
    ensures { told_at term result ≡ keep stop_of (terms_at image.entry.bytes.now image.entry.docs term due 1) }
{
    let entry = read_entry(image.bytes, term);
    if !entry_fits(image.docs, due, entry) {
        return Err(Fault::Entry);
    }
    let list = judge_blocks(image, due, entry.count, room)?;
    if entry.largest != list.largest {
        return Err(Fault::Untrue);
    }
    Ok(list.stop)
}

// The lists of all terms, "in directory order, the first starting at bit 64 + 64T and each other at the bit after the one before". What is given is the
// bit after the last.
#[tactic(auto, using(crate::specs::DirectoryLaws::terms_end))]
pub fn judge_lists(image: Part, terms: usize) -> Result<usize, Refusal>
    requires { 8 + 8 * terms ≤ length image.bytes.now }
    ensures { told result ≡ keep stop_of (terms_at image.entry.bytes.now image.entry.docs 0 (64 + 64 * terms) terms) }
{
    let mut room = [0u64; 128];
    let mut due = 64 + 64 * terms;
    for term in 0..terms {
        due = judge_list(image, term, due, &mut room).map_err(|fault| Refusal {
            fault,
            place: term,
        })?;
    }
    Ok(due)
}
