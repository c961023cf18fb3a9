// Judging an image: any bytes at all, refusals 1 to 8 of document 01 in its order, or what an accepted image holds.
#![tactic(auto)]

mod block;
mod directory;
mod list;
mod part;
mod postings;

ghost use Rattle.std.specs.Prelude.{◌≡◌, ◌*◌, ◌≤◌, length};
ghost use Rattle.meaning.specs.Image.{image_of};
ghost use Rattle.meaning.specs.Refusals.{told};
ghost use Rattle.image.specs.Verdict.{ends_well, sizes_of};

use meaning::{Fault, Refusal};
use part::Part;

// An accepted image's number of terms, T, and of documents, N.
#[derive(Clone, Copy, Debug, PartialEq, Eq)]
pub struct Sizes {
    pub terms: usize,
    pub docs: u32,
}

// "Zero bits, at most 7, to the end of the last byte", after the last list.
fn ends_well(image: Part, stop: usize) -> bool
    requires { stop ≤ 8 * length image.bytes.now }
    ensures { result ≡ ends_well image.entry.bytes.now stop }
{
    let left = 8 * image.bytes.len() - stop;
    left <= 7 && image.field(stop, left) == 0
}

// Refusals 1, 2 and 3, then those of the terms in order, then 8: "The first fault found is the one given, and none is given otherwise."
#[tactic(auto, using(crate::specs::VerdictLaws::image_steps))]
pub fn judge(image: &[u8]) -> Result<Sizes, Refusal>
    ensures { told result ≡ sizes_of (image_of image.now) }
{
    if image.len() < 8 {
        return Err(Refusal {
            fault: Fault::ShortImage,
            place: 0,
        });
    }
    let header = layout::read_header(image);
    if header.version != 1 {
        return Err(Refusal {
            fault: Fault::Version,
            place: 0,
        });
    }
    if header.bytes != image.len() || image.len() < 8 + 8 * header.terms {
        return Err(Refusal {
            fault: Fault::Length,
            place: 0,
        });
    }
    let image = Part {
        bytes: image,
        docs: header.docs,
    };
    let stop = directory::judge_lists(image, header.terms)?;
    if !ends_well(image, stop) {
        return Err(Refusal {
            fault: Fault::BitsLeft,
            place: header.terms,
        });
    }
    Ok(Sizes {
        terms: header.terms,
        docs: header.docs as u32,
    })
}
