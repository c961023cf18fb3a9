// The fixed fields of an image, as document 01 has them in "The image": its header, a directory entry, a block's head. Each is read as one
// number and taken apart; judging and reading back share them.
#![tactic(auto)]

ghost use Rattle.std.specs.Prelude.{◌≡◌, ◌+◌, ◌*◌, ◌/◌, ◌%◌, ◌^◌, ◌≤◌, ◌<◌, length};
ghost use Rattle.meaning.specs.Layout.{header_of, entry_at, head_at};
ghost use Rattle.layout.specs.Fields.{header_fields, entry_fields, head_fields};

// "version (4, value 1), number of terms T (12), number of documents N (24), length of the image in bytes (24)".
#[derive(Clone, Copy)]
pub struct Header {
    pub version: u64,
    pub terms: usize,
    pub docs: u64,
    pub bytes: usize,
}

// "first bit of the list (32), number of postings (24), largest impact of the list (8)".
#[derive(Clone, Copy)]
pub struct Entry {
    pub first: usize,
    pub count: usize,
    pub largest: u64,
}

// "postings less one (7 bits ..), gap width w (5 bits ..), largest impact of the block (8), document number of its last posting (24)".
#[derive(Clone, Copy)]
pub struct Head {
    pub count: usize,
    pub width: usize,
    pub largest: u64,
    pub last: u64,
}

// The n bits of a number that stand above its lowest `below`.
fn cut(x: u64, below: usize, n: usize) -> u64
    requires { (below < 64) × (n < 64) }
    ensures { result ≡ x / 2 ^ below % 2 ^ n }
{
    (x >> below) % (1 << n)
}

// The header, of an image that has one.
#[tactic(auto, using(crate::specs::FieldsLaws::header_is))]
pub fn read_header(image: &[u8]) -> Header
    requires { 8 ≤ length image.now }
    ensures { header_fields result ≡ header_of image.now }
{
    let x = bits::word(image);
    Header {
        version: cut(x, 60, 4),
        terms: cut(x, 48, 12) as usize,
        docs: cut(x, 24, 24),
        bytes: cut(x, 0, 24) as usize,
    }
}

// The directory's entry of a term.
#[tactic(auto, using(crate::specs::FieldsLaws::entry_is, bits::specs::Parts::from_bits))]
pub fn read_entry(image: &[u8], term: usize) -> Entry
    requires { 16 + 8 * term ≤ length image.now }
    ensures { entry_fields result ≡ entry_at image.now term }
{
    let at = 8 + 8 * term;
    let x = bits::word(&image[at..]);
    Entry {
        first: cut(x, 32, 32) as usize,
        count: cut(x, 8, 24) as usize,
        largest: cut(x, 0, 8),
    }
}

// The head of the block at bit `shift` of a part.
#[tactic(auto, using(crate::specs::FieldsLaws::head_is))]
pub fn read_head(part: &[u8], shift: usize) -> Head
    requires { (shift < 8) × (shift + 44 ≤ 8 * length part.now) }
    ensures { head_fields result ≡ head_at part.now shift }
{
    let x = bits::field(part, shift, 44);
    Head {
        count: cut(x, 37, 7) as usize + 1,
        width: cut(x, 32, 5) as usize,
        largest: cut(x, 24, 8),
        last: cut(x, 0, 24),
    }
}
