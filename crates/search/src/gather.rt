// The mentions of a query, each at its list's first posting. "A term may be repeated; each mention counts with its own weight and its own
// postings".
ghost use Rattle.std.specs.Prelude.{◌≤◌, ◌<◌, ◌/◌, length};
ghost use Rattle.meaning.specs.Image.{Accepted, index_of};
ghost use Rattle.search.specs.Gather.{Begins, Pairs, Gathered};

use mentions::Mention;

// One mention, at its list's first posting. That the image is accepted is asked by a clause, here and where lists are opened: it is a fact about its
// bytes, of which all that the walks show speaks too.
fn mention(image: &[u8], term: u32, weight: u32) -> Mention
    requires { Accepted image.now × (term < length (index_of image.now).terms) × (0 < weight) × (weight ≤ 255) }
    ensures { Begins image.now term weight result }
{
    let opened = cursor::open_list(image, term);
    Mention {
        list: term,
        weight,
        ceiling: weight * opened.largest,
        cursor: opened.cursor,
    }
}

// The mentions of the pairs, a term and a weight each; the rest of the array holds nothing.
pub fn gather(image: &[u8], pairs: &[u32]) -> [Mention; 16]
    requires { Accepted image.now × Pairs image.now pairs.now (length pairs.now / 2) }
    ensures { Gathered image.now pairs.now (length pairs.now / 2) result }
{
    let mut ms = [Mention::default(); 16];
    for (i, pair) in pairs.chunks_exact(2).enumerate() {
        ms[i] = mention(image, pair[0], pair[1]);
    }
    ms
}
