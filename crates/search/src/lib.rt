// One query of an accepted sheet over an accepted image: its mentions, the walk of its mode, and its stretch of the answer row.
#![tactic(auto)]

pub mod all;
pub mod any;
pub mod gather;
pub mod write;

ghost use Rattle.std.specs.Prelude.{◌≡◌, ◌+◌, ◌*◌, length};
ghost use Rattle.meaning.specs.Image.{index_of};
ghost use Rattle.meaning.specs.Answer.{answer};
ghost use Rattle.sheet.specs.Record.{question_of};
ghost use Rattle.search.specs.Posed.{Posed};

use meaning::Mode;
use ranking::Table;
use sheet::Question;

// What a query's walk has found when it ends: the table, the place, and the postings scored.
#[derive(Clone, Copy)]
pub struct Found {
    pub table: Table,
    pub place: u32,
    pub scored: u32,
}

// One query of an accepted sheet over an accepted image, into its own stretch of the answer row.
pub fn answer_query(image: &[u8], query: Question, docs: u32, out: &mut [u32])
    requires { Posed image.now query docs × (length out.old ≡ 3 + 2 * query.k) }
    ensures { out.new ≡ answer (index_of image.now) (question_of query.entry) }
{
    let q = query.terms();
    let k = query.k;
    let budget = query.budget;
    let ms = gather::gather(image, query.pairs);
    // "one of three named kinds inside the query's record", matched from a local
    let mode = query.mode;
    let found = match mode {
        Mode::Plain => any::any_term(image, ms, q, k, budget, docs, false),
        Mode::Pruned => any::any_term(image, ms, q, k, budget, docs, true),
        // one list is intersected with nothing: what mode 0 finds
        Mode::All => if q == 1 {
            any::any_term(image, ms, q, k, budget, docs, false)
        } else {
            all::all_term(image, ms, q, k, budget, docs)
        },
    };
    write::write(&found, out);
}
