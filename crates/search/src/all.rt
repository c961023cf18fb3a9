// Mode 2: a document matches if every mention's list holds it. The shortest list leads, and each document that enters the table starts the
// walk anew after it.
ghost use Rattle.meaning.specs.declared.Mode.TheVariants.{All};
ghost use Rattle.search.specs.Serve.{Served, asked_of, FoundBy};

use crate::Found;
use meet::ByPostingsLeft;
use mentions::Mention;
use ranking::Table;
use visit::End;

// A query in mode 2.
pub fn all_term(
    image: &[u8],
    ms: [Mention; 16],
    q: usize,
    k: usize,
    budget: u32,
    docs: u32,
) -> Found
    requires { Served image.now ms q k docs }
    ensures { FoundBy (asked_of image.now All ms q k budget docs) result }
{
    let mut ms = mentions::order::<ByPostingsLeft>(ms, q);
    let mut table = Table::empty(k);
    let mut count = 0;
    let mut past = 1;
    let place = loop {
        let bar = table.bar();
        let visit = meet::meet(image, ms, q, past, count, bar, budget);
        count = visit.count;
        match visit.end {
            End::Finished => break docs,
            End::Stopped { past } => break past - 1,
            End::Entered {
                past: entered,
                sum,
                next,
            } => {
                table.insert(entered - 1, sum);
                ms = visit.ms;
                past = next;
            }
        }
    };
    Found {
        table,
        place,
        scored: count,
    }
}
