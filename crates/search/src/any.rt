// Modes 0 and 1: a document matches if some list holds it. The walk hands the mentions back at each document that enters the table.
ghost use Rattle.search.specs.Serve.{Served, asked_of, FoundBy, mode_for};

use crate::Found;
use ahead::ROOM;
use mentions::{ByCeiling, Mention};
use ranking::Table;
use visit::End;

// A query in mode 1 where it is pruned, or in mode 0, in which no mention is ever set aside. A bool tells which, since a query in mode 2 has no such walk.
pub fn any_term(
    image: &[u8],
    ms: [Mention; 16],
    q: usize,
    k: usize,
    budget: u32,
    docs: u32,
    pruned: bool,
) -> Found
    requires { Served image.now ms q k docs }
    ensures { FoundBy (asked_of image.now (mode_for pruned) ms q k budget docs) result }
{
    let mut ms = mentions::order::<ByCeiling>(ms, q);
    let pre = mentions::prefix(ms, q);
    // a number is chosen here, and no step: both modes go by the same walk
    let limit = if pruned { q } else { 0 };
    let mut table = Table::empty(k);
    let mut count = 0;
    let mut j = mentions::aside(&pre, 0, limit, 0);
    let mut past = mentions::least(ms, j, q);
    let mut room = [0; ROOM];
    let place = loop {
        let bar = table.bar();
        let visit = walk::walk(image, ms, &pre, j, q, past, count, bar, budget, &mut room);
        count = visit.count;
        match visit.end {
            End::Finished => break docs,
            End::Stopped { past } => break past - 1,
            End::Entered {
                past: entered,
                sum,
                next,
            } => {
                table.insert(entered - 1, sum);
                ms = visit.ms;
                past = next;
                let rank = mentions::aside(&pre, j, limit, table.bar());
                if rank != j {
                    j = rank;
                    past = mentions::least(ms, j, q);
                }
            }
        }
    };
    Found {
        table,
        place,
        scored: count,
    }
}
