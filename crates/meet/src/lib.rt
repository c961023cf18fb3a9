// The walk of mode 2: "Mode 2 visits every matching document at cost q." The lists are intersected document at a time; the shortest leads,
// and the others are sought past whole blocks by their heads. The array goes in by value and comes back with the visit.
#![tactic(auto)]

ghost use Rattle.std.specs.Prelude.{◌≡◌};
ghost use Rattle.meaning.specs.Image.{index_of};
ghost use Rattle.visit.specs.Walk.{meant_of, run_of, Told, IfEntered};
ghost use Rattle.meet.specs.Meet.{postings_left, Meets, meet_by, Leaves};

use mentions::{Mention, OrderedBy};
use visit::{DONE, End, Visit};

// By the postings that a mention has left, the current one among them: the shortest list leads.
pub struct ByPostingsLeft;

impl OrderedBy for ByPostingsLeft {
    ghost number_of = { postings_left };

    fn number(m: &Mention) -> u64 {
        let c = m.cursor;
        if c.past == DONE {
            0
        } else {
            u64::from(c.rest) + u64::from(c.left) + 1
        }
    }
}

// From document past - 1 on, up to the first that every list holds and that enters the table, the stop, or the end.
pub fn meet(
    image: &[u8],
    mut ms: [Mention; 16],
    q: usize,
    mut past: u32,
    mut count: u32,
    bar: u32,
    budget: u32,
) -> Visit
    requires { Meets image.now ms q past count }
    ensures runs { run_of (index_of image.now).docs result ≡ meet_by image.now (meant_of image.now q ms) bar q budget past count }
    ensures told { Told result.end }
    ensures leaves { IfEntered result.end (λ past sum next. Leaves image.now (meant_of image.now q ms) q result past next) }
{
    let cost = q as u32;
    'documents: while past != DONE {
        let mut sum = 0;
        for i in 0..q {
            let mut m = ms[i];
            if m.cursor.past < past {
                m = visit::sought(image, m, past);
                ms[i] = m;
            }
            if m.cursor.past != past {
                past = m.cursor.past;
                continue 'documents;
            }
            sum += m.weight * m.cursor.impact;
        }
        if u64::from(budget) < u64::from(count) + u64::from(cost) {
            return Visit {
                ms,
                count,
                end: End::Stopped { past },
            };
        }
        count += cost;
        let next = past + 1;
        if bar < sum {
            return Visit {
                ms,
                count,
                end: End::Entered { past, sum, next },
            };
        }
        past = next;
    }
    Visit {
        ms,
        count,
        end: End::Finished,
    }
}
