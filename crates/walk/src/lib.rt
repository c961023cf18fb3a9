// The walk of modes 0 and 1: document at a time over the mentions' cursors. "A document is visited if a mention above rank j holds it. All
// such postings are scored. Then, from rank j down to 1 .." The array of mentions goes in by value and comes back with the visit.
#![tactic(auto)]

ghost use Rattle.std.specs.Prelude.{◌≡◌, ◌≤◌, get_or};
ghost use Rattle.meaning.specs.Image.{index_of};
ghost use Rattle.visit.specs.Walk.{meant_of, Starts, run_of, run_by, Told, IfEntered, Leaves};

use ahead::{PART, ROOM};
use mentions::{Mention, Tally};
use sweep::{NONE, Run, Spots};
use visit::{At, Bounds, DONE, End, Visit};

// The documents from past - 1 on that a mention above rank j holds, under one bar, with `count` postings scored before them: up to the
// first that enters the table, the one before which the query stops, or the end. The stop rule is asked before anything of a document
// is scored. "All such postings are scored", and those mentions go on; then the mentions below are looked up until the sum so far plus
// P(i) is at most the bar. A dropped document's sum is at most the bar too, so that one test tells what enters. Two mentions or more above
// rank j have their keys read ahead: the array has them where what is read ahead starts, and where they are once a document enters.
// It is one long function, since the array handed to a function that stands the mentions is copied twice, and that was slower.
pub fn walk(
    image: &[u8],
    mut ms: [Mention; 16],
    pre: &[u32; 17],
    j: usize,
    q: usize,
    mut past: u32,
    mut count: u32,
    bar: u32,
    budget: u32,
    room: &mut [u64; ROOM],
) -> Visit
    requires { Starts image.now ms pre.now j q past count × (get_or pre.now j 0 ≤ bar) }
    ensures runs { run_of (index_of image.now).docs result ≡ run_by image.now (meant_of image.now q ms) bar j q budget past count }
    ensures some { Told result.end }
    ensures leaves { IfEntered result.end (λ past sum next. Leaves image.now (meant_of image.now q ms) j result past next) }
{
    let n = q - j;
    let slack = bar - pre[j];
    let mut spots = Spots::blank();
    let mut top = NONE;
    if 1 < n {
        top = spots.begin(image, ms, j, n, room);
    }
    while past != DONE {
        if u64::from(budget) < u64::from(count) + q as u64 {
            return Visit {
                ms,
                count,
                end: End::Stopped { past },
            };
        }
        let bounds = Bounds {
            slack,
            limit: budget - q as u32,
        };
        let at = At {
            past,
            tally: Tally { sum: 0, count },
        };
        let mut run = Run { top, at };
        if 1 < n {
            loop {
                run = spots.swept(room, n, run, bounds);
                let here = (run.top / 4096) as u32;
                if !run.at.goes_on(bounds, here) {
                    break;
                }
                let p = (run.top / 256 % 16) as usize;
                let tally = mentions::scored(
                    run.at.carried(here),
                    spots.weights[p],
                    (run.top % 256) as u32,
                );
                run.at = At { past: here, tally };
                let base = p * PART;
                let m = ahead::refilled(
                    image,
                    ms[j + p],
                    run.top,
                    spots.places[p] - (base + 1),
                    p,
                    base,
                    room,
                );
                ms[j + p] = m;
                spots.places[p] = base + 1;
                spots.next[p] = room[base + 1];
                run.top = spots.contest.enter(n, p, room[base]);
            }
        } else {
            let w = pair::alone(image, ms[j], bounds, at);
            ms[j] = w.mention;
            run = Run {
                top: visit::key(w.mention.cursor, 0),
                at: w.at,
            };
        }
        top = run.top;
        past = run.at.past;
        let mut t = run.at.tally;
        for i in (0..j).rev() {
            if t.sum + pre[i + 1] <= bar {
                break;
            }
            let mut found = ms[i];
            if found.cursor.past < past {
                found = visit::sought(image, found, past);
                ms[i] = found;
            }
            if found.cursor.past == past {
                t = mentions::scored(t, found.weight, found.cursor.impact);
            }
        }
        count = t.count;
        let next = (top / 4096) as u32;
        if bar < t.sum {
            if 1 < n {
                for p in 0..n {
                    let i = j + p;
                    ms[i] = ahead::stood(
                        image,
                        ms[i],
                        spots.contest.keys[p],
                        spots.places[p] - (p * PART + 1),
                    );
                }
            }
            return Visit {
                ms,
                count,
                end: End::Entered {
                    past,
                    sum: t.sum,
                    next,
                },
            };
        }
        past = next;
    }
    Visit {
        ms,
        count,
        end: End::Finished,
    }
}
