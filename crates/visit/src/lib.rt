// A document is visited: where a walk ended, a mention that goes on or is sought, whether postings are taken on. The walks of all modes are made of
// these steps; what holds of each while a document is visited stands in specs. "A document is visited if a mention above rank j holds it."
#![tactic(auto)]

ghost use Rattle.std.specs.Prelude.{◌≡◌, ◌⊎◌, true, false, ◌+◌, ◌-◌, ◌≤◌, ◌<◌};
ghost use Rattle.visit.specs.Key.{key_of};
ghost use Rattle.visit.specs.Stand.{Stands, Lags, Goes};

use cursor::Cursor;
use mentions::{Mention, Tally};

// No document: it stands after every other, so that the lowest of several is found with no test for an end.
pub const DONE: u32 = 4294967295;

// How a walk under one bar ends.
#[derive(Clone, Copy, Debug, PartialEq, Eq)]
pub enum End {
    // no document is left
    Finished,
    // the stop rule stops before document past - 1
    Stopped { past: u32 },
    // document past - 1 enters with its sum, and the next document is next - 1
    Entered { past: u32, sum: u32, next: u32 },
}

// What a walk leaves: the mentions, the postings scored up to its end, and that end.
#[derive(Clone, Copy)]
pub struct Visit {
    pub ms: [Mention; 16],
    pub count: u32,
    pub end: End,
}

// What a tally keeps to where postings are taken on: a sum of at most the slack, the bar less P(j), and a count of at most the limit, the
// budget less q.
#[derive(Clone, Copy)]
pub struct Bounds {
    pub slack: u32,
    pub limit: u32,
}

// Where the postings are: the last document plus one, and the tally there.
#[derive(Clone, Copy)]
pub struct At {
    pub past: u32,
    pub tally: Tally,
}

impl At {
    // Whether postings are taken on: the one at hand is of the same document, or it is of a document that is visited after one that is dropped,
    // whose sum and count keep to the bounds.
    pub fn goes_on(self, bounds: Bounds, here: u32) -> bool
        ensures { (result ≡ true → (here ≡ self.past) ⊎ ((self.tally.sum ≤ bounds.slack) × (self.tally.count ≤ bounds.limit) × (here ≡ 4294967295 → ⊥)))
            × (result ≡ false → here ≡ self.past → ⊥) }
    {
        (self.tally.sum <= bounds.slack && self.tally.count <= bounds.limit && here != DONE)
            || here == self.past
    }

    // The tally at the next posting's document: as it is where that is the same, else with the sum of a new document.
    pub fn carried(self, here: u32) -> Tally
        ensures { (here ≡ self.past → result ≡ self.tally) × ((here ≡ self.past → ⊥) → result ≡ record { sum = 0; count = self.tally.count }) }
    {
        if here == self.past {
            self.tally
        } else {
            Tally {
                sum: 0,
                ..self.tally
            }
        }
    }
}

// A posting as one number, by which postings are ordered by document and then by mention: the document plus one, the mention's place above
// rank j, and the impact. The place is a number below 16 and no type of its own, as it is an index, made and taken out at every key.
pub fn key(c: Cursor, p: usize) -> u64
    requires { p < 16 }
    ensures { result ≡ key_of c p }
{
    u64::from(c.past) * 4096 + (p as u64) * 256 + u64::from(c.impact) % 256
}

// A mention that goes on in a block that has no other posting: it goes to the next block, or to the end of its list.
pub fn turned(image: &[u8], m: Mention) -> Mention
    requires { Stands image.now (m.cursor.past - 1) m × (m.cursor.past ≡ 4294967295 → ⊥) × (m.cursor.rest ≡ 0) }
    ensures { Goes image.now m.cursor.past m result }
{
    Mention {
        cursor: cursor::turn_block(image, m.cursor),
        ..m
    }
}

// A mention that goes on past its document.
#[tactic(auto, using(crate::specs::StandLaws::goes_taken))]
pub fn went(image: &[u8], m: Mention) -> Mention
    requires { Stands image.now (m.cursor.past - 1) m × (m.cursor.past ≡ 4294967295 → ⊥) }
    ensures { Goes image.now m.cursor.past m result }
{
    if m.cursor.rest == 0 {
        turned(image, m)
    } else {
        Mention {
            cursor: cursor::take_next(image, m.cursor),
            ..m
        }
    }
}

// A mention that was set aside, at its first posting from a document on.
pub fn sought(image: &[u8], m: Mention, past: u32) -> Mention
    requires { (0 < past) × (past ≤ 16777216) × Lags image.now (past - 1) m }
    ensures { Goes image.now (past - 1) m result }
{
    Mention {
        cursor: cursor::seek(image, m.cursor, past),
        ..m
    }
}
