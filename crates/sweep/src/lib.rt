// The postings of two mentions or more above rank j, in order of document: each mention's keys are read ahead into its part of a room, and spots tell
// how far on each is. "A document is visited if a mention above rank j holds it. All such postings are scored."
#![tactic(auto)]

ghost use Rattle.std.specs.Prelude.{ℕ, ◌≡◌, ◌+◌, ◌≤◌, ◌<◌, replicate};
ghost use Rattle.visit.specs.Stand.{SoundFrom};
ghost use Rattle.sweep.specs.Keys.{Blank};
ghost use Rattle.sweep.specs.Parts.{spot_of, Parts, SomeParts, EachParts, SomeTwo, EachTwo};

use ahead::{PART, ROOM, Spot};
use contest::Contest;
use mentions::Mention;
use visit::{At, Bounds};

// No key: it stands after every other, so that the lowest is found with no test for an end.
pub const NONE: u64 = u64::MAX;

// How many keys of a mention are read ahead at first: a document that enters the table ends the walk.
const FEW: usize = 8;

// Where up to sixteen mentions are in their parts of the room: their own keys, those after them, the places of these, and the mentions' weights.
// Tried: an array of records takes 53 instructions a turn of `many` for 50 with three or four mentions, and 62 for 61 with five to eight.
#[derive(Clone, Copy)]
pub struct Spots {
    pub contest: Contest,
    pub next: [u64; 16],
    pub places: [usize; 16],
    pub weights: [u32; 16],
}

// Where the postings are left: the lowest key, and the last document and the tally there.
#[derive(Clone, Copy)]
pub struct Run {
    pub top: u64,
    pub at: At,
}

impl Spots {
    // No mention's: no key in them.
    pub fn blank() -> Spots
        ensures contest { (n : ℕ) → n ≤ 16 → Blank n result.contest }
        ensures rows { (result.next ≡ replicate 16 0) × (result.places ≡ replicate 16 0) × (result.weights ≡ replicate 16 0) }
    {
        Spots {
            contest: Contest::filled(NONE),
            next: [0; 16],
            places: [0; 16],
            weights: [0; 16],
        }
    }

    // The n mentions above rank j, each with a few keys in its part of the room: their own keys are entered one by one. The lowest of all.
    pub fn begin(
        &mut self,
        image: &[u8],
        ms: [Mention; 16],
        j: usize,
        n: usize,
        room: &mut [u64; ROOM],
    ) -> u64
        requires { Blank n self.old.contest × (j + n ≤ 16) × SoundFrom image.now ms j n }
        ensures { Parts image.now ms ms j n self.new room.new result }
    {
        let mut top = NONE;
        for p in 0..n {
            let m = ms[j + p];
            let base = p * PART;
            ahead::unpack(image, m.cursor, p, base, FEW, room);
            self.weights[p] = m.weight;
            self.places[p] = base + 1;
            self.next[p] = room[base + 1];
            top = self.contest.enter(n, p, room[base]);
        }
        top
    }

    // Where mention p is.
    fn spot(&self, p: usize) -> Spot
        requires { p < 16 }
        ensures { result ≡ spot_of self.now p }
    {
        Spot {
            place: self.places[p],
            key: self.contest.keys[p],
            next: self.next[p],
        }
    }

    // Two mentions, as `many`.
    fn two(&mut self, room: &[u64; ROOM], run: Run, bounds: Bounds) -> Run
        requires { SomeTwo self.old room.now run.at bounds }
        ensures parts { EachTwo self.old room.now run.at bounds self.new result }
        ensures above { (self.new.contest.pairs ≡ self.old.contest.pairs) × (self.new.contest.fours ≡ self.old.contest.fours) × (self.new.contest.eights ≡ self.old.contest.eights) }
        ensures weights { self.new.weights ≡ self.old.weights }
    {
        let r = pair::both(
            room,
            self.spot(0),
            self.spot(1),
            self.weights[0],
            self.weights[1],
            bounds,
            run.at,
        );
        self.contest.keys[0] = r.x.key;
        self.contest.keys[1] = r.y.key;
        self.next[0] = r.x.next;
        self.next[1] = r.y.next;
        self.places[0] = r.x.place;
        self.places[1] = r.y.place;
        Run {
            top: r.x.key.min(r.y.key),
            at: r.at,
        }
    }

    // The postings of n mentions from the lowest key on: until a document's sum passes the bar less P(j), the stop, the end, or the last key of a
    // part, which is left.
    fn many(&mut self, room: &[u64; ROOM], n: usize, run: Run, bounds: Bounds) -> Run
        requires { SomeParts n self.old room.now run bounds }
        ensures parts { EachParts n self.old room.now run bounds self.new result }
        ensures weights { self.new.weights ≡ self.old.weights }
    {
        let mut top = run.top;
        let mut at = run.at;
        let mut p = (top / 256 % 16) as usize;
        let mut key = self.next[p];
        while 0 < key && at.goes_on(bounds, (top / 4096) as u32) {
            let here = (top / 4096) as u32;
            let tally = mentions::scored(at.carried(here), self.weights[p], (top % 256) as u32);
            at = At { past: here, tally };
            let place = self.places[p] + 1;
            self.places[p] = place;
            self.next[p] = room[place];
            top = self.contest.enter(n, p, key);
            p = (top / 256 % 16) as usize;
            key = self.next[p];
        }
        Run { top, at }
    }

    // The same of n mentions, two or more.
    pub fn swept(&mut self, room: &[u64; ROOM], n: usize, run: Run, bounds: Bounds) -> Run
        requires { SomeParts n self.old room.now run bounds }
        ensures parts { EachParts n self.old room.now run bounds self.new result }
        ensures weights { self.new.weights ≡ self.old.weights }
    {
        if n == 2 {
            return self.two(room, run, bounds);
        }
        self.many(room, n, run, bounds)
    }
}
