// One mention above rank j, or two: their postings in order of document, each scored, up to a document whose sum passes the bar less P(j), the stop,
// or the end. Two have the keys of their next postings in a room, read ahead. "All such postings are scored."
#![tactic(auto)]

ghost use Rattle.std.specs.Prelude.{◌≡◌, true, false, ◌<◌};
ghost use Rattle.pair.specs.Alone.{SomeAlone, EachAlone};
ghost use Rattle.pair.specs.Pair.{Passed, Back, SomePair, EachPair};

use ahead::{ROOM, Spot};
use mentions::Mention;
use visit::{At, Bounds};

// The one mention above rank j where it is left, and where the postings are.
#[derive(Clone, Copy)]
pub struct Swept {
    pub mention: Mention,
    pub at: At,
}

// Two mentions where they are left in their parts of the room, and where the postings are.
#[derive(Clone, Copy)]
pub struct Drawn {
    pub x: Spot,
    pub y: Spot,
    pub at: At,
}

// The one mention above rank j, over its documents: until a document's sum passes the bar less P(j), the stop, or the end.
pub fn alone(image: &[u8], mut m: Mention, bounds: Bounds, mut at: At) -> Swept
    requires { SomeAlone image.now m bounds.slack bounds.limit at.past at.tally }
    ensures { EachAlone image.now m bounds.slack bounds.limit at.past at.tally result.mention result.at.past result.at.tally }
{
    while at.goes_on(bounds, m.cursor.past) {
        let here = m.cursor.past;
        let tally = mentions::scored(at.carried(here), m.weight, m.cursor.impact);
        at = At { past: here, tally };
        m = visit::went(image, m);
    }
    Swept { mention: m, at }
}

// The first of two values where `go` holds, else the second.
fn pick<T: Copy>(go: bool, a: T, b: T) -> T
    ensures { (go ≡ true → result ≡ a) × (go ≡ false → result ≡ b) }
{
    if go { a } else { b }
}

// The next place where `go` holds, else the same.
fn passed(go: bool, s: Spot, room: &[u64; ROOM]) -> Spot
    requires { s.place < 1055 }
    ensures { Passed room.now go s result }
{
    let place = s.place + usize::from(go);
    Spot {
        place,
        key: pick(go, s.next, s.key),
        next: room[place],
    }
}

// The place before where `went` holds, which has this key, else the same.
fn back(went: bool, s: Spot, key: u64, room: &[u64; ROOM]) -> Spot
    requires { (0 < s.place) × (s.place < 1056) }
    ensures { Back room.now went s key result }
{
    let place = s.place - usize::from(went);
    Spot {
        place,
        key: pick(went, key, s.key),
        next: room[place],
    }
}

// Two mentions above rank j, of weights v and w, over their postings in the room: until a document's sum passes the bar less P(j), the stop, the end, or
// the last key of a part, which is left. The place after the next posting is known before it is scored, and no branch tells whose it is.
pub fn both(
    room: &[u64; ROOM],
    mut x: Spot,
    mut y: Spot,
    v: u32,
    w: u32,
    bounds: Bounds,
    mut at: At,
) -> Drawn
    requires { SomePair x y room.now v w bounds.slack bounds.limit at.past at.tally }
    ensures { EachPair x y room.now v w bounds.slack bounds.limit at.past at.tally result.x result.y result.at.past result.at.tally }
{
    let first = x.key < y.key;
    let mut top = pick(first, x.key, y.key);
    let mut key = pick(first, x.next, y.next);
    let mut weight = pick(first, v, w);
    x = passed(first, x, room);
    y = passed(!first, y, room);
    while 0 < key && at.goes_on(bounds, (top / 4096) as u32) {
        let here = (top / 4096) as u32;
        let tally = mentions::scored(at.carried(here), weight, (top % 256) as u32);
        at = At { past: here, tally };
        let go = x.key < y.key;
        top = pick(go, x.key, y.key);
        key = pick(go, x.next, y.next);
        weight = pick(go, v, w);
        x = passed(go, x, room);
        y = passed(!go, y, room);
    }
    let one = top / 256 % 2 == 0;
    Drawn {
        x: back(one, x, top, room),
        y: back(!one, y, top, room),
        at,
    }
}
