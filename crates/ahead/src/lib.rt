// The keys of a mention's next postings, read ahead into its part of a room: each posting is one number there, and reading ahead scores nothing.
// Document 01: "All such postings are scored", in the order of their documents, which these keys tell.
#![tactic(auto)]

ghost use Rattle.std.specs.Prelude.{◌≡◌, ◌+◌, ◌-◌, ◌/◌, ◌≤◌, ◌<◌, length};
ghost use Rattle.meaning.specs.Image.{index_of};
ghost use Rattle.cursor.specs.Sound.{Sound};
ghost use Rattle.visit.specs.Stand.{Stands, Goes};
ghost use Rattle.ahead.specs.Room.{Begun, Filling, Unpacked};
ghost use Rattle.ahead.specs.Side.{seated, Stood};

use cursor::Cursor;
use mentions::Mention;

// How many places a mention's part of the room has.
pub const PART: usize = 66;

// How many places the room has: a part for each of sixteen mentions.
pub const ROOM: usize = 16 * PART;

// Where a mention is in its part of the room: its key, the place after that, and the key there.
#[derive(Clone, Copy)]
pub struct Spot {
    pub place: usize,
    pub key: u64,
    pub next: u64,
}

// The keys of the postings after the cursor's own, into the places of the room up to `end`: near the image's end or anywhere.
fn unpack_near(image: &[u8], c: Cursor, p: usize, base: usize, end: usize, room: &mut [u64; ROOM])
    requires { Begun image.now c p base end room.old }
    ensures { Filling image.now c p base room.old end room.new }
{
    let mut c = c;
    for at in base + 1..end {
        c = cursor::take_next(image, c);
        room[at] = visit::key(c, p);
    }
}

// The same far from the image's end, where postings are short: two are read at once, and the key goes up by each gap. Where one is left the second
// is put in the place after the last, which the 0 takes.
fn unpack_far(image: &[u8], c: Cursor, p: usize, base: usize, end: usize, room: &mut [u64; ROOM])
    requires { Begun image.now c p base end room.old × (c.at / 8 + 272 ≤ length image.now) × (c.step ≤ 28) }
    ensures { Filling image.now c p base room.old end room.new }
{
    let step = c.step as usize;
    let both = 2 * step;
    let one = 1u64 << step;
    let mut bit = c.at as usize;
    let mut high = u64::from(c.past) * 4096 + (p as u64) * 256;
    // the pairs are counted: over the places by `step_by(2)` each turn has a second test
    for pair in 0..(end - base) / 2 {
        let at = base + 1 + 2 * pair;
        let z = cursor::bits_within(image, bit, both);
        let x = z / one;
        let y = z % one;
        high += (x / 256 + 1) * 4096;
        room[at] = high + x % 256;
        high += (y / 256 + 1) * 4096;
        room[at + 1] = high + y % 256;
        bit += both;
    }
}

// How many bytes there have to be from a posting on for the faster way: of postings longer than 28 bits more than an image has. A test of the length
// itself before that way's loop makes the loop slower.
fn reach(step: u32) -> usize
    ensures { (272 ≤ result) × (28 < step → result ≡ 4294967296) }
{
    if step <= 28 { 272 } else { 4294967296 }
}

// Up to `most` keys of a mention's postings, from its own on in its block, into the places of the room from `base` on; 0 after the last.
pub fn unpack(image: &[u8], c: Cursor, p: usize, base: usize, most: usize, room: &mut [u64; ROOM])
    requires { Sound image.now (index_of image.now).docs c × (p < 16) × (base ≤ 990) × (0 < most) × (most ≤ 64) }
    ensures { Unpacked image.now c p base room.old room.new }
{
    room[base] = visit::key(c, p);
    let rest = c.rest as usize;
    let end = base + most.min(1 + rest);
    if reach(c.step) <= image.len() - (c.at as usize) / 8 {
        unpack_far(image, c, p, base, end, room);
    } else {
        unpack_near(image, c, p, base, end, room);
    }
    room[end] = 0;
}

// A mention n postings further in its block, at the one with this key.
pub fn stood(image: &[u8], m: Mention, key: u64, n: usize) -> Mention
    requires { Stood image.now m key n }
    ensures { result ≡ seated image.now m n }
{
    if n == 0 {
        return m;
    }
    let k = n as u32;
    let c = Cursor {
        past: (key / 4096) as u32,
        impact: (key % 256) as u32,
        at: m.cursor.at + k * m.cursor.step,
        rest: m.cursor.rest - k,
        ..m.cursor
    };
    Mention { cursor: c, ..m }
}

// A mention whose part of the room is read out: it stands n postings further, at the one with this key, goes on, and the part is filled anew.
pub fn refilled(
    image: &[u8],
    m: Mention,
    key: u64,
    n: usize,
    p: usize,
    base: usize,
    room: &mut [u64; ROOM],
) -> Mention
    requires { Stood image.now m key n × (p < 16) × (base ≤ 990)
        × Stands image.now ((seated image.now m n).cursor.past - 1) (seated image.now m n)
        × ((seated image.now m n).cursor.past ≡ 4294967295 → ⊥) }
    ensures { Goes image.now (seated image.now m n).cursor.past (seated image.now m n) result
        × Unpacked image.now result.cursor p base room.old room.new }
{
    let r = visit::went(image, stood(image, m, key, n));
    unpack(image, r.cursor, p, base, 64, room);
    r
}
