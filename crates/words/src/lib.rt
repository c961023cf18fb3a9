// A block's postings, several to a word: "per posting a gap of w bits and an impact of 8 bits". Words are read two at a time, and weighed side by side:
// what all gaps come to, whether each impact is 1 to the block's largest, and whether one is the largest.
#![tactic(auto)]

ghost use Rattle.std.specs.Prelude.{◌≡◌, ℕ, ◌+◌, ◌-◌, ◌*◌, ◌/◌, ◌%◌, ◌^◌, ◌≤◌, ◌<◌, length};
ghost use Rattle.meaning.specs.Bits.{bits_at};
ghost use Rattle.words.specs.Lanes.{Packs, Packed, Word, Bytewise, sum_lanes, sum_at, sum_words, ones_of};
ghost use Rattle.words.specs.Gathering.{Halves, Added, Filled, Weighs};

// How a block's postings of `stride` bits are read, `count` to a word; `ones` has a 1 in the lowest bit of each.
#[derive(Clone, Copy)]
pub struct Lanes {
    pub stride: usize,
    pub count: usize,
    pub ones: u64,
    pub ghost marks: { ones ≡ ones_of stride count },
}

// What weighing words says: the sum of the gaps; `fair` only where each impact is 1 to the largest, and `hit` only where one is the largest.
#[derive(Clone, Copy)]
pub struct Weight {
    pub gaps: u64,
    pub fair: bool,
    pub hit: bool,
}

// So many postings with gaps of w bits are read as one word.
fn per_word(w: usize) -> usize
    requires { w ≤ 24 }
    ensures { Packs w result }
{
    match w {
        0 => 6,
        1..=3 => 5,
        4..=6 => 4,
        7..=11 => 3,
        12..=20 => 2,
        _ => 1,
    }
}

// The 57 bits from bit `shift` of byte `byte` on, below what stands before them in their byte.
#[tactic(auto, using(crate::specs::Lanes::word_low))]
fn word_at(part: &[u8], byte: usize, shift: usize) -> u64
    requires { (shift < 8) × (length part.now < 16777216) × (8 * byte + shift + 57 ≤ 8 * length part.now) }
    ensures { result % 2 ^ 57 ≡ bits_at part.now (8 * byte + shift) 57 }
{
    bits::first(&part[byte..], 57 + shift)
}

// Each of the first `words` words once more after them, without its lowest byte.
#[tactic(auto, using(crate::specs::Gathering::lowered_none, crate::specs::Gathering::lowered_more, crate::specs::Gathering::lowered_all))]
fn lower(room: &mut [u64; 128], words: usize)
    requires { words ≤ 64 }
    ensures { (f : ℕ → ℕ) → Bytewise f → sum_words f 16 3 room.new (2 * words) ≡ sum_words f 8 6 room.old words }
{
    for i in 0..words {
        room[words + i] = room[i] / 256;
    }
}

impl Lanes {
    // The lanes of postings with gaps of `width` bits, as many as go into a word.
    pub fn new(width: usize) -> Lanes
        requires { width ≤ 24 }
        ensures { (result.stride ≡ width + 8) × Packs width result.count }
    {
        Lanes::of(width + 8, per_word(width))
    }

    // `count` lanes of `stride` bits.
    #[tactic(auto, using(crate::specs::Lanes::ones_none))]
    pub fn of(stride: usize, count: usize) -> Lanes
        requires { (0 < stride) × (stride ≤ 32) × (count * stride ≤ 57) }
        ensures { (result.stride ≡ stride) × (result.count ≡ count) }
    {
        let mut ones: u64 = 0;
        for _ in 0..count {
            ones = (ones << stride) + 1;
        }
        Lanes {
            stride,
            count,
            ones,
        }
    }

    // Words two at a time: those from bit `start` on, and those `far` bytes later. Both begin at the same bit of a byte.
    #[tactic(auto, using(crate::specs::Gathering::halves_none, crate::specs::Gathering::halves_more))]
    fn fill(self, part: &[u8], start: usize, far: usize, pairs: usize, room: &mut [u64; 128])
        requires { (Packed part.now self.stride self.count (start + 8 * far) (pairs * self.count)) × (57 ≤ start + self.count * self.stride) × (2 * pairs ≤ 128) }
        ensures { Halves part.now self.stride self.count start (start + 8 * far) pairs room.new }
    {
        let step = self.count * self.stride;
        let mut at = start + step - 57;
        for i in 0..pairs {
            let byte = at / 8;
            let a = word_at(part, byte, at % 8);
            let b = word_at(part, byte + far, at % 8);
            room[2 * i] = a;
            room[2 * i + 1] = b;
            at += step;
        }
    }

    // The word of the r postings from bit `at` on, with an impact of 1 and no gap for each of the `count` that is not there.
    fn rest_word(self, part: &[u8], at: usize, r: usize) -> u64
        requires { (Packed part.now self.stride self.count at r) × (r ≤ self.count) }
        ensures { Word part.now self.stride self.count at r result }
    {
        let cut = r * self.stride;
        let byte = at / 8;
        bits::field(&part[byte..], at % 8, cut) + (self.ones >> cut << cut)
    }

    // The r postings from bit `at` on, if any, as one word after the first `done`; what is given is the number of words then.
    #[tactic(auto, using(crate::specs::Gathering::added_none, crate::specs::Gathering::added_one))]
    fn fill_end(self, part: &[u8], at: usize, r: usize, done: usize, room: &mut [u64; 128]) -> usize
        requires { (Packed part.now self.stride self.count at r) × (r ≤ self.count) × (done + r ≤ 128) }
        ensures { Added part.now self.stride self.count at r room.old done room.new result }
    {
        if r == 0 {
            return done;
        }
        room[done] = self.rest_word(part, at, r);
        done + 1
    }

    // The n postings from bit `start` on, the last word of fewer, after the first `done` words; what is given is the number of words then.
    #[tactic(auto, using(crate::specs::Gathering::coming_none))]
    fn fill_rest(
        self,
        part: &[u8],
        start: usize,
        n: usize,
        done: usize,
        room: &mut [u64; 128],
    ) -> usize
        requires { (Packed part.now self.stride self.count start n) × (done + n ≤ 128) }
        ensures { Added part.now self.stride self.count start n room.old done room.new result }
    {
        let step = self.count * self.stride;
        let words = n.div_ceil(self.count);
        for i in 0..words {
            let r = self.count.min(n - i * self.count);
            room[done + i] = self.rest_word(part, start + i * step, r);
        }
        done + words
    }

    // The n postings from bit `start` on; what is given is the number of words. Eight postings take whole bytes, so that two halves of 8m postings
    // are read side by side; then what is left of both, and what comes after them.
    pub fn read(self, part: &[u8], start: usize, n: usize, room: &mut [u64; 128]) -> usize
        requires { (Packed part.now self.stride self.count start n) × (57 ≤ start + self.count * self.stride) × (n ≤ 128) }
        ensures { Filled part.now self.stride self.count start n room.new result }
    {
        let m = n / 16;
        let half = 8 * m;
        let far = m * self.stride;
        let pairs = half / self.count;
        self.fill(part, start, far, pairs, room);
        let whole = pairs * self.count;
        let at = start + whole * self.stride;
        let near = self.fill_end(part, at, half - whole, 2 * pairs, room);
        let both = self.fill_end(part, at + 8 * far, half - whole, near, room);
        self.fill_rest(part, start + 16 * far, n - 2 * half, both, room)
    }

    // What the lanes of a word come to, where 8 bits stand below each.
    #[tactic(auto, using(crate::specs::Lanes::lane_low, crate::specs::Lanes::lanes_none, crate::specs::Lanes::lanes_turn))]
    fn total(self, gaps: u64) -> u64
        requires { (self.stride ≤ 32) × (self.count ≤ 6) }
        ensures { (result ≡ sum_lanes (λ y. y) self.stride (gaps / 256) self.count) × (result ≤ 25769803776) }
    {
        let lane: u64 = 1 << self.stride;
        let mut sum: u64 = 0;
        let mut rest = gaps / 256;
        for _ in 0..self.count {
            sum += rest % lane;
            rest >>= self.stride;
        }
        sum
    }

    // A number in each lane.
    #[tactic(auto, using(crate::specs::Lanes::lane_fits))]
    fn each(self, x: u64) -> u64
        requires { (x < 2 ^ self.stride) × (self.count * self.stride ≤ 57) }
        ensures { (result ≡ x * ones_of self.stride self.count) × (result < 2 ^ 57) }
    {
        x * self.ones
    }

    // The words of a row; `largest` is the block's as its head has it. A gap's lowest bit is left to tell of the impact below.
    #[tactic(auto, using(crate::specs::Lanes::lane_wide, crate::specs::Gathering::weighing_none))]
    fn weigh_lanes(self, row: &[u64], largest: u64) -> Weight
        requires { (8 < self.stride) × (Packs (self.stride - 8) self.count) × (largest ≤ 255) × (length row.now ≤ 128) }
        ensures { Weighs (self.stride - 8) self.count largest row.now (length row.now) result.gaps result.fair result.hit }
    {
        let width = self.stride - 8;
        let gap = self.each(((1 << width) - 1) * 256);
        let impact = self.each(255);
        let guard = self.each(256);
        let above = self.each(255 - largest);
        let equal = self.each(256 - largest);
        let mut gaps: u64 = 0;
        let mut bad: u64 = 0;
        let mut hit: u64 = 0;
        for &v in row {
            let m = v & impact;
            gaps += v & gap;
            bad |= (m + above) | (guard - m);
            hit |= m + equal;
        }
        Weight {
            gaps: self.total(gaps),
            fair: bad & guard == 0,
            hit: hit & guard != 0,
        }
    }

    // The first `words` words. Impacts with no gaps between them are taken two to a lane, and all words twice.
    pub fn weigh(self, room: &mut [u64; 128], words: usize, largest: u64) -> Weight
        requires { (8 ≤ self.stride) × (Packs (self.stride - 8) self.count) × (largest ≤ 255) × (words ≤ 128) × (words * self.count ≤ 128 + 3 * self.count) }
        ensures { Weighs (self.stride - 8) self.count largest room.old words result.gaps result.fair result.hit }
    {
        if self.stride == 8 {
            lower(room, words);
            let both = Lanes::of(16, 3).weigh_lanes(&room[..2 * words], largest);
            return Weight { gaps: 0, ..both };
        }
        self.weigh_lanes(&room[..words], largest)
    }
}
