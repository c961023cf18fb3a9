// A part of an image with the number of documents beside it, both as small as their fields in the header say.
ghost use Rattle.std.specs.Prelude.{◌≡◌, ◌+◌, ◌*◌, ◌/◌, ◌≤◌, ◌<◌, length};
ghost use Rattle.meaning.specs.Bits.{bits_at};
ghost use Rattle.bits.specs.Parts.{from};

// The image from some byte on, and N.
#[derive(Clone, Copy)]
pub struct Part<'a> {
    pub bytes: &'a [u8],
    pub docs: u64,
    pub ghost few: { docs < 16777216 },
    pub ghost short: { length bytes.now < 16777216 },
}

impl<'a> Part<'a> {
    // The part that is "cut from the byte that holds" bit `bit`.
    pub fn cut(self, bit: usize) -> Part<'a>
        requires { bit ≤ 8 * length self.bytes.now }
        ensures bytes { result.bytes.now ≡ from (bit / 8) self.entry.bytes.now }
        ensures docs { result.docs ≡ self.entry.docs }
    {
        Part {
            bytes: &self.bytes[bit / 8..],
            docs: self.docs,
        }
    }

    // The n bits from bit `bit` on.
    #[tactic(auto, using(bits::specs::Parts::from_field))]
    pub fn field(self, bit: usize, n: usize) -> u64
        requires { (n ≤ 57) × (bit + n ≤ 8 * length self.bytes.now) }
        ensures { result ≡ bits_at self.entry.bytes.now bit n }
    {
        bits::field(&self.bytes[bit / 8..], bit % 8, n)
    }
}
