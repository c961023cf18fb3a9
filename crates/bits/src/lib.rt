// Fields of bits, out of a part of a byte row: "Fields are bit-packed, most significant bit first .. Bit 0 is the top bit of byte 0."
// Eight bytes are taken as one number, and a field is what is left of it between two shifts.
#![tactic(auto)]

ghost use Rattle.std.specs.Prelude.{◌≡◌, ◌+◌, ◌*◌, ◌≤◌, ◌<◌, length};
ghost use Rattle.meaning.specs.Bits.{bits_at};

// Up to eight bytes as one number, the first byte highest.
#[tactic(auto, using(crate::specs::Windows::bytes_fit, crate::specs::Windows::bytes_more), unfolding(meaning::specs::Bits::bits_at))]
fn gather(part: &[u8]) -> u64
    requires { length part.now ≤ 8 }
    ensures { result ≡ bits_at part.now 0 (8 * length part.now) }
{
    let mut v: u64 = 0;
    for &byte in part {
        v = v * 256 + u64::from(byte);
    }
    v
}

// The 64 bits of the first eight bytes.
#[tactic(auto, using(crate::specs::Windows::word_whole))]
pub fn word(part: &[u8]) -> u64
    requires { 8 ≤ length part.now }
    ensures { result ≡ bits_at part.now 0 64 }
{
    gather(&part[..8])
}

// The first n bits, 1 to 64, of at least eight bytes.
#[tactic(auto, using(crate::specs::Windows::shift_first))]
pub fn first(part: &[u8], n: usize) -> u64
    requires { (0 < n) × (n ≤ 64) × (8 ≤ length part.now) }
    ensures { result ≡ bits_at part.now 0 n }
{
    word(part) >> (64 - n)
}

// The same where fewer bytes are there: zeros follow them.
#[tactic(auto, using(crate::specs::Windows::word_short))]
fn word_end(part: &[u8]) -> u64
    requires { length part.now < 8 }
    ensures { result ≡ bits_at part.now 0 64 }
{
    gather(part) << 1 << (63 - 8 * part.len())
}

fn window(part: &[u8]) -> u64
    ensures { result ≡ bits_at part.now 0 64 }
{
    if 8 <= part.len() {
        word(part)
    } else {
        word_end(part)
    }
}

// The n bits from bit `shift` of a part on.
#[tactic(auto, using(crate::specs::Windows::shifts_field))]
pub fn field(part: &[u8], shift: usize, n: usize) -> u64
    requires { (shift < 8) × (n ≤ 57) × (shift + n ≤ 8 * length part.now) }
    ensures { result ≡ bits_at part.now shift n }
{
    window(part) << shift >> 1 >> (63 - n)
}

// The n bits from bit `shift` on, of a part of at least eight bytes.
#[tactic(auto, using(crate::specs::Windows::shifts_within))]
pub fn within(part: &[u8], shift: usize, n: usize) -> u64
    requires { (0 < n) × (shift + n ≤ 64) × (8 ≤ length part.now) }
    ensures { result ≡ bits_at part.now shift n }
{
    word(part) << shift >> (64 - n)
}
