// Buffers that calls are lent: what they hold before a call, and the hash that shows them after it.
ghost use Rattle.std.specs.Prelude.{◌≡◌, ◌+◌, ◌*◌, length};

use std::fmt;

// The most bytes of a file or a buffer.
pub const HELD: usize = 65536;

// The most floats of a buffer.
pub const HELD_FLOATS: usize = 8192;

// Where the 64-bit FNV-1a hash starts, and its prime, which is 2^40 + 435.
const FNV_START: u64 = 14695981039346656037;

const FNV_PRIME: u64 = 1099511628211;

// The bits that stand for every NaN.
const NAN_BITS: u64 = 0x7ff8000000000000;

// The hash after more bytes.
fn hashed(hash: u64, bytes: &[u8]) -> u64 {
    bytes.iter().fold(hash, |hash, byte| {
        (hash ^ u64::from(*byte)).wrapping_mul(FNV_PRIME)
    })
}

pub fn hash_of(bytes: &[u8]) -> u64 {
    hashed(FNV_START, bytes)
}

// The hash of the bits of floats, of each the lowest byte first.
pub fn hash_of_floats(numbers: &[f64]) -> u64 {
    numbers.iter().fold(FNV_START, |hash, number| {
        hashed(hash, &bits_of(*number).to_le_bytes())
    })
}

// The bits of a float; of a NaN the one pattern.
pub fn bits_of(x: f64) -> u64 {
    if x.is_nan() { NAN_BITS } else { x.to_bits() }
}

// Fills a buffer with the bytes that follow from a seed.
pub fn pseudo_random(out: &mut [u8], seed: u64) {
    let mut at = seed;
    for byte in out.iter_mut() {
        at = (at % 2147483648 * 1103515245 + 12345) % 2147483648;
        *byte = (at / 65536 % 256) as u8;
    }
}

// A filler: a value again and again, so many bytes wide, and one byte of it spoilt.
#[derive(Clone, Copy)]
pub struct Filler {
    pub value: u32,
    pub width: u32,
    pub length: u32,
    pub spoilt: u32,
}

impl Filler {
    // Fills a buffer. A value wider than 4 bytes ends in its last one again and again.
    pub fn fill(&self, out: &mut [u8])
        ensures { length out.new ≡ length out.old }
    {
        let bytes = self.value.to_le_bytes();
        let width = (self.width as usize).max(1);
        for (i, byte) in out.iter_mut().enumerate() {
            *byte = bytes[(i % width).min(3)];
        }
        if let Some(byte) = out.get_mut(self.spoilt as usize) {
            *byte = 255 - *byte;
        }
    }
}

impl fmt::Display for Filler {
    fn fmt<W: fmt::Write>(&self, f: &mut fmt::Formatter<W>) -> fmt::Result {
        write!(
            f,
            "{} {} {} {}",
            self.value, self.width, self.length, self.spoilt
        )
    }
}

// A number by its low and its high half, as a call or a change gives one.
pub fn from_halves(low: u32, high: u32) -> u64
    ensures { result ≡ low + high * 4294967296 }
{
    u64::from(low) + u64::from(high) * 4294967296
}

// Puts 8 bytes, given as the low and the high half of a number, where there is room for them. The place is one that a call names, and none that
// goes on.
pub fn put(out: &mut [u8], at: usize, low: u32, high: u32)
    ensures { length out.new ≡ length out.old }
{
    let Some(tail) = out.get_mut(at..) else {
        return;
    };
    if let Some(place) = tail.first_chunk_mut::<8>() {
        *place = from_halves(low, high).to_le_bytes();
    }
}
