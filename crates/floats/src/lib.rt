// The float rules: fields and samples from their bits, the coding range, position, and the survey size.
#![tactic(auto)]

ghost use Rattle.std.specs.Prelude.{◌≡◌, ◌-◌, ◌*◌, ◌%◌, ◌<◌, ◌≤◌, T, pos, neg_ℤ, from_bits};
ghost use Rattle.std.specs.Float.{binary32};
ghost use Rattle.geometry.specs.Limits.{size_limit};
ghost use Rattle.floats.specs.Rules.{finite, finite_bits, same_bits, range_ok, convert, signed_of, integer_of, scaled_of, widened_of, survey_size};
ghost use Rattle.floats.specs.Widening.{WideningRule};
ghost use Rattle.floats.specs.Position.{position_of, Near};

// The bits of infinity. Without its sign a finite float's bits are below them, and a NaN's above.
const INFINITY: u32 = 0x7f80_0000;

// A float's bits without its sign.
fn unsigned(bits: u32) -> u32
    ensures { result ≡ bits % 2147483648 }
{
    bits % (1 << 31)
}

// A 32-bit field of a header as a float. A NaN's bits give the one NaN, the library's constant, so that its sign is settled.
pub fn float_of(bits: u32) -> f32
    ensures { result ≡ from_bits binary32 bits }
{
    if unsigned(bits) > INFINITY {
        return f32::NAN;
    }
    f32::from_bits(bits)
}

// A sample of the float type, widened. The branch stands here again, and not `float_of`, since the NaN of 64 bits has to be a constant too: its bits
// are those that hosts are promised, which the differential tests compare.
pub fn widen_bits(bits: u32) -> f64
    ensures { result ≡ widened_of bits }
{
    if unsigned(bits) > INFINITY {
        return f64::NAN;
    }
    // A cast: `f64::from` settles a NaN a second time, and samples of the float type took twice as long to read by it.
    f32::from_bits(bits) as f64
}

pub fn finite_bits(bits: u32) -> bool
    ensures { result ≡ finite_bits bits }
{
    unsigned(bits) < INFINITY
}

pub fn range_ok(min: u32, max: u32) -> bool
    ensures { result ≡ range_ok min max }
{
    finite_bits(min) & finite_bits(max) & (float_of(min) < float_of(max))
}

// A NaN has no bits of its own.
pub fn same_bits(x: f32, bits: u32) -> bool
    ensures { result ≡ same_bits x bits }
{
    !x.is_nan() && x.to_bits() == bits
}

// `f64::from` by the rules' name, under which it is promised.
pub fn widened(x: f32) -> f64
    ensures { result ≡ x }
{
    f64::from(x)
}

// The conversion in the order of FORMAT 11.3; a reciprocal would give other bits.
fn converted(s: i32, lo: i32, hi: i32, min: f64, max: f64) -> f64
    ensures { result ≡ convert lo hi min max s }
{
    (max - min) * (f64::from(s) - f64::from(lo)) / (f64::from(hi) - f64::from(lo)) + min
}

// An item of an integer type: the unsigned number of its bytes, and half of the type's numbers. They go from -half to half - 1: half is 128
// for int8 and 32768 for int16. It is a number and no type of its own, since the float rules are stated by it.
#[derive(Clone, Copy)]
pub struct Item {
    pub raw: u32,
    pub half: u32,
    pub ghost in_range: { (half ≤ 32768) × (0 < half) × (raw < 2 * half) },
}

impl Item {
    // The lowest number of its type. `i32` has no From of 32 bits without a sign, so these are casts.
    fn lowest(self) -> i32
        ensures { result ≡ neg_ℤ (pos self.half) }
    {
        -(self.half as i32)
    }

    // The highest number of its type.
    fn highest(self) -> i32
        ensures { result ≡ pos (self.half - 1) }
    {
        (self.half - 1) as i32
    }

    // Its signed number, without a branch. raw + half has the same remainder, but is below twice the divisor: a compiler that knows it
    // makes a test and a difference of the remainder, where raw + 3 * half leaves it the mask.
    pub fn signed(self) -> i32
        ensures { result ≡ signed_of self.half self.raw }
    {
        ((self.raw + 3 * self.half) % (2 * self.half)) as i32 - self.half as i32
    }

    // Its signed number as a float.
    pub fn value(self) -> f64
        ensures { result ≡ integer_of self.half self.raw }
    {
        f64::from(self.signed())
    }

    // Its signed number, scaled to the coding range. The ends are two arguments, as the float rules' definitions have them; `sampling` holds them together
    // because its reads hand them on.
    pub fn scaled(self, min: f64, max: f64) -> f64
        ensures { result ≡ scaled_of self.half min max self.raw }
    {
        converted(self.signed(), self.lowest(), self.highest(), min, max)
    }
}

pub fn position(orig: f32, inc: f32, i: u32) -> f64
    requires { T (finite orig) × T (finite inc) × (i < size_limit) }
    ensures value { result ≡ position_of orig inc i }
    ensures error { Near orig inc i result }
{
    f64::from(orig) + f64::from(i) * f64::from(inc)
}

// The bits of inc x size; a product past the largest float is infinite, and is written so.
pub fn survey_size(inc: f32, size: u32) -> u32
    requires { T (finite inc) × (size ≤ size_limit) }
    ensures { result ≡ survey_size inc size }
{
    (inc * (size as f32)).to_bits()
}

// What widening gives in bits: the one pattern for every NaN, and the exact value of all else. The function does nothing; its contract
// is the theorem. It speaks of the logic's floats: the bits that compiled code stores for a NaN, the host's tests compare.
pub fn widening_rule()
    ensures { WideningRule }
{}
