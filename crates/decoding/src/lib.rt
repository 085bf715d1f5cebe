// Samples as 64-bit floats: a part of the file decoded item by item, and one value again and again.
#![tactic(auto)]

ghost use Rattle.std.specs.Prelude.{◌≡◌, false, ◌∷◌, [], ◌+◌, ◌*◌, ◌^◌, ◌<◌, ◌≤◌, length};
ghost use Rattle.endian.specs.Loops.{cat};
ghost use Rattle.endian.specs.Bytes.{le};
ghost use Rattle.floats.specs.Rules.{scaled_of, widened_of};
ghost use Rattle.record.specs.Types.{coding_of, no_type, width_of, decode_of};
ghost use Rattle.table.specs.Entries.{Width};
ghost use Rattle.decoding.specs.Items.{Integers};

use endian::{u8_at, u16_at, u32_at};
use floats::{Item, widen_bits};
use record::{Coding, coding_of};

// The unsigned number of an item of 1, 2 or 4 bytes. Called with a literal width, it is one load. Each width has its own type to read by.
fn item(bytes: &[u8], at: usize, width: usize) -> u32
    requires { Width width × (at + width ≤ length bytes.now) }
    ensures { (result ≡ le width bytes.now at) × (result < 256 ^ width) }
{
    match width {
        1 => u32::from(u8_at(bytes, at)),
        2 => u32::from(u16_at(bytes, at)),
        _ => u32_at(bytes, at),
    }
}

// Items of an integer type, scaled to the coding range: HALF is 128 for int8 and 32768 for int16. That there are as many bytes as items stands at
// each function here: they are two slices of the caller's.
fn decode_scaled<const WIDTH: usize, const HALF: u32>(
    out: &mut [f64],
    bytes: &[u8],
    min: f64,
    max: f64,
)
    requires { Integers WIDTH HALF × (length bytes.now ≡ length out.old * WIDTH) }
    ensures { out.new ≡ cat (length out.old) (λ n. scaled_of HALF min max (le WIDTH bytes.now (n * WIDTH)) ∷ []) }
{
    for (n, to) in out.iter_mut().enumerate() {
        let raw = item(bytes, n * WIDTH, WIDTH);
        *to = Item { raw, half: HALF }.scaled(min, max);
    }
}

// Items of the float type, widened. A loop of its own: one over a closure for the item would promise only what the closure's contract says of each float,
// and a trait with the float as a ghost member, for two impls of one line, would be longer than both. It is called with 4 alone: its width is a parameter,
// as above, since the edit `width-of-int16` passes another.
fn decode_widened<const WIDTH: usize>(out: &mut [f64], bytes: &[u8])
    requires { Width WIDTH × (length bytes.now ≡ length out.old * WIDTH) }
    ensures { out.new ≡ cat (length out.old) (λ n. widened_of (le WIDTH bytes.now (n * WIDTH)) ∷ []) }
{
    for (n, to) in out.iter_mut().enumerate() {
        *to = widen_bits(item(bytes, n * WIDTH, WIDTH));
    }
}

// As many items as out has room for, from bytes of exactly that length. Each loop is called with literal widths, so that
// it is compiled for that width.
pub fn decode(out: &mut [f64], bytes: &[u8], datatype: u8, min: f64, max: f64)
    requires { (no_type (coding_of datatype) ≡ false) × (length bytes.now ≡ length out.old * width_of datatype) }
    ensures { out.new ≡ cat (length out.old) (λ n. decode_of datatype min max (le (width_of datatype) bytes.now (n * width_of datatype)) ∷ []) }
{
    match coding_of(datatype) {
        Ok(Coding::Scaled { width, .. }) => {
            if width == 1 {
                decode_scaled::<1, 128>(out, bytes, min, max);
            } else {
                decode_scaled::<2, 32768>(out, bytes, min, max);
            }
        }
        Ok(Coding::Float32 { .. }) => decode_widened::<4>(out, bytes),
        Err(_) => {}
    }
}

// One sample, from the unsigned number of its bytes. The ends of the coding range are two arguments here and above, as the definitions have them: a struct
// of both would be taken apart by each clause. `sampling`, which holds them as one, takes them apart at each call.
// That the number is one of so many bytes stays a clause, here and wherever one is asked for: number and width meet only in a call, the number from
// the table's word and the width from the record, and `Item`, the type of such a pair, is of integer types only.
// bricks' `constant_value` has this match with `.value()` in its first arm. One function for both would be public in `record`, below both crates, and
// take the arm as a closure, whose contract would be asked for at each call: longer than two arms.
pub fn decode_one(datatype: u8, raw: u32, min: f64, max: f64) -> f64
    requires { raw < 256 ^ width_of datatype }
    ensures { result ≡ decode_of datatype min max raw }
{
    match coding_of(datatype) {
        Ok(Coding::Scaled { half, .. }) => Item { raw, half }.scaled(min, max),
        Ok(Coding::Float32 { .. }) | Err(_) => widen_bits(raw),
    }
}

// The same value throughout. The library's `fill` stores the last element by itself, so that in a row of 8 the three before it are stored one by one
// too, and short rows of constant bricks took half as many instructions again.
pub fn fill_floats(out: &mut [f64], value: f64)
    ensures { out.new ≡ cat (length out.old) (λ n. value ∷ []) }
{
    for to in out.iter_mut() {
        *to = value;
    }
}
