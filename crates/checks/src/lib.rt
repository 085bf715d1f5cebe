// Checks 2 to 9, 11 and 14 of FORMAT 9.2. A test joins its parts by `|` and `&`, plain operations on bools, so
// that it is its definition as it stands. A check answers a bool and no Result, also where it is public: it is a question that its definition answers by a
// Bool, and what could not fail still can't. Each caller names the refusal, so that the order of its checks reads as the paper's; a Result beside the
// bools would take two lines from each of a few calls, and be two more functions to know.
#![tactic(auto)]

ghost use Rattle.std.specs.Prelude.{◌≡◌, not, ◌&&◌, ◌≤◌, ◌<◌, length};
ghost use Rattle.geometry.specs.Limits.{longest_text};
ghost use Rattle.floats.specs.Rules.{finite_bits};
ghost use Rattle.record.specs.Record.{Sized};
ghost use Rattle.checks.specs.Checks.{all3, side_ok, size_ok, breaks2, breaks3, breaks4, breaks6, breaks7, breaks8, breaks9, breaks11, zeros, fields_fit, described};
ghost use Rattle.checks.specs.Fits.{same3, grid_fits, numbers_fit, record_fits, breaks14, breaks14_with};

use floats::{finite_bits, range_ok, same_bits};
use geometry::{
    BRICK_LIMIT, LEAST_EXPONENT, LONGEST_TEXT, SHORTEST_TEXT, SIZE_LIMIT, header_end, power_in,
};
use record::{Coding, Description, Grid, Record, Refusal, bound_of, coding_of, shape_in};

#[tactic(auto, unfolding(crate::specs::Checks::breaks2))]
pub fn check2(file: &[u8]) -> bool
    requires { 4 ≤ length file.now }
    ensures { result ≡ breaks2 file.now }
{
    !file.starts_with(b"VBS\0")
}

#[tactic(auto, unfolding(crate::specs::Checks::breaks3))]
pub fn check3(version: u32) -> bool
    ensures { result ≡ breaks3 version }
{
    !((version == 2) | (version == 3))
}

#[tactic(auto, unfolding(crate::specs::Checks::side_ok))]
fn side_ok(n: u32) -> bool
    ensures { result ≡ side_ok n }
{
    power_in(LEAST_EXPONENT, n)
}

#[tactic(auto, unfolding(crate::specs::Checks::breaks4))]
fn check4(d: Description) -> bool
    ensures { result ≡ breaks4 d }
{
    !(side_ok(d.side[0]) & side_ok(d.side[1]) & side_ok(d.side[2]))
}

#[tactic(auto, unfolding(crate::specs::Checks::size_ok))]
fn size_ok(n: u32) -> bool
    ensures { result ≡ size_ok n }
{
    (1..=SIZE_LIMIT).contains(&n)
}

#[tactic(auto, unfolding(crate::specs::Checks::breaks6))]
fn check6(d: Description) -> bool
    ensures { result ≡ breaks6 d }
{
    !(size_ok(d.size[0]) & size_ok(d.size[1]) & size_ok(d.size[2]))
}

fn finite3(bits: [u32; 3]) -> bool
    ensures { result ≡ all3 finite_bits bits }
{
    finite_bits(bits[0]) & finite_bits(bits[1]) & finite_bits(bits[2])
}

#[tactic(auto, unfolding(crate::specs::Checks::breaks7, record::specs::Types::coding_of))]
fn check7(d: Description) -> bool
    ensures { result ≡ breaks7 d }
{
    let no_range = matches!(coding_of(d.datatype), Ok(Coding::Float32 { .. }));
    !(finite3(d.orig) & finite3(d.inc) & (no_range | range_ok(d.range[0], d.range[1])))
}

fn check8(d: Description) -> bool
    requires { Sized d }
    ensures { result ≡ breaks8 d }
{
    let shape = shape_in(d);
    BRICK_LIMIT < shape.bricks
}

#[tactic(auto, unfolding(crate::specs::Checks::breaks9))]
fn check9(text: u32) -> bool
    ensures { result ≡ breaks9 text }
{
    !(SHORTEST_TEXT..=LONGEST_TEXT).contains(&text)
}

// Checks 4 to 9 of a description and the length of a text.
#[tactic(auto, unfolding(crate::specs::Checks::described))]
pub fn check_description(d: Description, text: u32) -> Result<(), Refusal>
    ensures { result ≡ described d text }
{
    if check4(d) {
        return Err(Refusal::Side);
    }
    coding_of(d.datatype)?;
    if check6(d) {
        return Err(Refusal::Size);
    }
    if check7(d) {
        return Err(Refusal::Floats);
    }
    if check8(d) {
        return Err(Refusal::Bricks);
    }
    if check9(text) {
        return Err(Refusal::TextLength);
    }
    Ok(())
}

// The zero bytes of a text. Over this loop the compiler adds up several bytes a turn, without a branch; by `filter` and `count` each byte is a branch, and
// a long text with zeros all over took nine times as long.
fn zeros_in(text: &[u8]) -> usize
    ensures { result ≡ zeros text.now }
{
    let mut n = 0;
    for byte in text {
        if *byte == 0 {
            n += 1;
        }
    }
    n
}

// Check 11 of a text section: exactly five strings, each with its zero, and nothing after them.
#[tactic(auto, unfolding(crate::specs::Checks::breaks11))]
pub fn check11(text: &[u8]) -> bool
    requires { 0 < length text.now }
    ensures { result ≡ breaks11 text.now }
{
    let last = text.len() - 1;
    !((zeros_in(text) == 5) & (text[last] == 0))
}

fn three_fit(xs: [f32; 3], bits: [u32; 3]) -> bool
    ensures { result ≡ same3 xs bits }
{
    same_bits(xs[0], bits[0]) & same_bits(xs[1], bits[1]) & same_bits(xs[2], bits[2])
}

#[tactic(auto, unfolding(crate::specs::Fits::grid_fits))]
fn grid_fits(d: Description, g: Grid) -> bool
    ensures { result ≡ grid_fits d g }
{
    three_fit(g.orig, d.orig)
        & three_fit(g.inc, d.inc)
        & same_bits(g.min, bound_of(d.datatype, d.range[0]))
        & same_bits(g.max, bound_of(d.datatype, d.range[1]))
}

// Checks 4 to 7, where their order does not matter.
#[tactic(auto, unfolding(crate::specs::Checks::fields_fit))]
fn fields_fit(d: Description) -> bool
    ensures { result ≡ fields_fit d }
{
    coding_of(d.datatype).is_ok() && !(check4(d) | check6(d) | check7(d))
}

// Check 8, and the numbers that follow from the description. The levels are counted once for both.
fn numbers_fit(r: Record) -> bool
    requires { Sized r.description × (r.text ≤ longest_text) }
    ensures { result ≡ not (breaks8 r.description) && numbers_fit r }
{
    let shape = shape_in(r.description);
    if BRICK_LIMIT < shape.bricks {
        return false;
    }
    (r.header == header_end(u64::from(r.text), shape.alphas, shape.bricks))
        & (u64::from(r.levels) == shape.levels)
        & (u64::from(r.bricks) == shape.bricks)
        & (u64::from(r.alphas) == shape.alphas)
        & (r.header <= r.length)
}

// Whether a record is one that opening could have given: true of every record that passes check 14.
pub fn record_fits(r: Record) -> bool
    ensures { result ≡ record_fits r }
{
    let d = r.description;
    if check3(r.version) | check9(r.text) {
        return false;
    }
    fields_fit(d) && grid_fits(d, r.grid) & numbers_fit(r)
}

// Check 14 where no file is lent.
#[tactic(auto, unfolding(crate::specs::Fits::breaks14))]
pub fn check14(r: Record) -> bool
    ensures { result ≡ breaks14 r }
{
    !record_fits(r)
}

// Check 14 with a file of length bytes.
#[tactic(auto, unfolding(crate::specs::Fits::breaks14_with))]
pub fn check14_with(r: Record, length: u64) -> bool
    ensures { result ≡ breaks14_with r length }
{
    !(record_fits(r) & (r.length == length))
}
