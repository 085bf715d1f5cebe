// Brick kind and brick view, by entry number.
#![tactic(auto)]

ghost use Rattle.std.specs.Prelude.{◌≡◌, ◌*◌, ◌^◌, ◌<◌, ◌/◌, length};
ghost use Rattle.record.specs.Types.{width_of, value_of};
ghost use Rattle.record.specs.Answers.{Taken, answered};
ghost use Rattle.table.specs.Entries.{kind_in, Width, Derived};
ghost use Rattle.table.specs.declared.Kind.TheVariants.{Constant};
ghost use Rattle.cube.specs.Places.{item_bytes};
ghost use Rattle.bricks.specs.Bricks.{brick_of, kind_verdict, kind_answer, filler_verdict, shown_verdict, view_verdict, view_of, Shows};
ghost use Rattle.bricks.specs.Filler.{Narrow, Repeats, Same};

use checks::check14_with;
use cube::missing_brick;
use floats::{Item, widen_bits};
use record::{Coding, Record, Refusal, coding_of};
use table::{Entries, Kind, table_in};

// What a brick is. A constant is the storage value, unscaled; a stored brick has its offset in the file. The paper asks for this enum
// (docs/DECISIONS.md, 10); `table::Kind` is the table's own, with the constant's bytes as a number, and one for both would be generic in that alone.
#[derive(Clone, Copy)]
pub enum Brick {
    Missing,
    Constant(f64),
    Stored(u64),
}

// Checks 14, 16 and 12. File, record and entry go on as they are lent, also after the checks: a struct of what passed them would be made by two calls,
// and save each the one line in which it asks `Entries` again.
fn check_entry(file: &[u8], r: Record, entry: u32) -> Result<(), Refusal>
    ensures { result ≡ kind_verdict r file.now entry }
{
    if check14_with(r, file.len() as u64) {
        return Err(Refusal::Record);
    }
    if r.bricks <= entry {
        return Err(Refusal::Index);
    }
    if Entries::of(file, r).is_out_of_range(entry as usize) {
        return Err(Refusal::Range(entry));
    }
    Ok(())
}

// What an entry names, once its checks have passed. Inline in both its callers: a call would copy the record.
#[inline(always)]
fn kind_of_entry(file: &[u8], r: Record, entry: u32) -> Result<Kind, Refusal>
    ensures { result ≡ answered (kind_verdict r file.now entry) (kind_in r file.now entry) }
{
    check_entry(file, r, entry)?;
    Ok(Entries::of(file, r).kind(entry as usize))
}

// The storage value of a constant as a float, unscaled. decoding's `decode_one` has this match with `.scaled(..)` in its first arm, and says there why
// each has its own.
fn constant_value(datatype: u8, raw: u32) -> f64
    requires { raw < 256 ^ width_of datatype }
    ensures { result ≡ value_of datatype raw }
{
    match coding_of(datatype) {
        Ok(Coding::Scaled { half, .. }) => Item { raw, half }.value(),
        Ok(Coding::Float32 { .. }) | Err(_) => widen_bits(raw),
    }
}

fn brick_of(datatype: u8, kind: Kind) -> Brick
    requires { Narrow (width_of datatype) kind }
    ensures { result ≡ brick_of datatype kind }
{
    match kind {
        Kind::Missing => Brick::Missing,
        Kind::Constant(raw) => Brick::Constant(constant_value(datatype, raw)),
        Kind::Stored(offset) => Brick::Stored(offset),
    }
}

// What the brick of an entry is.
pub fn brick_kind(file: &[u8], r: Record, entry: u32) -> Result<Brick, Refusal>
    ensures { result ≡ kind_answer r file.now entry }
{
    let kind = kind_of_entry(file, r, entry)?;
    Ok(brick_of(r.description.datatype, kind))
}

// The word whose four bytes are the value's bytes, again and again.
fn repeated(value: u32, width: u32) -> u32
    requires { Width width × (value < 256 ^ width) }
    ensures { Repeats width value result }
{
    match width {
        1 => value * 16843009,
        2 => value * 65537,
        _ => value,
    }
}

// No early exit: differences are gathered and tested once, which runs at memory speed.
fn same_words(filler: &[u8], word: u32) -> bool
    ensures { Same filler.now word (length filler.now / 4) result }
{
    let (words, _) = filler.as_chunks::<4>();
    let mut different = 0;
    for bytes in words {
        different |= u32::from_le_bytes(*bytes) ^ word;
    }
    different == 0
}

// Checks 18 and 17, for a brick whose every sample has this value. A brick is a whole number of words, since a side is.
fn check_filler(filler: &[u8], r: Record, value: u32) -> Result<(), Refusal>
    requires { Derived r × (value < 256 ^ item_bytes r) }
    ensures { result ≡ filler_verdict r (Constant value) filler.now }
{
    let t = table_in(r);
    let bytes = t.brick as usize;
    if filler.len() < bytes {
        return Err(Refusal::Room);
    }
    if same_words(&filler[..bytes], repeated(value, t.width)) {
        return Ok(());
    }
    Err(Refusal::Filler)
}

// A missing brick is shown as one of the value that it reads as.
fn check_shown(filler: &[u8], r: Record, kind: Kind) -> Result<(), Refusal>
    requires { Derived r × Narrow (item_bytes r) kind }
    ensures { result ≡ shown_verdict r kind filler.now }
{
    match kind {
        Kind::Missing => check_filler(filler, r, missing_brick(r).value),
        Kind::Constant(value) => check_filler(filler, r, value),
        Kind::Stored(_) => Ok(()),
    }
}

// Whether brick view shows the brick of an entry: checks 14, 16 and 12, then 18 and 17 where it would show the filler.
pub fn brick_view_verdict(file: &[u8], filler: &[u8], r: Record, entry: u32) -> Result<(), Refusal>
    ensures { result ≡ view_verdict r file.now filler.now entry }
{
    let kind = kind_of_entry(file, r, entry)?;
    check_shown(filler, r, kind)
}

// The brick's part of the file where it is stored, else the start of the filler.
fn shown<'a>(file: &'a [u8], filler: &'a [u8], r: Record, entry: u32) -> &'a [u8]
    requires { view_verdict r file.now filler.now entry ≡ Taken }
    ensures { Shows (view_of r file.now filler.now entry) file.entry filler.entry result }
{
    let entries = Entries::of(file, r);
    let bytes = entries.table.brick as usize;
    match entries.kind(entry as usize) {
        Kind::Missing | Kind::Constant(_) => &filler[0..bytes],
        Kind::Stored(offset) => {
            let start = offset as usize;
            let end = start + bytes;
            &file[start..end]
        }
    }
}

// The bytes of an entry's brick, lent on: a part of the file, or the start of the filler. A refusal is an empty part of the file, and which refusal it is
// `brick_view_verdict` says: no Result of both, since the docs name both functions, and `Shows (view_of ..)` speaks of the slice of a refused call too.
pub fn brick_view<'a>(file: &'a [u8], filler: &'a [u8], r: Record, entry: u32) -> &'a [u8]
    ensures { Shows (view_of r file.now filler.now entry) file.entry filler.entry result }
{
    match brick_view_verdict(file, filler, r, entry) {
        Ok(()) => shown(file, filler, r, entry),
        Err(_) => &file[0..0],
    }
}
