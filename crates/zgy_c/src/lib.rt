// The calls of the library for C hosts: each hands its arguments on and answers a plain struct, since no enum crosses the
// boundary. Number 0 says that a call is taken; any other number is the refusal, and entry its second number.
#![tactic(auto)]

ghost use Rattle.std.specs.Prelude.{[], ◌∷◌, ◌≡◌, length, get_or};
ghost use Rattle.endian.specs.Bytes.{peek};
ghost use Rattle.record.specs.Answers.{number, entry};
ghost use Rattle.opening.specs.Opening.{opened_of};
ghost use Rattle.bricks.specs.Bricks.{kind_answer, shown_of};
ghost use Rattle.cube.specs.Calls.{Call, raw_read, float_read, raw, floats, answer_of, cube_after, buffers_after};
ghost use Rattle.positions.specs.Positions.{position_answer};
ghost use Rattle.strings.specs.Strings.{text_in, turn_in, strings_of};
ghost use Rattle.making.specs.Making.{make_answer, make_buffer};
ghost use Rattle.subtiles.specs.Answers.{permute_answer, plain_buffer, subtiled_buffer};
ghost use Rattle.zgy_c.specs.Boundary.{done_c, fill_c, position_c, brick_c, kind_c, opened_c, part_c, view_c, string_c};

use bricks::{Brick, brick_kind, brick_view_verdict};
use cube::Region;
use geometry::TEXT_START;
use making::make;
use opening::open;
use positions::position;
use reading::read_raw;
use record::{Description, Record, Refusal, no_record};
use sampling::read_float;
use strings::turn_of;
use subtiles::{to_plain, to_subtiled};
use table::{Entries, Kind};
use writing::write;

// What opening answers; a refusal stands beside a record of zeros.
#[repr(C)]
#[derive(Clone, Copy)]
pub struct ZgyOpened {
    pub number: u32,
    pub entry: u32,
    pub cube: Record,
}

// What brick kind answers: 0 missing, 1 constant with its value, 2 stored with its offset. Kinds, sources and what was found are numbers here, since
// C has no enum with fields.
#[repr(C)]
#[derive(Clone, Copy)]
pub struct ZgyKind {
    pub number: u32,
    pub entry: u32,
    pub kind: u32,
    pub value: f64,
    pub offset: u64,
}

// Where a brick is shown: source 0 nowhere, 1 in the file, 2 in the filler.
#[repr(C)]
#[derive(Clone, Copy)]
pub struct ZgyView {
    pub number: u32,
    pub entry: u32,
    pub source: u32,
    pub offset: u64,
    pub length: u64,
}

// What a call answers that moves bytes or floats, or makes a cube: how many it moved or made.
#[repr(C)]
#[derive(Clone, Copy)]
pub struct ZgyDone {
    pub number: u32,
    pub entry: u32,
    pub count: u64,
}

// What position answers.
#[repr(C)]
#[derive(Clone, Copy)]
pub struct ZgyPosition {
    pub number: u32,
    pub entry: u32,
    pub value: f64,
}

// Where a string stands in the file; found 0 says that there is none, as all are handed out.
#[repr(C)]
#[derive(Clone, Copy)]
pub struct ZgyString {
    pub number: u32,
    pub entry: u32,
    pub found: u32,
    pub offset: u64,
    pub length: u64,
}

impl From<Result<u64, Refusal>> for ZgyDone {
    ghost from_gives = { λ answer given. given ≡ done_c answer };

    fn from(answer: Result<u64, Refusal>) -> ZgyDone {
        match answer {
            Ok(count) => ZgyDone {
                number: 0,
                entry: 0,
                count,
            },
            Err(x) => ZgyDone {
                number: x.number(),
                entry: x.entry(),
                count: 0,
            },
        }
    }
}

impl From<Result<f64, Refusal>> for ZgyPosition {
    ghost from_gives = { λ answer given. given ≡ position_c answer };

    fn from(answer: Result<f64, Refusal>) -> ZgyPosition {
        match answer {
            Ok(value) => ZgyPosition {
                number: 0,
                entry: 0,
                value,
            },
            Err(x) => ZgyPosition {
                number: x.number(),
                entry: x.entry(),
                value: 0.0,
            },
        }
    }
}

impl From<Brick> for ZgyKind {
    ghost from_gives = { λ brick given. given ≡ brick_c brick };

    fn from(brick: Brick) -> ZgyKind {
        match brick {
            Brick::Missing => ZgyKind {
                number: 0,
                entry: 0,
                kind: 0,
                value: 0.0,
                offset: 0,
            },
            Brick::Constant(value) => ZgyKind {
                number: 0,
                entry: 0,
                kind: 1,
                value,
                offset: 0,
            },
            Brick::Stored(offset) => ZgyKind {
                number: 0,
                entry: 0,
                kind: 2,
                value: 0.0,
                offset,
            },
        }
    }
}

impl From<Result<Brick, Refusal>> for ZgyKind {
    ghost from_gives = { λ answer given. given ≡ kind_c answer };

    fn from(answer: Result<Brick, Refusal>) -> ZgyKind {
        match answer {
            Ok(brick) => brick.into(),
            Err(x) => ZgyKind {
                number: x.number(),
                entry: x.entry(),
                kind: 0,
                value: 0.0,
                offset: 0,
            },
        }
    }
}

impl From<Result<Record, Refusal>> for ZgyOpened {
    ghost from_gives = { λ answer given. given ≡ opened_c answer };

    fn from(answer: Result<Record, Refusal>) -> ZgyOpened {
        match answer {
            Ok(cube) => ZgyOpened {
                number: 0,
                entry: 0,
                cube,
            },
            Err(refusal) => ZgyOpened {
                number: refusal.number(),
                entry: refusal.entry(),
                cube: no_record(),
            },
        }
    }
}

// Where a brick of this kind, so many bytes long, is shown. No From: it needs the brick's length beside its kind.
fn part(kind: Kind, length: u64) -> ZgyView
    ensures { result ≡ part_c (shown_of kind length) }
{
    match kind {
        Kind::Missing | Kind::Constant(_) => ZgyView {
            number: 0,
            entry: 0,
            source: 2,
            offset: 0,
            length,
        },
        Kind::Stored(offset) => ZgyView {
            number: 0,
            entry: 0,
            source: 1,
            offset,
            length,
        },
    }
}

// A view that is refused. No From: a view that is taken is made by `part`, which needs the brick's length too, and of two ways to make one struct the
// reader would have to look for both.
fn nowhere(x: Refusal) -> ZgyView
    ensures { result ≡ record { number = number x; entry = entry x; source = 0; offset = 0; length = 0 } }
{
    ZgyView {
        number: x.number(),
        entry: x.entry(),
        source: 0,
        offset: 0,
        length: 0,
    }
}

// No string, because the walk is refused or because all are handed out, which is number 0. It takes the numbers, as the second has no refusal.
fn no_string(number: u32, entry: u32) -> ZgyString
    ensures { result ≡ record { number = number; entry = entry; found = 0; offset = 0; length = 0 } }
{
    ZgyString {
        number,
        entry,
        found: 0,
        offset: 0,
        length: 0,
    }
}

// Opens a cube.
#[unsafe(no_mangle)]
pub extern "C" fn zgy_open(file: &[u8]) -> ZgyOpened
    ensures { result ≡ opened_c (opened_of file.now) }
{
    open(file).into()
}

// What the brick of an entry is.
#[unsafe(no_mangle)]
pub extern "C" fn zgy_brick_kind(file: &[u8], r: Record, entry: u32) -> ZgyKind
    ensures { result ≡ kind_c (kind_answer r file.now entry) }
{
    brick_kind(file, r, entry).into()
}

// Where the bytes of an entry's brick stand, in the file or in the filler.
#[unsafe(no_mangle)]
pub extern "C" fn zgy_brick_view(file: &[u8], filler: &[u8], r: Record, entry: u32) -> ZgyView
    ensures { result ≡ view_c r file.now filler.now entry }
{
    match brick_view_verdict(file, filler, r, entry) {
        Ok(()) => {
            let entries = Entries::of(file, r);
            part(entries.kind(entry as usize), entries.table.brick)
        }
        Err(x) => nowhere(x),
    }
}

// Reads the bytes of a region.
#[unsafe(no_mangle)]
pub extern "C" fn zgy_read_raw(out: &mut [u8], file: &[u8], r: Record, g: Region) -> ZgyDone
    ensures answer { result ≡ done_c (answer_of r file.now (raw_read g out.old)) }
    ensures buffer { raw out.new ∷ [] ≡ buffers_after r file.now (raw_read g out.old) }
{
    read_raw(out, file, r, g).into()
}

// Reads the samples of a region as floats.
#[unsafe(no_mangle)]
pub extern "C" fn zgy_read_float(out: &mut [f64], file: &[u8], r: Record, g: Region) -> ZgyDone
    ensures answer { result ≡ done_c (answer_of r file.now (float_read g out.old)) }
    ensures buffer { floats out.new ∷ [] ≡ buffers_after r file.now (float_read g out.old) }
{
    read_float(out, file, r, g).into()
}

// Writes the bytes of a region into stored bricks.
#[unsafe(no_mangle)]
pub extern "C" fn zgy_write(file: &mut [u8], input: &[u8], r: Record, g: Region) -> ZgyDone
    ensures answer { result ≡ done_c (answer_of r file.old (Call.write g input.now)) }
    ensures cube { file.new ≡ cube_after r file.old (Call.write g input.now) }
{
    write(file, input, r, g).into()
}

// Where an index stands along a dimension.
#[unsafe(no_mangle)]
pub extern "C" fn zgy_position(r: Record, dimension: u32, index: u32) -> ZgyPosition
    ensures { result ≡ position_c (position_answer r dimension index) }
{
    position(r, dimension, index).into()
}

// Where the n-th string of a cube stands in the file, from 0 on. No From: an item by itself does not say that its place in a file fits.
#[unsafe(no_mangle)]
pub extern "C" fn zgy_string(file: &[u8], r: Record, n: u32) -> ZgyString
    ensures answer { result ≡ string_c (turn_in r file.now n) }
    ensures shown { peek file.now result.offset result.length ≡ get_or (strings_of (text_in r file.now)) n [] }
{
    match turn_of(file, r, n) {
        Ok(Some(item)) => ZgyString {
            number: 0,
            entry: 0,
            found: 1,
            offset: (TEXT_START + item.start) as u64,
            length: (item.end - item.start) as u64,
        },
        Ok(None) => no_string(0, 0),
        Err(x) => no_string(x.number(), x.entry()),
    }
}

// Makes a cube at the start of a buffer.
#[unsafe(no_mangle)]
pub extern "C" fn zgy_make(out: &mut [u8], d: Description, text: &[u8], fill: u32) -> ZgyDone
    ensures answer { result ≡ done_c (make_answer d text.now (fill_c fill) (length out.old)) }
    ensures buffer { out.new ≡ make_buffer d text.now (fill_c fill) out.old }
{
    make(out, d, text, fill.into()).into()
}

// A version 1 brick to plain order.
#[unsafe(no_mangle)]
pub extern "C" fn zgy_to_plain(
    out: &mut [u8],
    brick: &[u8],
    side0: u32,
    side1: u32,
    side2: u32,
    width: u32,
) -> ZgyDone
    ensures answer { result ≡ done_c (permute_answer (side0 ∷ side1 ∷ side2 ∷ []) width (length brick.now) (length out.old)) }
    ensures buffer { out.new ≡ plain_buffer (side0 ∷ side1 ∷ side2 ∷ []) width brick.now out.old }
{
    to_plain(out, brick, [side0, side1, side2], width).into()
}

// A brick in plain order to the version 1 order.
#[unsafe(no_mangle)]
pub extern "C" fn zgy_to_subtiled(
    out: &mut [u8],
    brick: &[u8],
    side0: u32,
    side1: u32,
    side2: u32,
    width: u32,
) -> ZgyDone
    ensures answer { result ≡ done_c (permute_answer (side0 ∷ side1 ∷ side2 ∷ []) width (length brick.now) (length out.old)) }
    ensures buffer { out.new ≡ subtiled_buffer (side0 ∷ side1 ∷ side2 ∷ []) width brick.now out.old }
{
    to_subtiled(out, brick, [side0, side1, side2], width).into()
}
