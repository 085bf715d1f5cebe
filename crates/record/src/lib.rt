// The record of an opened cube, the description in a header's bytes, and what a type number says.
#![tactic(auto)]

ghost use Rattle.std.specs.Prelude.{◌≡◌, ◌+◌, ◌≤◌, length};
ghost use Rattle.geometry.specs.Limits.{text_start, longest_text, bytes_room, brick_room};
ghost use Rattle.geometry.specs.Geometry.{shape_of};
ghost use Rattle.record.specs.Answers.{number, entry};
ghost use Rattle.record.specs.Types.{coding_of, width_of};
ghost use Rattle.record.specs.Header.{three_at, two_at, id_at, description_of};
ghost use Rattle.record.specs.Record.{count_of, bricks_of, brick_bytes_of, floats_of, bound_of, grid_of, record_of, no_record, Sized};

use endian::{u8_at, u32_at, u64_at};
use floats::float_of;
use geometry::{Shape, Volume, brick_bytes, header_end};

// Why a call is not carried out, as the sentence of the table for its number. It has the lowest such entry where one brick is to blame.
#[derive(Clone, Copy, PartialEq, Eq)]
pub enum Refusal {
    // 1: the file is shorter than the two headers before its text.
    Short,
    // 2: the file does not start with VBS and a zero byte.
    Magic,
    // 3: the version is not 2 or 3.
    Version,
    // 4: a brick side is not 4, 8, 16, 32 or 64.
    Side,
    // 5: the type is not 0, 2 or 6.
    Datatype,
    // 6: a size is below 1 or above 1,048,576.
    Size,
    // 7: orig or inc is not finite, or the coding range is not finite with min below max.
    Floats,
    // 8: all levels together have over 16,384 bricks.
    Bricks,
    // 9: the text is not 5 to 65,536 bytes long.
    TextLength,
    // 10: the file ends before its headers do.
    Headers,
    // 11: the text is not exactly five strings, each ended by a zero byte.
    Text,
    // 12: the brick of this entry lies outside the file or in its headers.
    Range(u32),
    // 13: the stored brick of this entry overlaps one of a lower entry.
    Overlap(u32),
    // 14: the record is none that opening gives, or is that of a file of another length.
    Record,
    // 15: there is no such level.
    Level,
    // 16: a count is 0, the region lies outside the extent, or there is no such dimension, index or entry.
    Index,
    // 17: the filler is not the brick's value throughout.
    Filler,
    // 18: a lent buffer is too short.
    Room,
    // 19: a write touches the brick of this entry, which is not stored.
    NotStored(u32),
    // 20: the version 1 brick order has no such sides or item width.
    Subtiles,
}

impl Refusal {
    // The number of the table.
    pub fn number(self) -> u32
        ensures { result ≡ number self }
    {
        match self {
            Refusal::Short => 1,
            Refusal::Magic => 2,
            Refusal::Version => 3,
            Refusal::Side => 4,
            Refusal::Datatype => 5,
            Refusal::Size => 6,
            Refusal::Floats => 7,
            Refusal::Bricks => 8,
            Refusal::TextLength => 9,
            Refusal::Headers => 10,
            Refusal::Text => 11,
            Refusal::Range(_) => 12,
            Refusal::Overlap(_) => 13,
            Refusal::Record => 14,
            Refusal::Level => 15,
            Refusal::Index => 16,
            Refusal::Filler => 17,
            Refusal::Room => 18,
            Refusal::NotStored(_) => 19,
            Refusal::Subtiles => 20,
        }
    }

    // The second number: the entry to blame, or 0 where no single one is.
    pub fn entry(self) -> u32
        ensures { result ≡ entry self }
    {
        match self {
            Refusal::Range(entry) | Refusal::Overlap(entry) | Refusal::NotStored(entry) => entry,
            _ => 0,
        }
    }
}

// What a type number says: the item's width in bytes and its decode rule, as the paper asks of this form (docs/DECISIONS.md, "Forms").
#[derive(Clone, Copy)]
pub enum Coding {
    // Signed integers from -half to half - 1, scaled to the coding range.
    Scaled { width: u32, half: u32 },
    // 32-bit floats, widened.
    Float32 { width: u32 },
}

// What a cube is made from: the header's fields but version and text length, floats and factors as bits.
#[repr(C)]
#[derive(Clone, Copy, Default)]
pub struct Description {
    pub side: [u32; 3],
    pub datatype: u8,
    pub range: [u32; 2],
    pub dataid: [u8; 16],
    pub verid: [u8; 16],
    pub previd: [u8; 16],
    pub srctype: u8,
    pub orig: [u32; 3],
    pub inc: [u32; 3],
    pub size: [u32; 3],
    pub hdim: u8,
    pub hfactor: u64,
    pub vdim: u8,
    pub vfactor: u64,
}

// Orig, inc and coding range as floats; the range of type 6 is 0, 0.
#[repr(C)]
#[derive(Clone, Copy, Default)]
pub struct Grid {
    pub orig: [f32; 3],
    pub inc: [f32; 3],
    pub min: f32,
    pub max: f32,
}

// What opening says of a cube. Header is where the headers end; length is the file's.
#[repr(C)]
#[derive(Clone, Copy, Default)]
pub struct Record {
    pub version: u32,
    pub description: Description,
    pub text: u32,
    pub grid: Grid,
    pub header: u64,
    pub levels: u32,
    pub bricks: u32,
    pub alphas: u32,
    pub length: u64,
}

// What a type number says. A function and no TryFrom: the definitions and the documents call it by this name, and `?` reads the same.
#[tactic(auto, unfolding(crate::specs::Types::coding_of))]
pub fn coding_of(datatype: u8) -> Result<Coding, Refusal>
    ensures { result ≡ coding_of datatype }
{
    match datatype {
        0 => Ok(Coding::Scaled {
            width: 1,
            half: 128,
        }),
        2 => Ok(Coding::Scaled {
            width: 2,
            half: 32768,
        }),
        6 => Ok(Coding::Float32 { width: 4 }),
        1 | 3..=5 | 7..=255 => Err(Refusal::Datatype),
    }
}

// The bytes of an item, 0 where there is no such type: the format's sums take the number as it is, and the checks say that there is none.
#[tactic(auto, unfolding(crate::specs::Types::width_of))]
pub fn width_of(datatype: u8) -> u32
    ensures { result ≡ width_of datatype }
{
    match coding_of(datatype) {
        Ok(Coding::Scaled { width, .. } | Coding::Float32 { width }) => width,
        Err(_) => 0,
    }
}

// Three numbers of 32 bits, and two: each is its definition's list. One function over their number would be no plainer, since it would need a definition
// over that number and a law for each of the two.
fn three_at(file: &[u8], at: usize) -> [u32; 3]
    requires { at + 12 ≤ length file.now }
    ensures { result ≡ three_at file.now at }
{
    [u32_at(file, at), u32_at(file, at + 4), u32_at(file, at + 8)]
}

fn two_at(file: &[u8], at: usize) -> [u32; 2]
    requires { at + 8 ≤ length file.now }
    ensures { result ≡ two_at file.now at }
{
    [u32_at(file, at), u32_at(file, at + 4)]
}

// An id, from its piecewise little-endian order to the canonical one. `making` writes the same order back: each is the list that its definition is, of a
// file's bytes here and of an id's there, and one for both would be proved equal to the two.
fn id_at(file: &[u8], at: usize) -> [u8; 16]
    requires { at + 16 ≤ length file.now }
    ensures { result ≡ id_at file.now at }
{
    [
        file[at + 3],
        file[at + 2],
        file[at + 1],
        file[at],
        file[at + 5],
        file[at + 4],
        file[at + 7],
        file[at + 6],
        file[at + 8],
        file[at + 9],
        file[at + 10],
        file[at + 11],
        file[at + 12],
        file[at + 13],
        file[at + 14],
        file[at + 15],
    ]
}

// The description in a header. Offsets are those of the format's table, 9 bytes on.
pub fn description_at(file: &[u8]) -> Description
    requires { text_start ≤ length file.now }
    ensures { result ≡ description_of file.now }
{
    Description {
        side: three_at(file, 9),
        datatype: u8_at(file, 21),
        range: two_at(file, 22),
        dataid: id_at(file, 30),
        verid: id_at(file, 46),
        previd: id_at(file, 62),
        srctype: u8_at(file, 78),
        orig: three_at(file, 79),
        inc: three_at(file, 91),
        size: three_at(file, 103),
        hdim: u8_at(file, 324),
        hfactor: u64_at(file, 325),
        vdim: u8_at(file, 333),
        vfactor: u64_at(file, 334),
    }
}

fn floats_of(bits: [u32; 3]) -> [f32; 3]
    ensures { result ≡ floats_of bits }
{
    bits.map(float_of)
}

// The bits of an end of the coding range that the grid keeps: 0 for type 6, which has no coding range. The grid goes to C as it
// stands, so no range is zeros there and not an Option.
#[tactic(auto, unfolding(crate::specs::Types::coding_of))]
pub fn bound_of(datatype: u8, bits: u32) -> u32
    ensures { result ≡ bound_of datatype bits }
{
    match coding_of(datatype) {
        Ok(Coding::Float32 { .. }) => 0,
        Ok(Coding::Scaled { .. }) | Err(_) => bits,
    }
}

pub fn grid_of(d: Description) -> Grid
    ensures { result ≡ grid_of d }
{
    Grid {
        orig: floats_of(d.orig),
        inc: floats_of(d.inc),
        min: float_of(bound_of(d.datatype, d.range[0])),
        max: float_of(bound_of(d.datatype, d.range[1])),
    }
}

// Levels, bricks and alpha tiles. That sizes and sides keep the limits stands at each public function that counts with them, which documents and edits
// name with a description alone; `Volume`, made here, has it as its ghost field for all that is counted below.
pub fn shape_in(d: Description) -> Shape
    requires { Sized d }
    ensures { result ≡ shape_of (count_of d 0) (count_of d 1) (count_of d 2) }
{
    let size = d.size;
    let side = d.side;
    Volume { size, side }.shape()
}

// The bytes of a brick with these sides and this type.
pub fn brick_bytes_in(d: Description) -> u64
    requires { Sized d }
    ensures { (result ≡ brick_bytes_of d) × (result ≤ bytes_room) }
{
    brick_bytes(
        u64::from(d.side[0]),
        u64::from(d.side[1]),
        u64::from(d.side[2]),
        u64::from(width_of(d.datatype)),
    )
}

// The record of a cube with this description, a text of text bytes and length bytes in all. Its three counts are casts: u32 has no From of a u64, and
// TryFrom would answer an error that cannot be, as each count is proved to fit.
pub fn record_of(version: u32, d: Description, text: u32, length: u64) -> Record
    requires { Sized d × (bricks_of d ≤ brick_room) × (text ≤ longest_text) }
    ensures { result ≡ record_of version d text length }
{
    let grid = grid_of(d);
    let shape = shape_in(d);
    Record {
        version,
        description: d,
        text,
        grid,
        header: header_end(u64::from(text), shape.alphas, shape.bricks),
        levels: shape.levels as u32,
        bricks: shape.bricks as u32,
        alphas: shape.alphas as u32,
        length,
    }
}

// The record that C gets beside a refusal: all zeros.
pub fn no_record() -> Record
    ensures { result ≡ no_record }
{
    Record::default()
}
