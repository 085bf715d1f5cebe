// Making a cube: version 3, from a description and a lent text, into a lent buffer.
//
// The sections are written one after the other, each from where the one before it ends.
#![tactic(auto)]

ghost use Rattle.std.specs.Prelude.{◌≡◌, ◌+◌, ◌*◌, ◌<◌, min, length};
ghost use Rattle.endian.specs.Loops.{cat};
ghost use Rattle.endian.specs.Bytes.{lows};
ghost use Rattle.record.specs.Answers.{Taken};
ghost use Rattle.checks.specs.Checks.{described};
ghost use Rattle.geometry.specs.Limits.{longest_text};
ghost use Rattle.text.specs.Text.{Pours};
ghost use Rattle.text.specs.Writing.{Writes};
ghost use Rattle.making.specs.Making.{fill_by, zero_bytes, three, stored_id, file_header, brick_fields, id_fields, grid_fields, current_fields, survey_fields, unit_fields, info_header, made_file, make_answer, make_buffer};
ghost use Rattle.making.specs.MadeOpens.{MadeOpens};
ghost use Rattle.making.specs.Plan.{survey_sizes, stepped, plan_of, headed, rest_verdict};

use checks::{check_description, check11};
use floats::{float_of, survey_size};
use geometry::{LONGEST_TEXT, header_end};
use record::{Description, Refusal, brick_bytes_in, shape_in};
use text::Writer;

// What the bricks of a made cube are: all constant zero, or all stored and zero filled.
#[derive(Clone, Copy)]
pub enum Fill {
    Constant,
    Stored,
}

// As a number says it where there is no such type: 0 is constant, any other number stored.
impl From<u32> for Fill {
    ghost from_gives = { λ number given. given ≡ fill_by number };

    fn from(number: u32) -> Fill {
        if number == 0 {
            Fill::Constant
        } else {
            Fill::Stored
        }
    }
}

// The numbers that a made cube follows from.
#[derive(Clone, Copy)]
pub struct Plan {
    pub alphas: u64,
    pub bricks: u64,
    // The first entry of the brick table, and what each next one is more.
    pub first: u64,
    pub step: u64,
    // The bytes after the headers, and those of the whole file.
    pub after: u64,
    pub length: u64,
}

// A description and its text, once checks 4 to 9 have passed.
#[derive(Clone, Copy)]
struct Described<'a> {
    d: Description,
    text: &'a [u8],
    ghost taken: { described d (length text.now) ≡ Taken },
}

// n zeros.
fn push_zeros(out: &mut Writer, n: usize)
    ensures { Writes out.old (zero_bytes n) out.new }
{
    out.push_repeated(0, n);
}

// A number of 32 bits, the lowest byte first.
fn push_u32(out: &mut Writer, n: u32)
    ensures { Writes out.old (lows 4 n) out.new }
{
    out.push_bytes(&n.to_le_bytes());
}

// A number of 64 bits, the same way. One generic function would need a trait of our own for `to_le_bytes`, longer than both.
fn push_u64(out: &mut Writer, n: u64)
    ensures { Writes out.old (lows 8 n) out.new }
{
    out.push_bytes(&n.to_le_bytes());
}

// Three numbers of 32 bits. No loop over them: it would need an invariant, where three calls need none.
fn push_three(out: &mut Writer, ns: [u32; 3])
    ensures { Writes out.old (three ns) out.new }
{
    push_u32(out, ns[0]);
    push_u32(out, ns[1]);
    push_u32(out, ns[2]);
}

// An id, from its canonical order to the piecewise little-endian one.
fn push_id(out: &mut Writer, id: [u8; 16])
    ensures { Writes out.old (stored_id id) out.new }
{
    let stored = [
        id[3], id[2], id[1], id[0], id[5], id[4], id[7], id[6], id[8], id[9], id[10], id[11],
        id[12], id[13], id[14], id[15],
    ];
    out.push_bytes(&stored);
}

// Magic, version 3 and the pad byte.
fn push_file_header(out: &mut Writer)
    ensures { Writes out.old file_header out.new }
{
    out.push_bytes(b"VBS\0");
    push_u32(out, 3);
    out.push(0);
}

// Brick sides, type and coding range.
fn push_brick_fields(out: &mut Writer, d: Description)
    ensures { Writes out.old (brick_fields d) out.new }
{
    push_three(out, d.side);
    out.push(d.datatype);
    push_u32(out, d.range[0]);
    push_u32(out, d.range[1]);
}

// The three ids and the source type.
fn push_id_fields(out: &mut Writer, d: Description)
    ensures { Writes out.old (id_fields d) out.new }
{
    push_id(out, d.dataid);
    push_id(out, d.verid);
    push_id(out, d.previd);
    out.push(d.srctype);
}

// Orig, inc and size.
fn push_grid_fields(out: &mut Writer, d: Description)
    ensures { Writes out.old (grid_fields d) out.new }
{
    push_three(out, d.orig);
    push_three(out, d.inc);
    push_three(out, d.size);
}

// The current extent, which is the whole cube, and empty statistics.
fn push_current_fields(out: &mut Writer, d: Description)
    ensures { Writes out.old (current_fields d) out.new }
{
    push_zeros(out, 12);
    push_three(out, d.size);
    push_zeros(out, 32);
}

// The bits of inc x size in each direction.
fn survey_sizes(cube: Described) -> [u32; 3]
    ensures { result ≡ survey_sizes cube.entry.d }
{
    let d = cube.d;
    [
        survey_size(float_of(d.inc[0]), d.size[0]),
        survey_size(float_of(d.inc[1]), d.size[1]),
        survey_size(float_of(d.inc[2]), d.size[2]),
    ]
}

// The survey's extent, which is the whole cube, and the kind of grid definition, 3.
fn push_survey_fields(out: &mut Writer, cube: Described)
    ensures { Writes out.old (survey_fields cube.entry.d) out.new }
{
    let sizes = survey_sizes(cube);
    push_three(out, cube.d.orig);
    push_three(out, sizes);
    out.push(3);
}

// Horizontal and vertical kind, each with its factor.
fn push_unit_fields(out: &mut Writer, d: Description)
    ensures { Writes out.old (unit_fields d) out.new }
{
    out.push(d.hdim);
    push_u64(out, d.hfactor);
    out.push(d.vdim);
    push_u64(out, d.vfactor);
}

// InfoHeader, with the text's length.
fn push_info_header(out: &mut Writer, cube: Described)
    ensures { Writes out.old (info_header cube.entry.d (length cube.entry.text.now)) out.new }
{
    let d = cube.d;
    push_brick_fields(out, d);
    push_id_fields(out, d);
    push_grid_fields(out, d);
    push_current_fields(out, d);
    push_survey_fields(out, cube);
    push_zeros(out, 128);
    push_unit_fields(out, d);
    push_u32(out, cube.text.len() as u32);
}

// The file header, InfoHeader, the text and an empty histogram.
fn push_headers(out: &mut Writer, cube: Described)
    ensures { Writes out.old (headed cube.entry.d cube.entry.text.now) out.new }
{
    push_file_header(out);
    push_info_header(out, cube);
    out.push_bytes(cube.text);
    push_zeros(out, 2064);
}

// `count` entries of the brick table: the first, and each next one `step` more.
fn push_entries(out: &mut Writer, count: usize, first: u64, step: u64)
    requires { first + count * step < 18446744073709551616 }
    ensures { Writes out.old (cat count (stepped first step)) out.new }
{
    for entry in 0..count {
        push_u64(out, first + entry as u64 * step);
    }
}

// The numbers of a cube.
fn plan_of(cube: Described, fill: Fill) -> Plan
    ensures { result ≡ plan_of cube.entry.d (length cube.entry.text.now) fill }
{
    let shape = shape_in(cube.d);
    let brick = brick_bytes_in(cube.d);
    let header = header_end(cube.text.len() as u64, shape.alphas, shape.bricks);
    let start = header.next_multiple_of(brick);
    let after = start - header + shape.bricks * brick;
    match fill {
        Fill::Constant => Plan {
            alphas: shape.alphas,
            bricks: shape.bricks,
            first: 9223372036854775808,
            step: 0,
            after: 0,
            length: header,
        },
        Fill::Stored => Plan {
            alphas: shape.alphas,
            bricks: shape.bricks,
            first: start,
            step: brick,
            after,
            length: header + after,
        },
    }
}

// The length of a text as a number of 32 bits; one that is too long is one byte too long.
fn text_length(n: usize) -> u32
    ensures { result ≡ min n (longest_text + 1) }
{
    n.min(LONGEST_TEXT as usize + 1) as u32
}

// Checks 11 and 18.
fn check_rest(cube: Described, fill: Fill, room: u64) -> Result<(), Refusal>
    ensures { result ≡ rest_verdict cube.entry.d cube.entry.text.now fill room }
{
    if check11(cube.text) {
        return Err(Refusal::Text);
    }
    if room < plan_of(cube, fill).length {
        return Err(Refusal::Room);
    }
    Ok(())
}

// The file, once nothing refuses it, and its length.
fn push_cube(out: &mut [u8], cube: Described, fill: Fill) -> usize
    ensures { Pours out.old 0 (made_file cube.entry.d cube.entry.text.now fill) out.new result }
{
    let plan = plan_of(cube, fill);
    let mut file = Writer::new(out);
    push_headers(&mut file, cube);
    push_zeros(&mut file, 8 * plan.alphas as usize);
    push_entries(&mut file, plan.bricks as usize, plan.first, plan.step);
    push_zeros(&mut file, plan.after as usize);
    file.place()
}

// Makes a cube at the start of `out`, and answers its length; the bytes after it stay. All checks
// come before the first byte.
pub fn make(out: &mut [u8], d: Description, text: &[u8], fill: Fill) -> Result<u64, Refusal>
    ensures answer { result ≡ make_answer d text.now fill (length out.old) }
    ensures buffer { out.new ≡ make_buffer d text.now fill out.old }
{
    check_description(d, text_length(text.len()))?;
    let cube = Described { d, text };
    check_rest(cube, fill, out.len() as u64)?;
    Ok(push_cube(out, cube, fill) as u64)
}

// A cube that make makes opens again, with the same description, text and bricks: a theorem, stated where a reader of the source
// finds it. The function does nothing.
pub fn made_opens()
    ensures { MadeOpens }
{}
