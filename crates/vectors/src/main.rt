// Runs the library on cubes and lists of calls, and writes what each call answers. The arguments name them in pairs: a
// cube, and its calls. A list of calls has eight 32-bit numbers for each, the first of them saying which call it is.
#![tactic(auto)]

mod answers;
mod buffers;
mod call;
mod fields;
mod lines;

ghost use Rattle.std.specs.Prelude.{◌≡◌, ◌≤◌, length};
ghost use Rattle.input.specs.Counts.{IsPrefixLen};

use answers::{
    Setting, say_floats, say_kind, say_made, say_opened, say_permuted, say_position, say_raw,
    say_string, say_strings, say_view, say_write,
};
use buffers::{HELD, put};
use call::Call;
use endian::u32_at;
use input::{LONGEST_NAME, argument, open_named, read_full};
use lines::{Answer, Cube};
use opening::open;
use std::rt::Files;
use std::{array, io};

// The bytes of a call.
const CALL: usize = 32;

// The numbers of a call.
fn numbers_in(call: &[u8]) -> [u32; 8]
    requires { length call.now ≡ CALL }
{
    array::from_fn(|i| u32_at(call, 4 * i))
}

// One call: its line, and what it leaves. One that only changes what the calls after it are given has no answer.
fn step(rt: &impl Print, held: &mut [u8], s: &mut Setting, call: Call) -> io::Result<()> {
    print!(rt; "{call}")?;
    let end = s.lent.min(held.len());
    match call {
        Call::Kind { entry } => return say_kind(rt, &held[..end], s, entry),
        Call::View { entry, filler } => return say_view(rt, &held[..end], s, entry, filler),
        Call::Raw(region) => return say_raw(rt, &held[..end], s, region),
        Call::Float(region) => return say_floats(rt, &held[..end], s, region),
        Call::Write(region) => return say_write(rt, &mut held[..end], s, region),
        Call::Position { dimension, index } => return say_position(rt, s, dimension, index),
        Call::String { n } => return say_string(rt, &held[..end], s, n),
        Call::Strings => return say_strings(rt, &held[..end], s),
        Call::Permute(moved) => return say_permuted(rt, s, moved),
        Call::Make(making) => return say_made(rt, held, s, making),
        Call::Open => return say_opened(rt, &held[..end], s),
        Call::Put { at, low, high } => put(held, at as usize, low, high),
        Call::Room(n) => s.room = n as usize,
        Call::Seed(n) => s.seed = u64::from(n),
        Call::Lend(n) => s.lent = n as usize,
        Call::Field(change) => s.record = change.made_in(s.record),
    }
    println!(rt)
}

// A cube of so many bytes, at the start of what is held, and all calls of a list on it where it opens. What is held is lent whole, with a length
// beside it: a call may lend more than the cube, and put bytes past its end.
fn run_cube(rt: &impl Print, held: &mut [u8], length: usize, calls: &[u8]) -> io::Result<()>
    requires { IsPrefixLen length held.old }
{
    let cube = open(&held[..length]);
    println!(rt; "{}", Answer(cube.map(|r| Cube(r))))?;
    let Ok(record) = cube else {
        return Ok(());
    };
    let mut s = Setting {
        record,
        lent: length,
        room: 2048,
        seed: 1,
    };
    for call in calls.chunks_exact(CALL) {
        step(rt, held, &mut s, Call::from(numbers_in(call)))?;
    }
    Ok(())
}

// Reads a file, by its name, and hands on the part of the buffer that it fills. One that does not open counts as empty.
fn read_named<'a>(rt: &(impl Files + Eprint), out: &'a mut [u8], name: &[u8]) -> &'a [u8]
    ensures { length result.now ≤ length out.old }
{
    let Ok(Some(mut file)) = open_named(rt, name) else {
        return &out[..0];
    };
    let (n, _) = read_full(&mut file, out);
    &out[..n]
}

// The cube and the calls that two arguments name.
fn run_pair(rt: &(impl Files + Print + Eprint), cube: &[u8], list: &[u8]) -> io::Result<()> {
    let mut held = [0u8; HELD];
    let mut buffer = [0u8; HELD];
    print!(rt; "cube ")?;
    rt.write_all(cube)?;
    println!(rt)?;
    let length = read_named(rt, &mut held, cube).len();
    let calls = read_named(rt, &mut buffer, list);
    run_cube(rt, &mut held, length, calls)
}

fn main(rt: HostRuntime) -> io::Result<()> {
    let mut cube_buffer = [0u8; LONGEST_NAME];
    let mut list_buffer = [0u8; LONGEST_NAME];
    // By their numbers: std's iterator of arguments copies all onto the heap, and gives none where one of them is not text.
    for i in (1..usize::MAX).step_by(2) {
        let Some(cube) = argument(&rt, i, &mut cube_buffer) else {
            break;
        };
        let list = argument(&rt, i + 1, &mut list_buffer).unwrap_or(b"");
        run_pair(&rt, cube, list)?;
    }
    Ok(())
}
