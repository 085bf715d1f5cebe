// The calls of the library, and the lines that say what each answers.
ghost use Rattle.std.specs.Prelude.{◌≤◌, length};

use crate::buffers::{Filler, HELD, HELD_FLOATS, hash_of, hash_of_floats, pseudo_random};
use crate::call::{Making, Move, Order};
use crate::lines::{Answer, Bits, Cube, Kind, Step, Word, say_lines};
use bricks::{brick_kind, brick_view, brick_view_verdict};
use cube::Region;
use making::make;
use opening::open;
use positions::position;
use reading::read_raw;
use record::{Record, Refusal};
use sampling::read_float;
use std::io;
use strings::{Strings, moved, next, string, strings_of, turn_of};
use subtiles::{to_plain, to_subtiled};
use writing::write;

// Answers up to this many bytes are written out, longer ones only as their hash.
const SHOWN: usize = 1024;

// What the calls of a list share: the record, how many bytes of the file are lent, the room of the buffers, the seed. Lengths stand here without
// their buffers, as a call of the list may change them.
#[derive(Clone, Copy)]
pub struct Setting {
    pub record: Record,
    pub lent: usize,
    pub room: usize,
    pub seed: u64,
}

// The items of an answer that are written out: none of one with over `most`.
fn shown<T>(items: &[T], moved: Result<u64, Refusal>, most: usize) -> &[T]
    ensures { length result.now ≤ most }
{
    match moved {
        Ok(n) if n <= most as u64 => &items[..(n as usize).min(items.len())],
        _ => &items[..0],
    }
}

// Each of these makes a call and prints its line. File and setting make no struct: the call that opens changes the setting, and the one that writes
// changes the file, so that each would need a struct of its own.
// Opens what is lent. Refused, the record stays.
pub fn say_opened(rt: &impl Print, file: &[u8], s: &mut Setting) -> io::Result<()> {
    let cube = open(file);
    if let Ok(record) = cube {
        s.record = record;
    }
    println!(rt; ": {}", Answer(cube.map(|r| Cube(r))))
}

pub fn say_kind(rt: &impl Print, file: &[u8], s: &Setting, entry: u32) -> io::Result<()> {
    let brick = brick_kind(file, s.record, entry);
    println!(rt; ": {}", Answer(brick.map(|b| Kind(b))))
}

pub fn say_view(
    rt: &impl Print,
    file: &[u8],
    s: &Setting,
    entry: u32,
    filler: Filler,
) -> io::Result<()> {
    let mut buffer = [0u8; HELD];
    filler.fill(&mut buffer);
    let lent = &buffer[..(filler.length as usize).min(HELD)];
    let verdict = brick_view_verdict(file, lent, s.record, entry);
    let view = brick_view(file, lent, s.record, entry);
    println!(rt;
        ": {} {} {:016x}",
        Answer(verdict.map(|_| "taken")),
        view.len(),
        hash_of(view)
    )
}

// An answer in bytes: the hash of the whole buffer, and the bytes themselves where they are few.
fn say_bytes(rt: &impl Print, buffer: &[u8], moved: Result<u64, Refusal>) -> io::Result<()> {
    let answer = Answer(moved.map(|n| Word("taken", n)));
    println!(rt; ": {answer} {:016x}", hash_of(buffer))?;
    say_lines(rt, shown(buffer, moved, SHOWN))
}

// A raw read into a buffer of so many bytes.
pub fn say_raw(rt: &impl Print, file: &[u8], s: &Setting, g: Region) -> io::Result<()> {
    let mut buffer = [165u8; HELD];
    let out = &mut buffer[..s.room.min(HELD)];
    let moved = read_raw(out, file, s.record, g);
    say_bytes(rt, out, moved)
}

// A float read into a buffer of so many floats.
pub fn say_floats(rt: &impl Print, file: &[u8], s: &Setting, g: Region) -> io::Result<()> {
    let mut buffer = [1.5f64; HELD_FLOATS];
    let out = &mut buffer[..s.room.min(HELD_FLOATS)];
    let moved = read_float(out, file, s.record, g);
    let answer = Answer(moved.map(|n| Word("taken", n)));
    println!(rt; ": {answer} {:016x}", hash_of_floats(out))?;
    for number in shown(out, moved, SHOWN / 8) {
        println!(rt; "{}", Bits(*number))?;
    }
    Ok(())
}

// A write of so many pseudo-random bytes, and the hash of the file after it.
pub fn say_write(rt: &impl Print, file: &mut [u8], s: &Setting, g: Region) -> io::Result<()> {
    let mut input = [0u8; HELD];
    pseudo_random(&mut input, s.seed);
    let moved = write(file, &input[..s.room.min(HELD)], s.record, g);
    let answer = Answer(moved.map(|n| Word("taken", n)));
    println!(rt; ": {answer} {:016x}", hash_of(file))
}

pub fn say_position(rt: &impl Print, s: &Setting, dimension: u32, index: u32) -> io::Result<()> {
    let place = position(s.record, dimension, index);
    println!(rt; ": {}", Answer(place.map(|x| Word("at", Bits(x)))))
}

pub fn say_string(rt: &impl Print, file: &[u8], s: &Setting, n: u32) -> io::Result<()> {
    let turn = turn_of(file, s.record, n);
    println!(rt; ": {}", Answer(turn.map(|t| Step(t))))
}

// A turn of a walker, and its string. Answers the walker after it.
fn walked<'a>(rt: &impl Print, w: Strings<'a>) -> io::Result<Strings<'a>> {
    let turn = next(w);
    println!(rt; " taken {}", Step(turn))?;
    say_lines(rt, string(w))?;
    match turn {
        Some(item) => Ok(moved(w, item.next)),
        None => Ok(w),
    }
}

// Six turns of a walk: five strings, and the sixth says done.
fn say_walk<'a>(rt: &impl Print, start: Strings<'a>) -> io::Result<()> {
    let mut w = start;
    for _ in 0..6 {
        w = walked(rt, w)?;
    }
    Ok(())
}

// The strings of a cube by a walker. Where there is none, the refusal is said once for each turn.
pub fn say_strings(rt: &impl Print, file: &[u8], s: &Setting) -> io::Result<()> {
    print!(rt; ":")?;
    match strings_of(file, s.record) {
        Ok(start) => say_walk(rt, start),
        Err(refusal) => {
            let refused: Answer<&'static str> = Answer(Err(refusal));
            for _ in 0..6 {
                println!(rt; " {refused} {refused}")?;
            }
            Ok(())
        }
    }
}

// A brick of pseudo-random bytes in plain order, or in the version 1 order.
pub fn say_permuted(rt: &impl Print, s: &Setting, m: Move) -> io::Result<()> {
    let mut bytes = [0u8; HELD];
    let mut buffer = [165u8; HELD];
    pseudo_random(&mut bytes, s.seed);
    let brick = &bytes[..(m.length as usize).min(HELD)];
    let out = &mut buffer[..(m.room as usize).min(HELD)];
    let done = match m.order {
        Order::Plain => to_plain(out, brick, m.side, m.width),
        Order::Subtiled => to_subtiled(out, brick, m.side, m.width),
    };
    say_bytes(rt, out, done)
}

// A cube made from a description, and from a part of the file as its text. It is written out whole.
pub fn say_made(rt: &impl Print, held: &[u8], s: &Setting, making: Making) -> io::Result<()> {
    let mut buffer = [165u8; HELD];
    let out = &mut buffer[..s.room.min(HELD)];
    let tail = &held[(making.start as usize).min(held.len())..];
    let text = &tail[..(making.length as usize).min(tail.len())];
    let made = make(out, s.record.description, text, making.fill.into());
    let answer = Answer(made.map(|n| Word("length", n)));
    println!(rt; ": {answer} {:016x}", hash_of(out))?;
    say_lines(rt, shown(out, made, HELD))
}
