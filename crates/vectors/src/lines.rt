// The words of the output.
use crate::buffers::bits_of;
use bricks::Brick;
use record::{Record, Refusal};
use std::fmt::Display;
use std::{fmt, io};
use strings::Item;

// A float as its bits. Of a NaN a proved program sees only that it is one.
#[derive(Clone, Copy)]
pub struct Bits(pub f64);

impl Display for Bits {
    fn fmt<W: fmt::Write>(&self, f: &mut fmt::Formatter<W>) -> fmt::Result {
        if self.0.is_nan() {
            f.write_str("nan")
        } else {
            write!(f, "{:016x}", bits_of(self.0))
        }
    }
}

// What a call that may be refused answers.
#[derive(Clone, Copy)]
pub struct Answer<T>(pub Result<T, Refusal>);

impl<T: Display> Display for Answer<T> {
    fn fmt<W: fmt::Write>(&self, f: &mut fmt::Formatter<W>) -> fmt::Result {
        match &self.0 {
            Ok(answer) => write!(f, "{answer}"),
            Err(refusal) => write!(f, "refused {} {}", refusal.number(), refusal.entry()),
        }
    }
}

// A word, and a value that it names.
#[derive(Clone, Copy)]
pub struct Word<T>(pub &'static str, pub T);

impl<T: Display> Display for Word<T> {
    fn fmt<W: fmt::Write>(&self, f: &mut fmt::Formatter<W>) -> fmt::Result {
        write!(f, "{} {}", self.0, self.1)
    }
}

// What a brick is.
#[derive(Clone, Copy)]
pub struct Kind(pub Brick);

impl Display for Kind {
    fn fmt<W: fmt::Write>(&self, f: &mut fmt::Formatter<W>) -> fmt::Result {
        match self.0 {
            Brick::Missing => f.write_str("missing"),
            Brick::Constant(value) => write!(f, "constant {}", Bits(value)),
            Brick::Stored(offset) => write!(f, "stored {offset}"),
        }
    }
}

// What opening says of a cube.
#[derive(Clone, Copy)]
pub struct Cube(pub Record);

impl Display for Cube {
    fn fmt<W: fmt::Write>(&self, f: &mut fmt::Formatter<W>) -> fmt::Result {
        let r = &self.0;
        write!(f, "opened {} {}", r.version, r.description.datatype)?;
        write!(f, " {} {} {}", r.levels, r.bricks, r.alphas)?;
        write!(f, " {} {}", r.header, r.length)
    }
}

// A turn of a walker: a string, or that all are handed out.
#[derive(Clone, Copy)]
pub struct Step(pub Option<Item>);

impl Display for Step {
    fn fmt<W: fmt::Write>(&self, f: &mut fmt::Formatter<W>) -> fmt::Result {
        match self.0 {
            Some(Item { start, end, next }) => write!(f, "item {start} {end} {next}"),
            None => f.write_str("done"),
        }
    }
}

// Bytes in hexadecimal.
#[derive(Clone, Copy)]
struct Hex<'a>(&'a [u8]);

impl Display for Hex<'_> {
    fn fmt<W: fmt::Write>(&self, f: &mut fmt::Formatter<W>) -> fmt::Result {
        for byte in self.0 {
            write!(f, "{byte:02x}")?;
        }
        Ok(())
    }
}

// Bytes, 32 to a line, each after the place of its first byte. A line of zeros is left out.
pub fn say_lines(rt: &impl Print, bytes: &[u8]) -> io::Result<()> {
    for (i, line) in bytes.chunks(32).enumerate() {
        if line.iter().any(|byte| *byte != 0) {
            println!(rt; "{} {}", 32 * i, Hex(line))?;
        }
    }
    Ok(())
}
