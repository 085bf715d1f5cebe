// What the programs are given: arguments, the files that they name, and whole inputs, each in a buffer of the caller's.
#![tactic(auto)]

ghost use Rattle.std.specs.Prelude.{◌<◌, ◌≤◌, length, take, IfSome, IfOk, IsSome, OnOk};
ghost use Rattle.std.specs.Io.KnownBytes.{Consumes, IsAtEnd};
ghost use Rattle.std.specs.Str.{IsUtf8};
ghost use Rattle.input.specs.Counts.{IsPrefixLen};

use std::env::{Env, FillError};
use std::io::Read;
use std::rt::Files;
use std::{fs, io, str};

// The most bytes of a name. The system takes none that is longer.
pub const LONGEST_NAME: usize = 4096;

// Fills a buffer from a reader. Answers how many bytes it got, and the error of a read that failed, which counts as the input's
// end. With no error there are fewer than there is room for only where the input ends. The count stands beside the result, since there is one after
// an error too.
pub fn read_full<R: Read>(from: &mut R, out: &mut [u8]) -> (usize, io::Result<()>)
    ensures count { IsPrefixLen result.0 out.new }
    ensures bytes { Consumes (R.remaining from.old) (R.remaining from.new) (take result.0 out.new) }
    ensures end { OnOk result.1 (result.0 < length out.new → IsAtEnd (R.remaining from.new)) }
{
    let mut done = 0;
    // Each turn ends the loop or fills a byte or more, so this many are enough; how far one goes is the reader's matter.
    for _ in 0..out.len() {
        if done == out.len() {
            break;
        }
        match from.read(&mut out[done..]) {
            Ok(0) => return (done, Ok(())),
            Ok(n) => done += n,
            Err(error) => return (done, Err(error)),
        }
    }
    (done, Ok(()))
}

// Argument i, in a buffer, or none where there are not so many. One that does not fit counts as empty.
pub fn argument<'a>(rt: &impl Env, i: usize, buffer: &'a mut [u8]) -> Option<&'a [u8]>
    ensures { IfSome result (λ name. length name.now ≤ length buffer.old) }
{
    match rt.arg(i, buffer) {
        Ok(n) => Some(&buffer[..n]),
        Err(FillError::TooLong) => Some(&buffer[..0]),
        Err(FillError::NotPresent) => None,
    }
}

// Opens the file of a name, to be read. For one that does not open, as none does whose name is not text, there is a line on
// standard error in its place.
pub fn open_named<R: Files + Eprint>(rt: &R, bytes: &[u8]) -> io::Result<Option<R::File>>
    ensures { IfOk result (λ file. IsSome file → IsUtf8 bytes.now) }
{
    let Ok(name) = str::from_utf8(bytes) else {
        eprintln!(rt; "a name that is not text")?;
        return Ok(None);
    };
    match fs::open(rt, name) {
        Ok(file) => Ok(Some(file)),
        Err(error) => {
            eprintln!(rt; "{name}: {error}")?;
            Ok(None)
        }
    }
}
