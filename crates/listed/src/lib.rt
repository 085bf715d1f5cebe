// The listing of what a reader gives.
#![tactic(auto)]

ghost use Rattle.std.specs.Prelude.{OnOk};
ghost use Rattle.listed.specs.Listed.{Lists};

use input::read_full;
use std::io;
use std::io::{Read, Write};

// Writes the listing of what the reader gives. The first array takes a byte more than a listed file has, so that a longer one
// shows. A listed file has fewer than 8,000 entries and a line at most 31 bytes, so the second takes every listing.
pub fn list_from<R: Read, W: Write>(from: &mut R, to: &mut W) -> io::Result<()>
    ensures { OnOk result (Lists (R.remaining from.old) (R.remaining from.new) (W.contents to.old) (W.contents to.new)) }
{
    let mut file = [0u8; 65537];
    let mut out = [0u8; 262144];
    let (n, _) = read_full(from, &mut file);
    let shown = report::list(&mut out, &file[..n]);
    to.write_all(&out[..shown])
}
