// Where the samples of a region lie in the bricks of its level, and the walk of a read over these bricks. Raw reads, float reads and
// writes share this.
#![tactic(auto)]

ghost use Rattle.std.specs.Prelude.{◌≡◌, true, ◌+◌, ◌-◌, ◌/◌, ◌%◌, ◌<◌, ◌≤◌, min};
ghost use Rattle.checks.specs.Checks.{side_ok};
ghost use Rattle.record.specs.Record.{levels_of, bricks_of, Sized};
ghost use Rattle.runs.specs.Runs.{level_in, lattice_of, Allowed};

use cube::{MissingBrick, Region, missing_brick};
use geometry::{Level, Volume};
use record::{Description, Record, width_of};
use table::{Table, table_in};

pub mod parts;
pub mod site;
pub mod walk;

// A region among the bricks of its level, worked out once for a call. Each number of a direction has a name of its own and stands in no array: no
// loop goes over the directions. Nor does a struct hold those of a direction: its ghost field, that the side is a power of two, would have to hold of
// `lattice_of`, which is defined for every record, and without it it would only name the nine numbers otherwise. `Parts` has it where a loop begins.
#[derive(Clone, Copy)]
pub struct Lattice {
    // The brick table, and what numbers the bricks of the level.
    pub table: Table,
    pub level: Level,
    // The sides of a brick, the bytes of an item, and what a missing brick reads as.
    pub side0: usize,
    pub side1: usize,
    pub side2: usize,
    pub width: u32,
    pub missing: MissingBrick,
    // Where the region starts, and how many samples it has.
    pub start0: usize,
    pub start1: usize,
    pub start2: usize,
    pub count0: usize,
    pub count1: usize,
    pub count2: usize,
}

// A number of 32 bits as an index. `usize` has no From of it, and a cast alone leaves its bound to each caller.
pub fn index(x: u32) -> usize
    ensures { (result ≡ x) × (result < 4294967296) }
{
    x as usize
}

// A quotient by a brick's side, which is one that check 4 lets pass: that stands at each function that divides by one, and is `Parts`' ghost field.
// Sides are powers of two, so it is a shift: a division for each brick would cost more than its rows.
pub fn over(x: usize, side: usize) -> usize
    requires { side_ok side ≡ true }
    ensures { result ≡ x / side }
{
    x >> usize::trailing_zeros(side)
}

// A level of a cube with this description and so many bricks in all levels.
pub fn level_in(d: Description, bricks: u32, level: u32) -> Level
    requires { Sized d × (bricks ≡ bricks_of d) × (level < levels_of d) }
    ensures { result ≡ level_in d level }
{
    let size = d.size;
    let side = d.side;
    Volume { size, side }.level(u64::from(bricks), u64::from(level))
}

// The lattice of a region.
pub fn lattice_of(r: Record, g: Region) -> Lattice
    requires { Allowed r g }
    ensures { result ≡ lattice_of r g }
{
    let d = r.description;
    Lattice {
        table: table_in(r),
        level: level_in(d, r.bricks, g.level),
        side0: index(d.side[0]),
        side1: index(d.side[1]),
        side2: index(d.side[2]),
        width: width_of(d.datatype),
        missing: missing_brick(r),
        start0: index(g.start[0]),
        start1: index(g.start[1]),
        start2: index(g.start[2]),
        count0: index(g.count[0]),
        count1: index(g.count[1]),
        count2: index(g.count[2]),
    }
}

// What a quotient by a brick's side leaves: the bits below the side's.
fn beyond(x: usize, side: usize) -> usize
    requires { side_ok side ≡ true }
    ensures { result ≡ x % side }
{
    x & (side - 1)
}

// How many of the next n samples in a direction lie in the brick of the first, which is `at` past the region's start.
pub fn left(start: usize, at: usize, side: usize, n: usize) -> usize
    requires { (side_ok side ≡ true) × (start + at < 4294967296) }
    ensures { result ≡ min (side - (start + at) % side) n }
{
    let rest = side - beyond(start + at, side);
    rest.min(n)
}

// How many of the next n inlines of a box a read takes at once: all where they have one row each, as in a crossline section, so that
// a brick is looked up once; else one, so that the buffer is filled row after row. Any number of them would do.
pub fn at_once(rows: usize, n: usize) -> usize
    requires { 0 < n }
    ensures { (0 < result) × (result ≤ n) }
{
    if rows == 1 { n } else { 1 }
}
