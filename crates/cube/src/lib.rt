// Regions of an opened cube, and what a missing brick reads as. What a place holds, what a call answers and what it leaves is said in specs/.
#![tactic(auto)]

ghost use Rattle.std.specs.Prelude.{◌≡◌};
ghost use Rattle.cube.specs.Places.{missing_brick};

use record::Record;

// A box of samples of one level: where it starts and how many it has, inline, crossline, vertical.
#[repr(C)]
#[derive(Clone, Copy)]
pub struct Region {
    pub level: u32,
    pub start: [u32; 3],
    pub count: [u32; 3],
}

// What a missing brick reads as: the unsigned number of an item's bytes, and the float.
#[derive(Clone, Copy)]
pub struct MissingBrick {
    pub value: u32,
    pub float: f64,
}

pub fn missing_brick(r: Record) -> MissingBrick
    ensures { result ≡ missing_brick r }
{
    MissingBrick {
        value: 0,
        float: 0.0,
    }
}
