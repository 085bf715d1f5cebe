// A region among the bricks of its level, and in a file.
ghost use Rattle.std.specs.Prelude.{◌≡◌, length};
ghost use Rattle.endian.specs.Loops.{tri};
ghost use Rattle.cube.specs.Places.{Inside, brick_of, item_no, kind_in};
ghost use Rattle.cube.specs.Regions.{run_of, place};
ghost use Rattle.runs.specs.Runs.{Laid, Ready, Holds};

use crate::{Lattice, beyond, over};
use cube::Region;
use geometry::entry_at;
use record::Record;
use table::{Kind, kind_at};

// A region of a cube, with its lattice. Reads and writes make it by a literal: a function would have to say of each of the three fields what it is,
// and its callers would go on from what it says instead of from what they hold.
#[derive(Clone, Copy)]
pub struct Site<'a> {
    pub record: &'a Record,
    pub region: &'a Region,
    pub lattice: Lattice,
    pub ghost laid: { Laid record.now region.now lattice },
}

// A region that the checks took, which has samples, and the file that it is read from.
#[derive(Clone, Copy)]
pub struct View<'a, 'f> {
    pub site: Site<'a>,
    pub file: &'f [u8],
    pub ghost ready: { Ready site.record.now file.now site.region.now site.lattice },
    pub ghost some: { Holds site.region.now 0 0 0 },
}

// So many samples in a direction, from one on.
#[derive(Clone, Copy)]
pub struct Span {
    pub at: usize,
    pub n: usize,
}

// A box of a region's samples, inline, crossline, vertical.
#[derive(Clone, Copy)]
pub struct BrickBox {
    pub i: Span,
    pub j: Span,
    pub k: Span,
}

// What holds a box's first sample: the kind of its brick, and the item there.
#[derive(Clone, Copy)]
pub struct Corner {
    pub kind: Kind,
    pub item: usize,
}

impl<'a> Site<'a> {
    // The entry of the brick that holds a sample of the region.
    fn entry(&self, i: usize, j: usize, k: usize) -> usize
        requires { Inside self.now.record.now (place self.now.region.now i j k) }
        ensures { result ≡ brick_of self.now.record.now (place self.now.region.now i j k) }
    {
        let q = self.lattice;
        let x = over(q.start0 + i, q.side0);
        let y = over(q.start1 + j, q.side1);
        let z = over(q.start2 + k, q.side2);
        entry_at(q.level, x as u64, y as u64, z as u64) as usize
    }

    // What the brick that holds a sample of the region is. Which sample is a matter of the call: its three
    // numbers go on as they stand in a loop or in a box, and that it is one stands at each method that takes them.
    pub fn kind(&self, file: &[u8], i: usize, j: usize, k: usize) -> Kind
        requires inside { Inside self.now.record.now (place self.now.region.now i j k) }
        requires same_length { self.now.record.now.length ≡ length file.now }
        ensures { result ≡ kind_in self.now.record.now file.now (brick_of self.now.record.now (place self.now.region.now i j k)) }
    {
        kind_at(file, self.lattice.table, self.entry(i, j, k))
    }

    // A sample's item number in its brick: vertical runs fastest.
    pub fn item(&self, i: usize, j: usize, k: usize) -> usize
        requires { Inside self.now.record.now (place self.now.region.now i j k) }
        ensures { result ≡ item_no self.now.record.now (place self.now.region.now i j k) }
    {
        let q = self.lattice;
        let x = beyond(q.start0 + i, q.side0);
        let y = beyond(q.start1 + j, q.side1);
        let z = beyond(q.start2 + k, q.side2);
        (x * q.side1 + y) * q.side2 + z
    }
}

impl<'a, 'f> View<'a, 'f> {
    ghost use Rattle.runs.specs.Views.{InBrick, IsCorner};

    // A sample's number among the region's, in the order of a buffer: vertical runs fastest.
    pub fn sample_no(&self, i: usize, j: usize, k: usize) -> usize
        requires { Holds self.now.site.region.now i j k }
        ensures { result ≡ tri (run_of self.now.site.region.now 1) (run_of self.now.site.region.now 2) i j k }
    {
        let q = self.site.lattice;
        (i * q.count1 + j) * q.count2 + k
    }

    // What holds the first sample of a box of one brick.
    pub fn corner(&self, b: BrickBox) -> Corner
        requires { InBrick self.now b }
        ensures { IsCorner self.now result b }
    {
        let i = b.i.at;
        let j = b.j.at;
        let k = b.k.at;
        Corner {
            kind: self.site.kind(self.file, i, j, k),
            item: self.site.item(i, j, k),
        }
    }
}
