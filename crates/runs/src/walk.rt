// A region read brick by brick: the bricks that it touches, each once for some of its inlines, and of each brick one box.
ghost use Rattle.std.specs.Prelude.{List, ◌≡◌, ℕ, ◌*◌, length};
ghost use Rattle.endian.specs.Loops.{cat};
ghost use Rattle.record.specs.declared.Record.{Record};
ghost use Rattle.table.specs.declared.Kind.{Kind};
ghost use Rattle.cube.specs.declared.Region.{Region};
ghost use Rattle.cube.specs.Regions.{run_of};
ghost use Rattle.runs.specs.Views.{whole, only, Through, InBrick, IsCorner, IsRowCorner, Roomy, Filled};
ghost use Rattle.runs.specs.Readers.{ItemsLaws, IsRun};

use crate::at_once;
use crate::parts::Parts;
use crate::site::{BrickBox, Corner, Span, View};

// What samples are read as: what they become, and how the items of a brick are read.
pub trait Items {
    type Element;

    // How many elements an item takes in the buffer.
    ghost width: { Record → ℕ };

    // The elements of a sample of a region, by how far it is past the region's start.
    ghost sample: { Record → List ℕ → Region → ℕ → ℕ → ℕ → List Self.Element };

    // The elements of n items of a brick of one kind, from an item on.
    ghost items: { Record → List ℕ → Kind → ℕ → ℕ → List Self.Element };

    // That they are those of the samples.
    ghost laws: { ItemsLaws width sample items };

    // What the reader was made for.
    ghost fits: { Self → Record → Type 0 };

    fn elements(&self, v: &View) -> usize
        ensures { result ≡ width v.now.site.record.now };

    // n items of a brick, from the corner's on.
    fn read_items(&self, out: &mut [Self::Element], v: &View, corner: Corner, n: usize)
        requires fits { fits self.now v.now.site.record.now }
        requires room { length out.old ≡ n * width v.now.site.record.now }
        requires run { IsRun v.now corner n }
        ensures { out.new ≡ items v.now.site.record.now v.now.file.now corner.kind corner.item n };
}

// A way to read them: how a box of one brick is read, inline by inline as `read_inlines` does, or at once where the reader knows better.
pub trait Reader: Items {
    fn read_box(&self, out: &mut [Self::Element], v: &View, b: BrickBox)
        requires fits { Self.fits self.now v.now.site.record.now }
        requires room { Roomy Self.width v.now out.old }
        requires in_brick { InBrick v.now b }
        ensures { Filled Self.width Self.sample v.now b.i b.j b.k out.old out.new };
}

// The rows of a box on one inline. The buffer's room and what the reader was made for stand at each function. Buffer, view and reader make no struct
// of their own: it would be lent to be changed, so that each function would have to promise besides that view and reader stay as they are. One of view
// and reader alone would save a clause at each, and lengthen each promise, which names the view's record, file and region, by a step.
fn read_rows<R: Items>(
    out: &mut [R::Element],
    v: &View,
    reader: &R,
    corner: Corner,
    i: usize,
    j: Span,
    k: Span,
)
    requires fits { R.fits reader.now v.now.site.record.now }
    requires room { Roomy R.width v.now out.old }
    requires rows { IsRowCorner v.now corner i j k }
    ensures { Filled R.width R.sample v.now (only i) j k out.old out.new }
{
    let w = reader.elements(v);
    let side = v.site.lattice.side2;
    for t in 0..j.n {
        let a = v.sample_no(i, j.at + t, k.at) * w;
        let e = a + k.n * w;
        let row = Corner {
            kind: corner.kind,
            item: corner.item + t * side,
        };
        reader.read_items(&mut out[a..e], v, row, k.n);
    }
}

// The inlines of a box, each row by row.
pub fn read_inlines<R: Items>(
    out: &mut [R::Element],
    v: &View,
    reader: &R,
    corner: Corner,
    b: BrickBox,
)
    requires fits { R.fits reader.now v.now.site.record.now }
    requires room { Roomy R.width v.now out.old }
    requires corner { IsCorner v.now corner b }
    ensures { Filled R.width R.sample v.now b.i b.j b.k out.old out.new }
{
    let q = v.site.lattice;
    let plane = q.side1 * q.side2;
    for t in 0..b.i.n {
        let on = Corner {
            kind: corner.kind,
            item: corner.item + t * plane,
        };
        read_rows(out, v, reader, on, b.i.at + t, b.j, b.k);
    }
}

// The boxes of the bricks one above the other. Each loop makes the parts of its own direction and hands on those of the loops around it: that these lie in
// one brick each stands at each.
fn read_boxes<R: Reader>(out: &mut [R::Element], v: &View, reader: &R, i: Span, j: Span)
    requires fits { R.fits reader.now v.now.site.record.now }
    requires room { Roomy R.width v.now out.old }
    requires through { Through v.now 0 i × Through v.now 1 j }
    ensures { Filled R.width R.sample v.now i j (whole v.now 2) out.old out.new }
{
    let q = v.site.lattice;
    for down in Parts::new(q.start2, q.side2, q.count2) {
        reader.read_box(out, v, BrickBox { i, j, k: down });
    }
}

// The bricks one above the other, some inlines at once.
fn read_column<R: Reader>(out: &mut [R::Element], v: &View, reader: &R, i: Span, j: Span)
    requires fits { R.fits reader.now v.now.site.record.now }
    requires room { Roomy R.width v.now out.old }
    requires through { Through v.now 0 i × Through v.now 1 j }
    ensures { Filled R.width R.sample v.now i j (whole v.now 2) out.old out.new }
{
    let step = at_once(j.n, i.n);
    for t in (0..i.n).step_by(step) {
        let some = Span {
            at: i.at + t,
            n: step.min(i.n - t),
        };
        read_boxes(out, v, reader, some, j);
    }
}

// The columns of the bricks side by side along the crosslines.
fn read_columns<R: Reader>(out: &mut [R::Element], v: &View, reader: &R, i: Span)
    requires fits { R.fits reader.now v.now.site.record.now }
    requires room { Roomy R.width v.now out.old }
    requires through { Through v.now 0 i }
    ensures { Filled R.width R.sample v.now i (whole v.now 1) (whole v.now 2) out.old out.new }
{
    let q = v.site.lattice;
    for across in Parts::new(q.start1, q.side1, q.count1) {
        read_column(out, v, reader, i, across);
    }
}

// All bricks that the region touches.
pub fn read_bricks<R: Reader>(out: &mut [R::Element], v: &View, reader: &R)
    requires fits { R.fits reader.now v.now.site.record.now }
    requires room { Roomy R.width v.now out.old }
    ensures { out.new ≡ cat (run_of v.now.site.region.now 0) (λ x. cat (run_of v.now.site.region.now 1) (λ y. cat (run_of v.now.site.region.now 2) (λ z.
        R.sample v.now.site.record.now v.now.file.now v.now.site.region.now x y z))) }
{
    let q = v.site.lattice;
    for along in Parts::new(q.start0, q.side0, q.count0) {
        read_columns(out, v, reader, along);
    }
}
